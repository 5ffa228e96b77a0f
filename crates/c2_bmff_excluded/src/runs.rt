// Byte tests in the order of their offsets, joined into runs of bytes, so that of no box a byte is looked at twice.
ghost use Rattle.std.specs.Prelude.{◌≡◌, true, false, ◌&&◌, ◌+◌, ◌≤◌, nat_le, ℕ, List, map, All};
ghost use Rattle.std.specs.Prelude.{OnOk, IfOk, IfSome, length, take, bytes_eq};
ghost use Rattle.c2_bmff_paths.specs.Exclusions.{byte_test};
ghost use Rattle.c2_bmff_excluded.specs.Marks.{holds_test};
ghost use Rattle.c2_bmff_excluded.specs.Runs.{AreRunsWithin, Differ, IsKeyWithin, IsLastWithin};
ghost use Rattle.c2_bmff_excluded.specs.Runs.{IsRunWithin, Join, MeetAlike, asked, holds_last};
ghost use Rattle.c2_bmff_excluded.specs.Runs.{holds_next, key_test};
ghost use Rattle.c2_bmff_rows.specs.declared.row.RootBox.{RootBox};

use c2_base::{Blob, NoMemory};
use std::alloc::Global;

/// Bytes that must stand in a box at an offset from its start: those from `start` to `end` of the bytes of all runs.
#[derive(Clone, Copy)]
pub struct Run {
    pub offset: u64,
    pub start: usize,
    pub end: usize,
}

/// What byte tests ask of a box.
#[derive(Drop)]
pub struct Runs {
    /// The least length of the box in bytes.
    pub least: u128,
    /// The bytes of all runs.
    pub bytes: Vec<u8>,
    /// The runs.
    pub runs: Vec<Run>,
}

// A byte test by its index in a list.
#[derive(Clone, Copy)]
struct Key {
    offset: u64,
    index: usize,
}

// The run that more bytes may be added to: it ends with the bytes of all runs.
#[derive(Clone, Copy)]
struct Last {
    offset: u64,
    start: usize,
}

// The keys of these byte tests, in their order.
fn keys_of(alloc: Global, tests: &[(u64, Blob)]) -> Result<Vec<Key>, NoMemory>
    ensures same { IfOk result (λ keys.
        map (key_test tests.now) keys.items ≡ map byte_test tests.now) }
    ensures within { IfOk result (λ keys. All (IsKeyWithin (length tests.now)) keys.items) }
{
    let mut keys = Vec::new(alloc);
    for index in 0..tests.len() {
        let offset = tests[index].0;
        keys.push(Key { offset, index })?;
    }
    Ok(keys)
}

// The keys of these byte tests, in the order of their offsets.
fn sorted_keys(alloc: Global, tests: &[(u64, Blob)]) -> Result<Vec<Key>, NoMemory>
    ensures same { IfOk result (λ keys.
        MeetAlike (map (key_test tests.now) keys.items) (map byte_test tests.now)) }
    ensures within { IfOk result (λ keys. All (IsKeyWithin (length tests.now)) keys.items) }
{
    let mut keys = keys_of(alloc, tests)?;
    keys.sort_unstable_by_key(|key| key.offset);
    Ok(keys)
}

/// Whether the first `count` bytes are the same.
pub(crate) fn is_same(bytes: &[u8], value: &[u8], count: usize) -> bool
    requires bytes { count ≤ length bytes.now }
    requires value { count ≤ length value.now }
    ensures { result ≡ bytes_eq (take count bytes.now) (take count value.now) }
{
    bytes[..count] == value[..count]
}

// Adds to the bytes of a run that begins at `start` those of a value that must stand `from` bytes further on, which is no further
// than the run's end; false where the two ask for different bytes.
fn join_value(
    bytes: &mut Vec<u8>,
    start: usize,
    from: usize,
    value: &[u8],
) -> Result<bool, NoMemory>
    requires { start + from ≤ length bytes.old.items }
    ensures join { IfOk result (λ same. same ≡ true
        → Join start from value.now bytes.old.items bytes.new.items) }
    ensures differ { IfOk result (λ same. same ≡ false
        → Differ start from value.now bytes.old.items) }
    ensures front { OnOk result
        (take (length bytes.old.items) bytes.new.items ≡ bytes.old.items) }
    ensures longer { OnOk result (length bytes.old.items ≤ length bytes.new.items) }
{
    let at = start + from;
    let count = value.len().min(bytes.len() - at);
    if !is_same(&bytes[at..], value, count) {
        return Ok(false);
    }
    bytes.extend_from_slice(&value[count..])?;
    Ok(true)
}

// Adds a value that must stand at an offset, to the last run where it begins in that or at its end, and gives what is the last run
// then; None where no box meets both. A value that begins earlier than the last run begins another one.
fn add_value(
    bytes: &mut Vec<u8>,
    runs: &mut Vec<Run>,
    last: Last,
    offset: u64,
    value: &[u8],
) -> Result<Option<Last>, NoMemory>
    requires last { IsLastWithin (length bytes.old.items) last }
    requires within { All (IsRunWithin (length bytes.old.items)) runs.old.items }
    ensures last { IfOk result (λ next. IfSome next (IsLastWithin (length bytes.new.items))) }
    ensures within { OnOk result (All (IsRunWithin (length bytes.new.items)) runs.new.items) }
    ensures same { IfOk result (λ next. (file : List ℕ) (row : RootBox)
        → nat_le (offset + length value.now) row.length ≡ true
        → holds_next file row bytes.new.items runs.new.items next
        ≡ (holds_last file row bytes.old.items runs.old.items last
        && holds_test file row (record { offset = offset; value = value.now }))) }
{
    if value.is_empty() {
        return Ok(Some(last));
    }
    let end = bytes.len();
    if offset < last.offset || offset - last.offset > (end - last.start) as u64 {
        runs.push(Run {
            offset: last.offset,
            start: last.start,
            end,
        })?;
        bytes.extend_from_slice(value)?;
        return Ok(Some(Last { offset, start: end }));
    }
    let from = (offset - last.offset) as usize;
    if !join_value(bytes, last.start, from, value)? {
        return Ok(None);
    }
    Ok(Some(last))
}

// What these byte tests ask of a box; None where no box meets them all.
fn joined(alloc: Global, tests: &[(u64, Blob)], keys: &[Key]) -> Result<Option<Runs>, NoMemory>
    requires { All (IsKeyWithin (length tests.now)) keys.now }
    ensures same { IfOk result (λ runs.
        MeetAlike (asked runs) (map (key_test tests.now) keys.now)) }
    ensures within { IfOk result (λ runs. IfSome runs AreRunsWithin) }
{
    let mut bytes = Vec::new(alloc);
    let mut runs = Vec::new(alloc);
    let mut least: u128 = 0;
    let mut last = Last {
        offset: 0,
        start: 0,
    };
    for key in keys {
        let value = tests[key.index].1.as_slice();
        least = least.max(key.offset as u128 + value.len() as u128);
        let Some(next) = add_value(&mut bytes, &mut runs, last, key.offset, value)? else {
            return Ok(None);
        };
        last = next;
    }
    let end = bytes.len();
    runs.push(Run {
        offset: last.offset,
        start: last.start,
        end,
    })?;
    Ok(Some(Runs { least, bytes, runs }))
}

/// What these byte tests ask of a box, in runs of bytes that don't overlap; None where no box meets them all.
pub(crate) fn runs_of(alloc: Global, tests: &[(u64, Blob)]) -> Result<Option<Runs>, NoMemory>
    ensures same { IfOk result (λ runs. MeetAlike (asked runs) (map byte_test tests.now)) }
    ensures within { IfOk result (λ runs. IfSome runs AreRunsWithin) }
{
    let keys = sorted_keys(alloc, tests)?;
    let runs = joined(alloc, tests, keys.as_slice())?;
    Ok(runs)
}
