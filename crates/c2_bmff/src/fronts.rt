// The first bytes of a box, which are read once for the byte tests of all exclusions.
ghost use Rattle.std.specs.Prelude.{◌≤◌, IfOk, length, take};
ghost use Rattle.std.specs.Option.{ForSome};
ghost use Rattle.c2_base.specs.Causes.{HasCause};
ghost use Rattle.c2_base.specs.Source.{StaysSource};
ghost use Rattle.c2_bmff_rows.specs.Rows.{IsRowWithin};
ghost use Rattle.c2_bmff_excluded.specs.Marks.{IsFront};

use c2_base::limits::PIECE_LEN;
use c2_base::{Failed, NoMemory, Source};
use c2_bmff_boxes::{RootBox, fill_first};
use c2_bmff_excluded::{Ask, Entry, Runs};
use std::alloc::Global;

// Whether bytes are asked for of a box of this length.
fn asks_bytes(tests: &Option<Runs>, length: u64) -> bool {
    match tests {
        Some(runs) => !runs.bytes.is_empty() && runs.least <= length as u128,
        None => false,
    }
}

// How many first bytes of a box the tests ask for.
fn asked_len(tests: &Option<Runs>) -> usize {
    match tests {
        Some(runs) if !runs.bytes.is_empty() => runs.least.min(PIECE_LEN as u128) as usize,
        _ => 0,
    }
}

// How many first bytes of a box these exclusions of one path ask for, and no more than are read at a time.
fn most_of(asks: &[Ask]) -> usize {
    let mut most = 0;
    for ask in asks {
        most = asked_len(&ask.tests).max(most);
    }
    most
}

// The most first bytes of a box that one of these exclusions asks for, and no more than are read at a time.
fn most_asked(entries: &[Entry<'_>]) -> usize {
    let mut most = 0;
    for entry in entries {
        most = most_of(entry.asks.as_slice()).max(most);
    }
    most
}

/// Room for the first bytes of a box.
pub(crate) fn room_for(alloc: Global, entries: &[Entry<'_>]) -> Result<Vec<u8>, NoMemory> {
    let count = most_asked(entries);
    let bytes = vec![in alloc; 0; count]?;
    Ok(bytes)
}

/// The number of first bytes of the box of this row that are in `bytes`: as many as there is room for where none were and this
/// exclusion asks for bytes of it.
pub(crate) fn fill_front<S: Source>(
    source: &mut S,
    ask: &Ask,
    row: RootBox,
    bytes: &mut [u8],
    count: usize,
) -> Result<usize, Failed>
    requires inside { IsRowWithin (S.len source.old) row }
    requires few { count ≤ length bytes.old }
    requires front { ForSome (S.known source.old)
        (λ file. IsFront file row (take count bytes.old)) }
    ensures few { IfOk result (λ n. n ≤ length bytes.new) }
    ensures front { IfOk result (λ n. ForSome (S.known source.old)
        (λ file. IsFront file row (take n bytes.new))) }
    ensures stays { StaysSource S.len S.known S.faults source.old source.new }
    ensures cause { HasCause (S.faults source.old) (S.faults source.new) result }
{
    if count > 0 || !asks_bytes(&ask.tests, row.length) {
        return Ok(count);
    }
    let most = row.length.min(bytes.len() as u64) as usize;
    fill_first(source, row.start, bytes, most)?;
    Ok(most)
}
