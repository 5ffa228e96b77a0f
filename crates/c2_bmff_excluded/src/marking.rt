// The positions that an exclusion excludes.
ghost use Rattle.std.specs.Prelude.{◌≡◌, true, false, ◌||◌, ◌&&◌, ◌+◌, ◌-◌, ◌<◌, ◌≤◌, ◌^◌, ℕ, List};
ghost use Rattle.std.specs.Prelude.{[], map, All, OnOk, OnErr, IfOk, IfErr, IfSome, length, take};
ghost use Rattle.std.specs.Prelude.{drop, bytes_eq, option_map, unwrap_or};
ghost use Rattle.std.specs.List.{list_all, list_any, slice_get};
ghost use Rattle.std.specs.List.Sorted.{IsPermutation};
ghost use Rattle.std.specs.Option.{ForSome};
ghost use Rattle.c2_base.specs.Causes.{HasCause};
ghost use Rattle.c2_base.specs.Source.{ReadsSource, StaysSource};
ghost use Rattle.c2_spec.specs.Cover.{holds, is_excluded};
ghost use Rattle.c2_bmff_boxes.specs.Causes.{IsBmffCaused, OrBmffFault};
ghost use Rattle.c2_bmff_rows.specs.Rows.{IsRowWithin};
ghost use Rattle.c2_bmff_excluded.specs.Parts.{AreRising, StartsBy};
ghost use Rattle.c2_bmff_excluded.specs.Marks.{AreApart, GrowsWithin, IsFront, IsRangeWithin};
ghost use Rattle.c2_bmff_excluded.specs.Marks.{has_length, holds_test, in_row, in_row_part};
ghost use Rattle.c2_bmff_excluded.specs.Marks.{in_row_subset, is_row_in, joined_again, marks};
ghost use Rattle.c2_bmff_excluded.specs.Marks.{takes};
ghost use Rattle.c2_bmff_excluded.specs.Runs.{AreRunsWithin, IsRunWithin, asked, run_test};

use crate::entries::Ask;
use crate::far::meets_far;
use crate::runs::{Run, Runs};
use c2_base::{Failed, MediaError, NoMemory, Range, Source};
use c2_bmff_boxes::RootBox;
use std::alloc::Global;

// Among how many ranges a new one is looked for, so that parts of a small box that many exclusions name are few before they are sorted.
const MOST_LOOKED_AT: usize = 8;

// Whether the last bytes are the same, of values of one length: those of many exclusions often begin alike.
fn ends_alike(bytes: &[u8], value: &[u8]) -> bool
    requires { length bytes.now ≡ length value.now }
    ensures { result ≡ false → bytes_eq bytes.now value.now ≡ false }
{
    if value.is_empty() {
        return true;
    }
    let last = value.len() - 1;
    bytes[last] == value[last]
}

// Whether these bytes stand at an offset in the first bytes of a box; None where those end before.
fn stands_in(front: &[u8], offset: u64, value: &[u8]) -> Option<bool>
    ensures inside { IfSome result (λ b. offset + length value.now ≤ length front.now) }
    ensures same { IfSome result
        (λ b. b ≡ bytes_eq (take (length value.now) (drop offset front.now)) value.now) }
{
    if offset > front.len() as u64 {
        return None;
    }
    let at = offset as usize;
    if value.len() > front.len() - at {
        return None;
    }
    let part = &front[at..at + value.len()];
    if !ends_alike(part, value) {
        return Some(false);
    }
    Some(part == value)
}

// Whether these bytes stand at an offset from the start of the box of this row, which begins with `front`, wholly inside the box; None
// where they end behind `front`.
fn meets(row: RootBox, front: &[u8], offset: u64, value: &[u8]) -> Option<bool>
    ensures { IfSome result (λ b. (file : List ℕ) → IsFront file row front.now
        → b ≡ holds_test file row (record { offset = offset; value = value.now })) }
{
    if offset > row.length || value.len() as u64 > row.length - offset {
        return Some(false);
    }
    let Some(same) = stands_in(front, offset, value) else {
        return None;
    };
    Some(same)
}

// Whether all of these runs stand in the box of this row.
fn meets_runs<S: Source>(
    source: &mut S,
    row: RootBox,
    front: &[u8],
    bytes: &[u8],
    runs: &[Run],
) -> Result<bool, Failed>
    requires inside { IsRowWithin (S.len source.old) row }
    requires front { ForSome (S.known source.old) (λ file. IsFront file row front.now) }
    requires within { All (IsRunWithin (length bytes.now)) runs.now }
    ensures meets { IfOk result (λ b. ForSome (S.known source.old) (λ file.
        b ≡ list_all (holds_test file row) (map (run_test bytes.now) runs.now))) }
    ensures stays { StaysSource S.len S.known S.faults source.old source.new }
    ensures cause { HasCause (S.faults source.old) (S.faults source.new) result }
{
    for k in 0..runs.len() {
        let run = runs[k];
        let Some(same) = meets(row, front, run.offset, &bytes[run.start..run.end]) else {
            return meets_far(source, row, bytes, &runs[k..]);
        };
        if !same {
            return Ok(false);
        }
    }
    Ok(true)
}

// Whether the box of this row has all that is asked: its length first, then the runs, up to the first that differs.
fn meets_all<S: Source>(
    source: &mut S,
    row: RootBox,
    front: &[u8],
    tests: &Option<Runs>,
) -> Result<bool, Failed>
    requires inside { IsRowWithin (S.len source.old) row }
    requires front { ForSome (S.known source.old) (λ file. IsFront file row front.now) }
    requires within { IfSome tests.now AreRunsWithin }
    ensures meets { IfOk result (λ b. ForSome (S.known source.old) (λ file.
        b ≡ list_all (holds_test file row) (asked tests.now))) }
    ensures stays { StaysSource S.len S.known S.faults source.old source.new }
    ensures cause { HasCause (S.faults source.old) (S.faults source.new) result }
{
    let Some(all) = tests else {
        return Ok(false);
    };
    if (row.length as u128) < all.least {
        return Ok(false);
    }
    let bytes = all.bytes.as_slice();
    let runs = all.runs.as_slice();
    let same = meets_runs(source, row, front, bytes, runs)?;
    Ok(same)
}

// Whether the box of this row has the stated length, where one is stated.
fn is_sized(length: Option<u64>, row: RootBox) -> bool
    ensures { result ≡ has_length length row }
{
    match length {
        Some(n) => row.length == n,
        None => true,
    }
}

// Whether the exclusion takes the box of this row.
fn takes_row<S: Source>(
    source: &mut S,
    ask: &Ask,
    row: RootBox,
    front: &[u8],
) -> Result<bool, Failed>
    requires inside { IsRowWithin (S.len source.old) row }
    requires front { ForSome (S.known source.old) (λ file. IsFront file row front.now) }
    ensures takes { IfOk result
        (λ b. ForSome (S.known source.old) (λ file. b ≡ takes file ask.now row)) }
    ensures stays { StaysSource S.len S.known S.faults source.old source.new }
    ensures cause { HasCause (S.faults source.old) (S.faults source.new) result }
{
    if !is_sized(ask.length, row) {
        return Ok(false);
    }
    meets_all(source, row, front, &ask.tests)
}

// Adds a range, to the last of the others where it begins in that or at its end. Where memory runs out the others are as before.
fn add_range(ranges: &mut Vec<Range>, range: Range) -> Result<(), NoMemory>
    requires fits { range.start + range.length < 2 ^ 64 }
    requires fit { All (IsRangeWithin (2 ^ 64 - 1)) ranges.old.items }
    ensures same { OnOk result ((i : ℕ) → is_excluded ranges.new.items i
        ≡ (is_excluded ranges.old.items i || holds i range)) }
    ensures kept { OnErr result (ranges.new.items ≡ ranges.old.items) }
    ensures within { (n : ℕ) → All (IsRangeWithin n) ranges.old.items
        → IsRangeWithin n range → All (IsRangeWithin n) ranges.new.items }
    ensures apart { OnOk result (All (StartsBy range.start) ranges.old.items
        → AreApart 0 ranges.old.items → AreApart 0 ranges.new.items) }
    ensures below { OnOk result ((n : ℕ) → range.start ≤ n
        → All (StartsBy n) ranges.old.items → All (StartsBy n) ranges.new.items) }
{
    if range.length == 0 {
        return Ok(());
    }
    let Some(last) = ranges.pop() else {
        ranges.push(range)?;
        return Ok(());
    };
    if range.start < last.start || range.start - last.start > last.length {
        ranges.push(last)?;
        ranges.push(range)?;
        return Ok(());
    }
    let length = last.length.max(range.start - last.start + range.length);
    ranges.push(Range {
        start: last.start,
        length,
    })?;
    Ok(())
}

// Whether a range holds another one whole.
fn holds_range(range: Range, other: Range) -> bool
    ensures { result ≡ true → (i : ℕ) → holds i other ≡ true → holds i range ≡ true }
{
    range.start <= other.start
        && other.length <= range.length
        && other.start - range.start <= range.length - other.length
}

// Whether one of the last ranges holds this one whole.
fn is_held(ranges: &[Range], range: Range) -> bool
    ensures { result ≡ true → (i : ℕ) → holds i range ≡ true → is_excluded ranges.now i ≡ true }
{
    for k in ranges.len().saturating_sub(MOST_LOOKED_AT)..ranges.len() {
        if holds_range(ranges[k], range) {
            return true;
        }
    }
    false
}

// Adds a range, where none of the last holds it already. Where memory runs out the others are as before.
fn add_new(ranges: &mut Vec<Range>, range: Range) -> Result<(), NoMemory>
    requires fits { range.start + range.length < 2 ^ 64 }
    requires fit { All (IsRangeWithin (2 ^ 64 - 1)) ranges.old.items }
    ensures same { OnOk result ((i : ℕ) → is_excluded ranges.new.items i
        ≡ (is_excluded ranges.old.items i || holds i range)) }
    ensures kept { OnErr result (ranges.new.items ≡ ranges.old.items) }
    ensures within { (n : ℕ) → All (IsRangeWithin n) ranges.old.items
        → IsRangeWithin n range → All (IsRangeWithin n) ranges.new.items }
{
    if is_held(ranges, range) {
        return Ok(());
    }
    add_range(ranges, range)
}

// Adds these ranges, one after the other. Where memory runs out some of them were added.
fn add_each(ranges: &mut Vec<Range>, others: &[Range]) -> Result<(), NoMemory>
    requires fits { All (IsRangeWithin (2 ^ 64 - 1)) others.now }
    requires fit { All (IsRangeWithin (2 ^ 64 - 1)) ranges.old.items }
    ensures same { OnOk result ((i : ℕ) → is_excluded ranges.new.items i
        ≡ (is_excluded ranges.old.items i || is_excluded others.now i)) }
    ensures some { OnErr result
        (GrowsWithin (is_excluded others.now) ranges.old.items ranges.new.items) }
    ensures within { (n : ℕ) → All (IsRangeWithin n) ranges.old.items
        → All (IsRangeWithin n) others.now → All (IsRangeWithin n) ranges.new.items }
    ensures apart { OnOk result (AreRising others.now → ranges.old.items ≡ []
        → AreApart 0 ranges.new.items) }
{
    for other in others {
        add_range(ranges, *other)?;
    }
    Ok(())
}

/// Adds these ranges, joined where they overlap or touch. They are sorted for that.
///
/// Where memory runs out some of them were added. Added to none, they are apart: between two of them there is a position.
pub fn add_sorted(ranges: &mut Vec<Range>, others: &mut Vec<Range>) -> Result<(), NoMemory>
    requires fits { All (IsRangeWithin (2 ^ 64 - 1)) others.old.items }
    requires fit { All (IsRangeWithin (2 ^ 64 - 1)) ranges.old.items }
    ensures same { OnOk result ((i : ℕ) → is_excluded ranges.new.items i
        ≡ (is_excluded ranges.old.items i || is_excluded others.old.items i)) }
    ensures some { OnErr result
        (GrowsWithin (is_excluded others.old.items) ranges.old.items ranges.new.items) }
    ensures within { (n : ℕ) → All (IsRangeWithin n) ranges.old.items
        → All (IsRangeWithin n) others.old.items → All (IsRangeWithin n) ranges.new.items }
    ensures apart { OnOk result (ranges.old.items ≡ [] → AreApart 0 ranges.new.items) }
    ensures sorted { IsPermutation others.old.items others.new.items }
{
    others.sort_unstable_by_key(|range| range.start);
    add_each(ranges, others.as_slice())?;
    Ok(())
}

/// Joins these ranges where there are `full` of them or more, and gives how many there may be before they are joined again: no fewer than
/// twice as many as are left, and no fewer than `full`.
///
/// Whatever is answered, they exclude the same positions. Joined, they are apart: between two of them there is a position.
pub fn join_full(alloc: Global, ranges: &mut Vec<Range>, full: usize) -> Result<usize, NoMemory>
    requires fit { All (IsRangeWithin (2 ^ 64 - 1)) ranges.old.items }
    ensures same { (i : ℕ) → is_excluded ranges.new.items i ≡ is_excluded ranges.old.items i }
    ensures within { (n : ℕ) → All (IsRangeWithin n) ranges.old.items
        → All (IsRangeWithin n) ranges.new.items }
    ensures few { OnOk result (length ranges.old.items < full
        → ranges.new.items ≡ ranges.old.items) }
    ensures joined { OnOk result (full ≤ length ranges.old.items → AreApart 0 ranges.new.items) }
    ensures again { IfOk result (λ n.
        n ≡ joined_again full (length ranges.old.items) (length ranges.new.items)) }
{
    if ranges.len() < full {
        return Ok(full);
    }
    let mut all = Vec::new(alloc);
    add_sorted(&mut all, ranges)?;
    let most = all.len().saturating_mul(2).max(full);
    *ranges = all;
    Ok(most)
}

// A part of the box of this row, cut at the box's end.
fn part_in(row: RootBox, part: Range) -> Range
    requires fits { row.start + row.length < 2 ^ 64 }
    ensures holds { (i : ℕ) → holds i result ≡ in_row_part i row part }
    ensures within { result.start + result.length ≤ row.start + row.length }
{
    if part.start >= row.length {
        return Range {
            start: row.start,
            length: 0,
        };
    }
    let room = row.length - part.start;
    let length = if part.length == 0 {
        room
    } else {
        part.length.min(room)
    };
    Range {
        start: row.start + part.start,
        length,
    }
}

/// Whether the last of these ranges holds the box of this row whole. Takes no memory.
pub fn is_whole(ranges: &[Range], row: RootBox) -> bool
    ensures last { result ≡ unwrap_or
        (option_map (is_row_in row) (slice_get ranges.now (length ranges.now - 1))) false }
    ensures holds { result ≡ true
        → (i : ℕ) → in_row i row ≡ true → is_excluded ranges.now i ≡ true }
{
    if ranges.is_empty() {
        return false;
    }
    let last = ranges[ranges.len() - 1];
    holds_row(last, row)
}

// Whether a range holds the box of this row whole.
fn holds_row(range: Range, row: RootBox) -> bool
    ensures is { result ≡ is_row_in row range }
    ensures holds { result ≡ true → (i : ℕ) → in_row i row ≡ true → holds i range ≡ true }
{
    range.start <= row.start
        && row.length <= range.length
        && row.start - range.start <= range.length - row.length
}

// Whether a part ends no earlier than the box of this row, so that parts that begin no earlier add nothing to it.
fn ends_row(row: RootBox, part: Range) -> bool
    ensures { result ≡ true → (i : ℕ) (later : Range) → part.start ≤ later.start
        → in_row_part i row later ≡ true → in_row_part i row part ≡ true }
{
    part.length == 0 || part.start >= row.length || part.length >= row.length - part.start
}

// Adds these parts of the box of this row, up to the first that ends no earlier than the box.
fn add_parts(ranges: &mut Vec<Range>, row: RootBox, parts: &[Range]) -> Result<(), NoMemory>
    requires rising { AreRising parts.now }
    requires fits { row.start + row.length < 2 ^ 64 }
    requires fit { All (IsRangeWithin (2 ^ 64 - 1)) ranges.old.items }
    ensures same { OnOk result ((i : ℕ) → is_excluded ranges.new.items i
        ≡ (is_excluded ranges.old.items i || list_any (in_row_part i row) parts.now)) }
    ensures some { OnErr result
        (GrowsWithin (λ i. in_row i row) ranges.old.items ranges.new.items) }
    ensures within { (n : ℕ) → All (IsRangeWithin n) ranges.old.items
        → row.start + row.length ≤ n → All (IsRangeWithin n) ranges.new.items }
{
    for part in parts {
        add_new(ranges, part_in(row, *part))?;
        if ends_row(row, *part) {
            return Ok(());
        }
    }
    Ok(())
}

// Adds the parts of the box of this row, or all of it where there are none.
fn add_subset(
    ranges: &mut Vec<Range>,
    row: RootBox,
    subset: &Option<Vec<Range>>,
) -> Result<(), NoMemory>
    requires rising { IfSome subset.now (λ parts. AreRising parts.items) }
    requires fits { row.start + row.length < 2 ^ 64 }
    requires fit { All (IsRangeWithin (2 ^ 64 - 1)) ranges.old.items }
    ensures same { OnOk result ((i : ℕ) → is_excluded ranges.new.items i
        ≡ (is_excluded ranges.old.items i
        || in_row_subset i row (option_map (λ parts. parts.items) subset.now))) }
    ensures some { OnErr result
        (GrowsWithin (λ i. in_row i row) ranges.old.items ranges.new.items) }
    ensures within { (n : ℕ) → All (IsRangeWithin n) ranges.old.items
        → row.start + row.length ≤ n → All (IsRangeWithin n) ranges.new.items }
{
    let Some(parts) = subset else {
        add_range(
            ranges,
            Range {
                start: row.start,
                length: row.length,
            },
        )?;
        return Ok(());
    };
    add_parts(ranges, row, parts.as_slice())?;
    Ok(())
}

/// Adds the positions that the exclusion excludes through the box of this row, which begins with `front`.
///
/// [`MediaError::ReadFault`] comes only where the source failed, [`MediaError::NoMemory`] where memory ran out, and no other error comes.
/// After an error the ranges may hold some positions of the box more.
pub fn mark_row<S: Source>(
    source: &mut S,
    ask: &Ask,
    row: RootBox,
    front: &[u8],
    ranges: &mut Vec<Range>,
) -> Result<(), MediaError>
    requires inside { IsRowWithin (S.len source.old) row }
    requires front { ForSome (S.known source.old) (λ file. IsFront file row front.now) }
    requires within { All (IsRangeWithin (S.len source.old)) ranges.old.items }
    ensures same { OnOk result (ForSome (S.known source.old) (λ file.
        (i : ℕ) → is_excluded ranges.new.items i
        ≡ (is_excluded ranges.old.items i || marks file ask.now i row))) }
    ensures some { OnErr result
        (GrowsWithin (λ i. in_row i row) ranges.old.items ranges.new.items) }
    ensures within { All (IsRangeWithin (S.len source.old)) ranges.new.items }
    ensures reads { ReadsSource S.len S.known S.faults IsBmffCaused source.old source.new result }
    ensures outside { IfErr result (λ e. OrBmffFault e ⊥) }
{
    if !takes_row(source, ask, row, front)? {
        return Ok(());
    }
    add_subset(ranges, row, &ask.parts)?;
    Ok(())
}
