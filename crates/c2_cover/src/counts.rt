// How many positions of a file are covered, and how many aren't.
ghost use Rattle.std.specs.Prelude.{◌≡◌, ◌+◌, ◌≤◌, ◌<◌, ◌^◌};
ghost use Rattle.c2_spec.specs.Cover as spec;
ghost use Rattle.c2_cover.specs.Covers.{excluded_of};
ghost use Rattle.c2_cover.specs.Counted.{passing, is_out};

use crate::cover::Cover;
use c2_base::Range;

/// How many positions of the file are covered. Takes no memory.
pub fn covered_count(cover: &Cover) -> u64
    ensures { result ≡ spec.covered_count (excluded_of cover.now) cover.now.size }
{
    let mut at = 0;
    let mut count = 0;
    for range in &cover.ranges {
        count += range.start - at;
        at = range.start + range.length;
    }
    count + (cover.size - at)
}

// How many positions of a range lie before `start`, or at `end` or later.
fn outside_range(range: Range, start: u64, end: u64) -> u64
    requires fits { range.start + range.length < 2 ^ 64 }
    requires ordered { start ≤ end }
    ensures { result ≡ passing (is_out start end) range.start range.length }
{
    let stop = range.start + range.length;
    let before = start.max(range.start).min(stop) - range.start;
    let after = stop - end.max(range.start).min(stop);
    before + after
}

/// How many positions that aren't covered lie outside the range of this start and length, which may pass the end of the file.
///
/// Takes no memory.
pub fn outside_count(cover: &Cover, start: u64, length: u64) -> u64
    ensures { result ≡ spec.outside_count (excluded_of cover.now) start length }
{
    let end = start.saturating_add(length);
    let mut count = 0;
    for range in &cover.ranges {
        count += outside_range(*range, start, end);
    }
    count
}
