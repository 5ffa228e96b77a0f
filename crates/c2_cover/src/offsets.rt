// The starts of root boxes, which a covered text has between the bytes of the file.
ghost use Rattle.std.specs.Prelude.{◌≡◌, ◌+◌, not, nat_le, All, IfOk};
ghost use Rattle.c2_spec.specs.Cover.{is_excluded};
ghost use Rattle.c2_bmff_rows.specs.Rows.{IsBoxWithin};
ghost use Rattle.c2_cover.specs.Telling.{Follow, IsToldBy, ending_after, skipped};
ghost use Rattle.c2_cover.specs.BoxOffsets.{AreBoxOffsets, offsets_of};

use crate::cover::Cover;
use c2_base::Range;
use c2_bmff::RootBox;
use std::alloc::{AllocError, Global};

/// The start of a root box, which stands in 8 bytes before the byte at the position `at`.
#[derive(Clone, Copy, Debug)]
pub(crate) struct BoxOffset {
    pub(crate) at: u64,
    pub(crate) start: u64,
}

// Whether a range ends after this position. Its end may pass 2^64 - 1.
fn ends_after(range: Range, at: u64) -> bool
    ensures { result ≡ not (nat_le (range.start + range.length) at) }
{
    range.start > at || range.length > at - range.start
}

// The ranges from the first on that ends after this position.
fn from_end_after<'c>(ranges: &'c [Range], at: u64) -> &'c [Range]
    ensures { result.now ≡ ending_after at ranges.now }
{
    let mut ranges_left = ranges;
    'passed: while let Some((first, others)) = ranges_left.split_first() {
        if ends_after(*first, at) {
            return ranges_left;
        }
        ranges_left = others;
    }
    ranges_left
}

// How many positions from this one on the first of the ranges excludes.
fn skip(ranges: &[Range], at: u64) -> u64
    ensures { result ≡ skipped at ranges.now }
{
    match ranges.first() {
        Some(range) => {
            if range.start <= at {
                range.length.saturating_sub(at - range.start)
            } else {
                0
            }
        }
        None => 0,
    }
}

// The box offsets of these root boxes, under the ranges of a cover. A box that begins before the last box offset has none.
fn offsets_under(
    alloc: Global,
    cover: &Cover,
    rows: &[RootBox],
) -> Result<Vec<BoxOffset>, AllocError>
    requires { All (IsBoxWithin cover.now.size) rows.now }
    ensures rise { IfOk result
        (λ offsets. AreBoxOffsets cover.now.size cover.now.ranges 0 offsets.items) }
    ensures all { IfOk result (λ offsets. Follow 0 rows.now
        → offsets.items ≡ offsets_of (is_excluded cover.now.ranges) rows.now) }
{
    let mut offsets = Vec::new(alloc);
    let mut ranges_left = cover.ranges.as_slice();
    let mut low = 0;
    for row in rows {
        if row.start >= low {
            ranges_left = from_end_after(ranges_left, row.start);
            let skipped = skip(ranges_left, row.start);
            low = row.start;
            if skipped < row.length {
                low += skipped;
                offsets.push(BoxOffset {
                    at: low,
                    start: row.start,
                })?;
            }
        }
    }
    Ok(offsets)
}

/// The cover with the box offsets of these root boxes, which end inside the file.
pub(crate) fn with_offsets(
    alloc: Global,
    cover: Cover,
    rows: &[RootBox],
) -> Result<Cover, AllocError>
    requires { All (IsBoxWithin cover.size) rows.now }
    ensures { IfOk result (IsToldBy rows.now cover) }
{
    let offsets = offsets_under(alloc, &cover, rows)?;
    let Cover { size, ranges, .. } = cover;
    Ok(Cover {
        size,
        ranges,
        offsets,
    })
}
