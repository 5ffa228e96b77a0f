// Covers, and the ranges that they are made of.
ghost use Rattle.std.specs.Prelude.{◌≡◌, ◌+◌, ◌≤◌, ℕ, None, Some, OnOk, IfOk, IfErr, All};
ghost use Rattle.std.specs.List.Sorted.{IsPermutation};
ghost use Rattle.c2_spec.specs.Cover.{is_excluded, bad_range};
ghost use Rattle.c2_cover.specs.Covers.{AreMerged, IsCoverOf};
ghost use Rattle.c2_cover.specs.Merging.{InOrder, with_open};
ghost use Rattle.c2_cover.specs.Refused.{IsDataCoverCause};

use crate::offsets::BoxOffset;
use c2_base::{Failed, NoMemory, Range};
use std::alloc::{AllocError, Global};
use std::marker::Model;
use thiserror::Error;

/// What a hash covers of a file of a given size: all bytes but some ranges.
///
/// The ranges rise, none of them is empty, and between two of them there is a byte, however they were given. The cover of a BMFF hash
/// has the starts of root boxes besides, which its text has between the bytes of the file.
#[derive(Debug, Drop)]
pub struct Cover {
    pub(crate) size: u64,
    pub(crate) ranges: Vec<Range>,
    pub(crate) offsets: Vec<BoxOffset>,
}

impl Model for Cover {
    ghost use Rattle.std.specs.Prelude.{◌<◌, ◌^◌};
    ghost use Rattle.c2_cover.specs.Covers.{Covered, AreMerged};
    ghost use Rattle.c2_cover.specs.BoxOffsets.{AreBoxOffsets};

    ghost Value = { Covered };

    ghost view = { λ c. record {
      size = c.size;
      ranges = c.ranges.items;
      offsets = c.offsets.items;
    } };

    ghost invariant = { λ c. (c.size < 2 ^ 64) × AreMerged c.size 0 c.ranges.items
        × AreBoxOffsets c.size c.ranges.items 0 c.offsets.items };
}

/// Why there is no cover.
#[derive(Clone, Copy, Debug, PartialEq, Eq, Error)]
pub enum CoverError {
    /// The ranges don't rise inside the file: this is the index of the first that reaches back into the one before it, or past the
    /// file's end.
    #[error("range {0} begins before the end of the one before it, or ends after the file")]
    BadRange(usize),

    /// The source failed.
    #[error("the source failed")]
    ReadFault,

    /// Memory ran out.
    #[error("memory ran out")]
    NoMemory,
}

impl From<Failed> for CoverError {
    ghost use Rattle.std.specs.Prelude.{◌≡◌};
    ghost use Rattle.c2_cover.specs.declared.cover.CoverError.TheVariants.{ReadFault};

    ghost from_gives = { λ _ e. e ≡ ReadFault };

    fn from(_error: Failed) -> CoverError {
        CoverError::ReadFault
    }
}

impl From<NoMemory> for CoverError {
    ghost use Rattle.std.specs.Prelude.{◌≡◌};
    ghost use Rattle.c2_cover.specs.declared.cover.CoverError.TheVariants as error;

    ghost from_gives = { λ _ e. e ≡ error.NoMemory };

    fn from(_error: NoMemory) -> CoverError {
        CoverError::NoMemory
    }
}

impl From<AllocError> for CoverError {
    ghost use Rattle.std.specs.Prelude.{◌≡◌};
    ghost use Rattle.c2_cover.specs.declared.cover.CoverError.TheVariants.{NoMemory};

    ghost from_gives = { λ _ e. e ≡ NoMemory };

    fn from(_error: AllocError) -> CoverError {
        CoverError::NoMemory
    }
}

/// Whether the ranges rise inside a file of `size` bytes; they may touch and be empty.
///
/// The error is the index, from 0, of the first range that reaches back into the one before it, or past the file's end, as one does
/// whose end 64 bits can't hold. Takes no memory.
pub fn check_ranges(ranges: &[Range], size: u64) -> Result<(), usize>
    ensures fit { OnOk result (bad_range size ranges.now ≡ None) }
    ensures first { IfErr result (λ i. bad_range size ranges.now ≡ Some i) }
{
    let mut end = 0;
    for (index, range) in ranges.iter().enumerate() {
        if range.start < end || range.start > size || range.length > size - range.start {
            return Err(index);
        }
        end = range.start + range.length;
    }
    Ok(())
}

// Puts the held range after the others, where it isn't empty.
fn close(done: &mut Vec<Range>, held: Range) -> Result<(), AllocError>
    ensures { OnOk result (done.new.items ≡ with_open done.old.items held) }
{
    if held.length > 0 {
        done.push(held)?;
    }
    Ok(())
}

// Merged ranges that exclude the same positions. The starts of those that are given rise, from one to the next or not at all.
fn merged(alloc: Global, ranges: &[Range], size: u64) -> Result<Vec<Range>, AllocError>
    requires { InOrder size 0 ranges.now }
    ensures merged { IfOk result (λ m. AreMerged size 0 m.items) }
    ensures same { IfOk result (λ m. (i : ℕ) → is_excluded m.items i ≡ is_excluded ranges.now i) }
{
    let mut done = Vec::new(alloc);
    let mut held = Range {
        start: 0,
        length: 0,
    };
    for range in ranges {
        let end = held.start + held.length;
        if range.start <= end {
            held.length = end.max(range.start + range.length) - held.start;
        } else {
            close(&mut done, held)?;
            held = *range;
        }
    }
    close(&mut done, held)?;
    Ok(done)
}

/// The cover of a data hash that excludes these ranges of a file of `size` bytes (C2PA Technical Specification 2.x, "Data hash").
///
/// [`CoverError::BadRange`] comes exactly where [`check_ranges`] answers that index, [`CoverError::NoMemory`] where memory ran out.
pub fn data_cover(alloc: Global, ranges: &[Range], size: u64) -> Result<Cover, CoverError>
    ensures cover { IfOk result (IsCoverOf size ranges.now) }
    ensures fit { OnOk result (bad_range size ranges.now ≡ None) }
    ensures error { IfErr result (IsDataCoverCause size ranges.now) }
{
    match check_ranges(ranges, size) {
        Ok(()) => {}
        Err(index) => return Err(CoverError::BadRange(index)),
    }
    let ranges = merged(alloc, ranges, size)?;
    let offsets = Vec::new(alloc);
    Ok(Cover {
        size,
        ranges,
        offsets,
    })
}

/// The cover that leaves out all positions of these ranges, which may come in any order, overlap, touch and be empty.
///
/// Each lies inside the file. They are sorted in place, also where memory runs out.
pub fn cover_without(alloc: Global, ranges: &mut [Range], size: u64) -> Result<Cover, NoMemory>
    requires { All (λ r. r.start + r.length ≤ size) ranges.old }
    ensures cover { IfOk result (IsCoverOf size ranges.old) }
    ensures sorted { IsPermutation ranges.old ranges.new }
{
    ranges.sort_unstable_by_key(|range| range.start);
    let ranges = merged(alloc, ranges, size)?;
    let offsets = Vec::new(alloc);
    Ok(Cover {
        size,
        ranges,
        offsets,
    })
}
