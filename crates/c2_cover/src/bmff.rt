// The cover of a BMFF hash.
ghost use Rattle.std.specs.Prelude.{◌≡◌, ◌+◌, ◌≤◌, ℕ, All, OnOk, IfOk, IfErr};
ghost use Rattle.std.specs.Option.{ForSome};
ghost use Rattle.c2_base.specs.Source.{StaysSource};
ghost use Rattle.c2_bmff_boxes.specs.Causes.{IsBmffCaused, OrBmffFault};
ghost use Rattle.c2_bmff_rows.specs.Rows.{IsBoxWithin};
ghost use Rattle.c2_cover.specs.BmffCovers.{IsBmffCoverOf};
ghost use Rattle.c2_cover.specs.Refused.{IsBmffCause};
ghost use Rattle.c2_cover.specs.Telling.{IsToldCover};
ghost use Rattle.c2_cover.specs.BoxOffsets.{AreBoxOffsets};

use crate::cover::{Cover, CoverError, cover_without};
use crate::offsets::with_offsets;
use c2_base::{MediaError, NoMemory, Range, Source};
use c2_bmff::types::Roots;
use c2_bmff::{Exclusion, RootBox, match_paths};
use std::alloc::Global;

// The error of a search on paths as one of a cover: that a source failed, or that memory ran out.
fn matching_error(error: MediaError) -> CoverError
    requires { OrBmffFault error ⊥ }
    ensures { (before now : ℕ) → IsBmffCaused before now error → IsBmffCause before now result }
{
    match error {
        MediaError::ReadFault => CoverError::ReadFault,
        MediaError::NoMemory => CoverError::NoMemory,
        MediaError::NotMedia
        | MediaError::FileTooLarge(_)
        | MediaError::Truncated(_)
        | MediaError::BadMarker(_)
        | MediaError::BadSegment(_)
        | MediaError::BadPacket(_)
        | MediaError::TwoStores(_)
        | MediaError::BadBox(_)
        | MediaError::BadProvenanceBox(_)
        | MediaError::StoreTooLarge(_)
        | MediaError::TooManyBoxes => unreachable!(),
    }
}

// The cover of a file of this size that leaves out these ranges, in any order, and tells the starts of these root boxes.
fn told_cover(
    alloc: Global,
    size: u64,
    ranges: &[Range],
    rows: &[RootBox],
) -> Result<Cover, NoMemory>
    requires ranges { All (λ r. r.start + r.length ≤ size) ranges.now }
    requires rows { All (IsBoxWithin size) rows.now }
    ensures { IfOk result (IsToldCover size ranges.now rows.now) }
{
    let mut sorted = Vec::from_slice(alloc, ranges)?;
    let cover = cover_without(alloc, sorted.as_mut_slice(), size)?;
    let told = with_offsets(alloc, cover, rows)?;
    Ok(told)
}

/// The cover of a BMFF hash with these exclusions, of the file with these root boxes (C2PA Technical Specification 2.x,
/// "BMFF-based hash"): of each root box of which a byte is left, its start in 8 bytes, and then what is left of it.
///
/// [`CoverError::ReadFault`] comes only where the source failed, [`CoverError::NoMemory`] where memory ran out, and no other error
/// comes. The cover takes 16 bytes for each range that is left out and for each root box of which a byte is left.
pub fn bmff_cover<S: Source>(
    alloc: Global,
    source: &mut S,
    roots: &Roots,
    entries: &[Exclusion],
) -> Result<Cover, CoverError>
    requires inside { All (IsBoxWithin (S.len source.old)) roots.now }
    ensures cover { IfOk result (λ c. ForSome (S.known source.old) (λ file.
        IsBmffCoverOf file roots.now entries.now c)) }
    ensures size { IfOk result (λ c. c.size ≡ S.len source.old) }
    ensures offsets { IfOk result (λ c. AreBoxOffsets c.size c.ranges 0 c.offsets) }
    ensures stays { StaysSource S.len S.known S.faults source.old source.new }
    ensures count { OnOk result (S.faults source.new ≡ S.faults source.old) }
    ensures cause { IfErr result (IsBmffCause (S.faults source.old) (S.faults source.new)) }
{
    let size = source.size()?;
    let ranges = match match_paths(alloc, source, roots, entries) {
        Ok(ranges) => ranges,
        Err(error) => return Err(matching_error(error)),
    };
    let cover = told_cover(alloc, size, ranges.as_slice(), roots.as_slice())?;
    Ok(cover)
}
