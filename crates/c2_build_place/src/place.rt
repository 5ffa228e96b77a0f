// Where a new store goes in a media file without its older store.
ghost use Rattle.std.specs.Prelude.{◌≡◌, ◌<◌, ℕ, true, List, None, Some, Ok, IfOk};
ghost use Rattle.c2_base.specs.declared.limits.TheConstants.{FILE_LEN_LIMIT};
ghost use Rattle.c2_spec.specs.Container.{is_bmff};
ghost use Rattle.c2_bmff_boxes.specs.Roots.{AreRootsOf, FillSource};
ghost use Rattle.c2_bmff_boxes.specs.Search.{IsStoreOr};
ghost use Rattle.c2_container.specs.Contained.{IsSaid, IsWithin};
ghost use Rattle.c2_container.specs.declared.types.Container.TheVariants.{Jpeg};
ghost use Rattle.c2_without_store.specs.Clears.{cleared, cleared_len, root_clearing};
ghost use Rattle.c2_jpegseg_survey.specs.Surveys.{range_of};
ghost use Rattle.c2_new_file_spec.specs.Bases.{IsLeft};
ghost use Rattle.c2_build_refusals.specs.InsertPoints.{IsInsertPointIn};
ghost use Rattle.c2_build_place.specs.PointsLeft.{HasInsertPoint, clearing_for};

use c2_base::{Found, NoMemory, Range};
use c2_bmff_boxes::roots_len;
use c2_bmff_boxes::types::Roots;
use c2_build_refusals::InsertPoint;
use c2_container::{Contained, Container};
use c2_without_store::{Clearing, clearing_of, roots_left};
use std::alloc::Global;

/// A place in a file without a store.
#[derive(Debug, Drop)]
pub struct SizedPoint {
    /// How many bytes the file has.
    pub size: u64,

    /// The place.
    pub point: InsertPoint,
}

// The range of a store that was found; an empty one where none was.
fn found_range(found: &Option<Found>) -> Range
    ensures { result ≡ range_of found.now }
{
    match found {
        Some(found) => Range {
            start: found.start,
            length: found.length,
        },
        None => Range {
            start: 0,
            length: 0,
        },
    }
}

/// How a media file that was opened so is cleared of its store: the range of its packets is cut out of a JPEG file, and a BMFF file is
/// cleared to its base. Nothing is cut out of a file without a store. Takes no memory.
pub fn cleared_of(file: &Contained) -> Clearing
    ensures is { result ≡ clearing_for file.now }
    ensures left { (bytes : List ℕ) (f : Found) → file.now.found ≡ Some f
        → IsSaid bytes (Ok file.now) → IsLeft bytes f.start f.length (cleared result bytes) }
    ensures fresh { file.now.found ≡ None → (bytes : List ℕ) → cleared result bytes ≡ bytes }
{
    match &file.container {
        Container::Jpeg => Clearing::Cut(found_range(&file.found)),
        Container::Bmff(roots) => clearing_of(roots, &file.found),
    }
}

// The place in what is left of a JPEG file.
fn in_segments(file: &Contained) -> SizedPoint
    requires container { file.now.container ≡ Jpeg }
    requires within { (len : ℕ) × IsWithin len file.now }
    ensures point { (bytes : List ℕ) → IsSaid bytes (Ok file.now)
        → HasInsertPoint (cleared (clearing_for file.now) bytes) result.point }
    ensures size { (len : ℕ) → IsWithin len file.now
        → result.size ≡ cleared_len (clearing_for file.now) len }
    ensures inside { IsInsertPointIn result.size result.point }
    ensures short { result.size < FILE_LEN_LIMIT }
{
    let Some(packets) = file.packets else {
        unreachable!()
    };
    SizedPoint {
        size: packets.size,
        point: InsertPoint::Segments {
            start: packets.start,
            number: packets.number,
        },
    }
}

// The place in what is left of a BMFF file with these root boxes, in which this was found.
fn in_boxes(alloc: Global, roots: &Roots, found: &Option<Found>) -> Result<SizedPoint, NoMemory>
    requires { (len : ℕ) × (len < FILE_LEN_LIMIT) × FillSource len 0 roots.now }
    ensures point { IfOk result (λ p. (bytes : List ℕ) → is_bmff bytes ≡ true
        → AreRootsOf bytes roots.now → IsStoreOr bytes (Ok found.now)
        → HasInsertPoint (cleared (root_clearing found.now roots.now) bytes) p.point) }
    ensures size { IfOk result (λ p. (len : ℕ) → FillSource len 0 roots.now
        → p.size ≡ cleared_len (root_clearing found.now roots.now) len) }
    ensures inside { IfOk result (λ p. IsInsertPointIn p.size p.point) }
    ensures short { IfOk result (λ p. p.size < FILE_LEN_LIMIT) }
{
    let left = roots_left(alloc, roots, found)?;
    let size = roots_len(&left);
    Ok(SizedPoint {
        size,
        point: InsertPoint::Boxes(left),
    })
}

/// Where a new store goes in what is left of a media file that was opened so, once it is cleared of its store. The file isn't read: what
/// was read when it was opened tells the place.
pub fn find_insert_point(alloc: Global, file: &Contained) -> Result<SizedPoint, NoMemory>
    requires { (len : ℕ) × IsWithin len file.now }
    // Where the bytes are known.
    ensures point { IfOk result (λ p. (bytes : List ℕ) → IsSaid bytes (Ok file.now)
        → HasInsertPoint (cleared (clearing_for file.now) bytes) p.point) }

    // These hold of every file.
    ensures size { IfOk result (λ p. (len : ℕ) → IsWithin len file.now
        → p.size ≡ cleared_len (clearing_for file.now) len) }
    ensures inside { IfOk result (λ p. IsInsertPointIn p.size p.point) }
    ensures short { IfOk result (λ p. p.size < FILE_LEN_LIMIT) }
{
    match &file.container {
        Container::Jpeg => Ok(in_segments(file)),
        Container::Bmff(roots) => in_boxes(alloc, roots, &file.found),
    }
}
