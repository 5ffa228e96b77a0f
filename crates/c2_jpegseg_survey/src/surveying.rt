// What one walk over a JPEG file finds.
ghost use Rattle.std.specs.Prelude.{◌≡◌, ℕ, ◌-◌, ◌<◌, ◌≤◌, length, List, OnOk, IfOk, IfErr, IfSome};
ghost use Rattle.std.specs.Option.{ForSome};
ghost use Rattle.c2_base.specs.Source.{StaysSource};
ghost use Rattle.c2_base.specs.declared.limits.TheConstants.{FILE_LEN_LIMIT};
ghost use Rattle.c2_spec.specs.Located.{Located, as_located};
ghost use Rattle.c2_spec.specs.Jpeg.Places.{CanSkip};
ghost use Rattle.c2_spec.specs.Jpeg.Store.{IsLocated, IsJpegRefusal};
ghost use Rattle.c2_jpegseg_survey.specs.Answers.{IsFoundOr};
ghost use Rattle.c2_jpegseg_survey.specs.Keeping.{HasKept};
ghost use Rattle.c2_jpegseg_survey.specs.Surveys.{HasPacketPoint, IsSurveyCause, IsSurveyOf};
ghost use Rattle.c2_jpegseg_survey.specs.Surveys.{found_in, less_found, range_of};

use crate::keeping::Kept;
use crate::walking::walk;
use c2_base::limits::FILE_LEN_LIMIT;
use c2_base::{Found, MediaError, Source};
use c2_jpegseg_segments::{Window, is_jpeg, least_free};
use std::alloc::Global;

/// Where the packets of a new store go in a JPEG file, once the packets of the store that was found in it are taken out.
#[derive(Clone, Copy, Debug, PartialEq, Eq)]
pub struct PacketPoint {
    /// The place of their first byte: behind SOI and the APP0 segments that follow it.
    pub start: u64,

    /// The least box instance number from 0x0211 to 0xFFFF that no other packet has, where one is free.
    pub number: Option<u16>,

    /// How many bytes are left of the file.
    pub size: u64,
}

/// What one walk over a JPEG file finds.
#[derive(Drop)]
pub struct Surveyed {
    /// The store and the range of the file that its packets fill, where a segment begins one.
    pub found: Option<Found>,

    /// Where other packets go.
    pub point: PacketPoint,
}

// How many bytes the packets of a store have.
fn taken_len(found: &Option<Found>) -> u64
    ensures { result ≡ (range_of found.now).length }
{
    match found {
        Some(found) => found.length,
        None => 0,
    }
}

// Where packets go in a file of `size` bytes, where this is known of the segments outside the packets of its store.
fn point_of(size: u64, found: &Option<Found>, kept: &Kept) -> PacketPoint
    ensures point { (file : List ℕ) → length file ≡ size → size < FILE_LEN_LIMIT
        → HasKept file (range_of found.now) kept.now → CanSkip file (range_of found.now)
        → HasPacketPoint (less_found found.now file) result }
    ensures size { result.size ≡ size - (range_of found.now).length }
    ensures inside { result.start ≤ result.size }
{
    let taken = taken_len(found);
    let left = size.saturating_sub(taken);
    // The packets could be more bytes than the file only where the source told other bytes before.
    let start = kept.front.end.min(left);
    let number = least_free(&kept.marks);
    PacketPoint {
        start,
        number,
        size: left,
    }
}

// What was found in a file of `size` bytes, where this is known of the segments outside the packets of its store.
fn with_point(size: u64, found: Option<Found>, kept: &Kept) -> Surveyed
    ensures found { result.found ≡ found }
    ensures point { (file : List ℕ) → length file ≡ size → size < FILE_LEN_LIMIT
        → HasKept file (range_of found) kept.now → CanSkip file (range_of found)
        → HasPacketPoint (less_found found file) result.point }
    ensures size { result.point.size ≡ size - (range_of found).length }
    ensures inside { result.point.start ≤ result.point.size }
{
    let point = point_of(size, &found, kept);
    Surveyed { found, point }
}

// The search, whose result its clauses say by cases.
fn search<S: Source>(alloc: Global, source: &mut S) -> Result<Surveyed, MediaError>
    ensures found { ForSome (S.known source.old) (λ file. IsFoundOr file (found_in result)) }
    ensures point { IfOk result (λ s. ForSome (S.known source.old) (λ file.
        HasPacketPoint (less_found s.found file) s.point)) }
    ensures inside { IfOk result (IsSurveyOf (S.len source.old)) }
    ensures refusal { IfErr result (IsJpegRefusal (S.len source.old)) }
    ensures stays { StaysSource S.len S.known S.faults source.old source.new }
    ensures count { OnOk result (S.faults source.new ≡ S.faults source.old) }
    ensures cause { IfErr result
        (IsSurveyCause (S.len source.old) (S.faults source.old) (S.faults source.new)) }
{
    let size = source.size()?;
    if size >= FILE_LEN_LIMIT {
        return Err(MediaError::FileTooLarge(size));
    }
    let mut window = Window::new(alloc, size)?;
    if !is_jpeg(source, &mut window, size)? {
        return Err(MediaError::NotMedia);
    }
    let mut kept = Kept::new();
    // Matched and not handed up by `?`: each way out has clauses of its own.
    match walk(alloc, source, &mut window, &mut kept, size) {
        Ok(found) => Ok(with_point(size, found, &kept)),
        Err(error) => Err(error),
    }
}

/// The C2PA store of a JPEG file and the range of the file that its packets fill; and from the same walk, so that each header is read
/// once, the place for other packets in what is left of the file without that range, and the least number that is free there.
///
/// The file is read from its start up to the first scan (SOS) or the end of the image (EOI), 65,536 bytes at once, and only what the
/// markers, their lengths and the packets of APP11 ask for. The numbers that packets have are kept in 8,192 bytes, a bit for each.
///
/// The error is the first test that fails, in the order of the file:
/// - `FileTooLarge`: the file has 2^62 bytes or more; `NotMedia`: it doesn't begin with SOI.
/// - `Truncated`, `BadMarker`, `BadSegment`: a segment's marker or length (ITU-T T.81, B.1.1).
/// - `TwoStores`, `BadPacket`, `StoreTooLarge`: the packets of a store (ISO/IEC 18477-3).
/// - `ReadFault`: the source failed; `NoMemory`: out of memory.
///
/// That no number is free refuses nothing.
pub fn survey<S: Source>(alloc: Global, source: &mut S) -> Result<Surveyed, MediaError>
    // Where the source's bytes are known: what is returned holds, and what holds is returned.
    ensures found { ForSome (S.known source.old) (λ file.
        IfSome (as_located (found_in result)) (IsLocated file)) }
    ensures only { ForSome (S.known source.old) (λ file. (what : Located) → IsLocated file what
        → IfSome (as_located (found_in result)) (λ s. s ≡ what)) }
    ensures point { IfOk result (λ s. ForSome (S.known source.old) (λ file.
        HasPacketPoint (less_found s.found file) s.point)) }

    // These hold of every source, also of one whose bytes aren't known.
    ensures inside { IfOk result (IsSurveyOf (S.len source.old)) }
    ensures refusal { IfErr result (IsJpegRefusal (S.len source.old)) }
    ensures stays { StaysSource S.len S.known S.faults source.old source.new }
    ensures count { OnOk result (S.faults source.new ≡ S.faults source.old) }
    ensures cause { IfErr result
        (IsSurveyCause (S.len source.old) (S.faults source.old) (S.faults source.new)) }
{
    search(alloc, source)
}
