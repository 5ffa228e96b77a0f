// The place in a JPEG file where the packets of a store go.
ghost use Rattle.std.specs.Prelude.{◌≡◌, ◌-◌, ◌<◌, ◌≤◌, length, OnOk, IfOk, IfErr};
ghost use Rattle.std.specs.Option.{ForSome};
ghost use Rattle.c2_base.specs.Source.{StaysSource};
ghost use Rattle.c2_base.specs.declared.limits.TheConstants.{FILE_LEN_LIMIT};
ghost use Rattle.c2_spec.specs.Located.{HasReason};
ghost use Rattle.c2_spec.specs.PutIn.{taken_out};
ghost use Rattle.c2_spec.specs.Jpeg.Segments.{Segment};
ghost use Rattle.c2_spec.specs.Jpeg.Places.{CanSkip, IsInsertPlace};
ghost use Rattle.c2_jpegseg_segments.specs.Beginnings.{IsStart};
ghost use Rattle.c2_jpegseg_segments.specs.Causes.{IsJpegCaused};
ghost use Rattle.c2_jpegseg_segments.specs.Fronts.{HasFront};
ghost use Rattle.c2_jpegseg.specs.Peeks.{Peeks};
ghost use Rattle.c2_jpegseg.specs.Refusals.{IsSegmentsOr, IsSegmentsRefusal, TellsFault};

use crate::passing::is_inside;
use crate::peek::Peek;
use c2_base::limits::FILE_LEN_LIMIT;
use c2_base::{MediaError, Range, Source};
use c2_jpegseg_segments::{Front, Next, grown, is_jpeg, segment_at};

// The front of the segments outside the range, in a file of `size` bytes that begins with SOI.
fn front_of<S: Source>(
    source: &mut S,
    peek: &mut Peek,
    size: u64,
    skip: Range,
) -> Result<Front, MediaError>
    requires start { IsStart (S.known source.old) (S.len source.old) size }
    requires shows { Peeks (S.len source.old) (S.known source.old) peek.old }
    ensures stays { StaysSource S.len S.known S.faults source.old source.new }
    ensures count { OnOk result (S.faults source.new ≡ S.faults source.old) }
    ensures cause { IfErr result (IsJpegCaused (S.faults source.old) (S.faults source.new)) }
    ensures error { IfErr result (IsSegmentsRefusal size) }
    ensures front { IfOk result (λ front. ForSome (S.known source.old) (λ file.
        HasFront file skip front)) }
    ensures fault { IfErr result (λ e. ForSome (S.known source.old) (λ file.
        TellsFault file e)) }
{
    let mut front = Front { end: 2, only: true };
    let mut at: u64 = 2;
    'segments: loop {
        let Next::Segment(extent) = segment_at(source, peek, at, size)? else {
            break;
        };
        if !is_inside(skip, at, extent.end) {
            front = grown(front, extent.marker, extent.end - at);
        }
        at = extent.end;
    }
    Ok(front)
}

/// The place behind SOI and the APP0 segments that follow it, in a JPEG file less the range `skip`: there the packets of a
/// store go. It counts in bytes, in the file without the range, and lies inside that file. What is promised of the file's bytes
/// holds where the range is empty, or is that of the file's store. Takes no memory.
///
/// All segments are walked, from the start up to the first scan or the end of the image, whatever the range, and nothing is asked of
/// packets. The error is the first test that fails: `FileTooLarge`, `NotMedia`, and `Truncated`, `BadMarker` or `BadSegment` of a segment
/// (ITU-T T.81, B.1.1); or `ReadFault` where the source failed.
pub fn insert_place<S: Source>(source: &mut S, skip: Range) -> Result<u64, MediaError>
    // Where the source's bytes are known.
    ensures place { IfOk result (λ place. ForSome (S.known source.old) (λ file.
        CanSkip file skip → IsInsertPlace (taken_out skip.start skip.length file) place)) }
    ensures fault { ForSome (S.known source.old) (λ file. IsSegmentsOr file result) }

    // These hold of every source, also of one whose bytes aren't known.
    ensures within { IfOk result (λ place. place ≤ S.len source.old - skip.length) }
    ensures refusal { IfErr result (IsSegmentsRefusal (S.len source.old)) }
    ensures small { OnOk result (S.len source.old < FILE_LEN_LIMIT) }
    ensures stays { StaysSource S.len S.known S.faults source.old source.new }
    ensures count { OnOk result (S.faults source.new ≡ S.faults source.old) }
    ensures reason { IfErr result
        (HasReason (S.len source.old) (S.faults source.old) (S.faults source.new)) }
{
    let size = source.size()?;
    if size >= FILE_LEN_LIMIT {
        return Err(MediaError::FileTooLarge(size));
    }
    let mut peek = Peek::new(size);
    if !is_jpeg(source, &mut peek, size)? {
        return Err(MediaError::NotMedia);
    }
    let front = front_of(source, &mut peek, size, skip)?;
    // A range that isn't one of whole segments could leave fewer bytes.
    Ok(front.end.min(size.saturating_sub(skip.length)))
}
