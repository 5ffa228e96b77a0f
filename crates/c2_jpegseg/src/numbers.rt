// The box instance numbers that the packets of a file have.
ghost use Rattle.std.specs.Prelude.{◌≡◌, ◌+◌, ◌<◌, ◌≤◌, length, OnOk, IfOk, IfErr};
ghost use Rattle.std.specs.Option.{ForSome};
ghost use Rattle.c2_base.specs.Causes.{HasCause};
ghost use Rattle.c2_base.specs.Source.{StaysSource};
ghost use Rattle.c2_base.specs.declared.limits.TheConstants.{FILE_LEN_LIMIT};
ghost use Rattle.c2_spec.specs.Located.{HasReason};
ghost use Rattle.c2_spec.specs.PutIn.{taken_out};
ghost use Rattle.c2_spec.specs.Jpeg.Places.{CanSkip, HasNumber};
ghost use Rattle.c2_jpegseg.specs.Numbers.{Notes};
ghost use Rattle.c2_jpegseg.specs.Refusals.{IsSegmentsOr, IsSegmentsRefusalOr, TellsFault};
ghost use Rattle.c2_jpegseg_segments.specs.Beginnings.{IsStart};
ghost use Rattle.c2_jpegseg_segments.specs.Causes.{IsJpegCaused};
ghost use Rattle.c2_jpegseg_segments.specs.Passing.{HasMarks};
ghost use Rattle.c2_jpegseg_segments.specs.Segments.{longest_payload};
ghost use Rattle.c2_jpegseg_segments.specs.Windows.{Shows};
ghost use Rattle.c2_jpegseg_segments.specs.declared.numbers.TheConstants.{MARKS_LEN};

use crate::passing::is_inside;
use c2_base::limits::FILE_LEN_LIMIT;
use c2_base::{Failed, MediaError, Range, Source};
use c2_jpegseg_segments::{
    Extent, MARKS_LEN, Next, Window, is_jpeg, least_free, load_packet, no_marks, note, packet_at,
    segment_at,
};
use std::alloc::Global;

// Marks the number of a segment, where it is a packet that isn't passed over.
fn note_segment<S: Source>(
    source: &mut S,
    window: &mut Window,
    extent: Extent,
    passed: bool,
    marks: &mut [u8],
) -> Result<(), Failed>
    requires inside { extent.end ≤ S.len source.old }
    requires ordered { extent.body ≤ extent.end }
    requires short { extent.end ≤ extent.body + longest_payload }
    requires shows { Shows (S.len source.old) (S.known source.old) window.old }
    requires sized { length marks.old ≡ MARKS_LEN }
    ensures stays { StaysSource S.len S.known S.faults source.old source.new }
    ensures cause { HasCause (S.faults source.old) (S.faults source.new) result }
    ensures shows { OnOk result (Shows (S.len source.old) (S.known source.old) window.new) }
    ensures sized { length marks.new ≡ MARKS_LEN }
    ensures notes { OnOk result (ForSome (S.known source.old) (λ file.
        Notes file extent passed marks.old marks.new)) }
{
    if passed {
        return Ok(());
    }
    load_packet(source, window, extent)?;
    note(marks, packet_at(window, extent));
    Ok(())
}

// A mark for each number: whether a packet outside the range has it, in a file of `size` bytes that begins with SOI.
fn marked<S: Source>(
    source: &mut S,
    window: &mut Window,
    size: u64,
    skip: Range,
) -> Result<[u8; MARKS_LEN], MediaError>
    requires start { IsStart (S.known source.old) (S.len source.old) size }
    requires shows { Shows (S.len source.old) (S.known source.old) window.old }
    ensures stays { StaysSource S.len S.known S.faults source.old source.new }
    ensures count { OnOk result (S.faults source.new ≡ S.faults source.old) }
    ensures cause { IfErr result (IsJpegCaused (S.faults source.old) (S.faults source.new)) }
    ensures sized { IfOk result (λ marks. length marks ≡ MARKS_LEN) }
    ensures error { IfErr result (IsSegmentsRefusalOr size) }
    ensures marks { IfOk result (λ marks. ForSome (S.known source.old) (λ file.
        HasMarks file skip marks)) }
    ensures fault { IfErr result (λ e. ForSome (S.known source.old) (λ file.
        TellsFault file e)) }
{
    let mut marks = no_marks();
    let mut at: u64 = 2;
    'segments: loop {
        let Next::Segment(extent) = segment_at(source, window, at, size)? else {
            break;
        };
        let passed = is_inside(skip, at, extent.end);
        note_segment(source, window, extent, passed, &mut marks)?;
        at = extent.end;
    }
    Ok(marks)
}

/// The least box instance number from 0x0211 to 0xFFFF that no packet of a JPEG file has outside the range `skip`, whatever
/// box it is of; none where each of them is taken. What is promised of the file's bytes holds where the range is empty, or is
/// that of the file's store.
///
/// All segments are walked, from the start up to the first scan or the end of the image, whatever the range, and nothing is asked of
/// packets. The error is the first test that fails: `FileTooLarge`, `NotMedia`, and `Truncated`, `BadMarker` or `BadSegment` of a segment;
/// or `ReadFault` where the source failed, or `NoMemory`.
pub fn free_number<S: Source>(
    alloc: Global,
    source: &mut S,
    skip: Range,
) -> Result<Option<u16>, MediaError>
    // Where the source's bytes are known.
    ensures number { IfOk result (λ number. ForSome (S.known source.old) (λ file.
        CanSkip file skip → HasNumber (taken_out skip.start skip.length file) number)) }
    ensures fault { ForSome (S.known source.old) (λ file. IsSegmentsOr file result) }

    // These hold of every source, also of one whose bytes aren't known.
    ensures refusal { IfErr result (IsSegmentsRefusalOr (S.len source.old)) }
    ensures small { OnOk result (S.len source.old < FILE_LEN_LIMIT) }
    ensures stays { StaysSource S.len S.known S.faults source.old source.new }
    ensures count { OnOk result (S.faults source.new ≡ S.faults source.old) }
    ensures reason { IfErr result
        (HasReason (S.len source.old) (S.faults source.old) (S.faults source.new)) }
{
    let size = source.size()?;
    if size >= FILE_LEN_LIMIT {
        return Err(MediaError::FileTooLarge(size));
    }
    let mut window = Window::new(alloc, size)?;
    if !is_jpeg(source, &mut window, size)? {
        return Err(MediaError::NotMedia);
    }
    let marks = marked(source, &mut window, size, skip)?;
    Ok(least_free(&marks))
}
