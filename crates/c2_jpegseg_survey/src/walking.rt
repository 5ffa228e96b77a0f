// The walk over the segments of a JPEG file.
ghost use Rattle.std.specs.Prelude.{◌≡◌, ◌-◌, ◌<◌, ◌≤◌, [], OnOk, IfOk, IfErr, IfSome, None};
ghost use Rattle.std.specs.Option.{ForSome};
ghost use Rattle.c2_base.specs.Source.{StaysSource};
ghost use Rattle.c2_base.specs.declared.limits.TheConstants.{FILE_LEN_LIMIT};
ghost use Rattle.c2_spec.specs.Jpeg.Store.{EndsWithin, HasSmallStore};
ghost use Rattle.c2_jpegseg_segments.specs.Beginnings.{IsStart};
ghost use Rattle.c2_jpegseg_segments.specs.Causes.{IsJpegCaused};
ghost use Rattle.c2_jpegseg_segments.specs.Walks.{Walks};
ghost use Rattle.c2_jpegseg_segments.specs.Windows.{Shows};
ghost use Rattle.c2_jpegseg_survey.specs.Answers.{IsWalk, IsWalkedOr, IsWalkError};
ghost use Rattle.c2_jpegseg_survey.specs.Keeping.{IsKept, HasKept};
ghost use Rattle.c2_jpegseg_survey.specs.Surveys.{range_of};

use crate::keeping::Kept;
use c2_base::{Blob, Found, MediaError, Source};
use c2_jpegseg_segments::{Next, Window, load_packet, packet_at, segment_at, step};
use std::alloc::Global;

// The walk, whose result its clauses say by cases.
fn walked<S: Source>(
    alloc: Global,
    source: &mut S,
    window: &mut Window,
    kept: &mut Kept,
    size: u64,
) -> Result<Option<Found>, MediaError>
    requires size { size ≡ S.len source.old }
    requires inside { 2 ≤ size }
    requires bounded { size < FILE_LEN_LIMIT }
    requires shows { Shows (S.len source.old) (S.known source.old) window.old }
    requires begun { ForSome (S.known source.old) (λ file. Walks file 2 None) }
    requires none { IsKept kept.old [] }
    ensures stays { StaysSource S.len S.known S.faults source.old source.new }
    ensures count { OnOk result (S.faults source.new ≡ S.faults source.old) }
    ensures cause { IfErr result (IsJpegCaused (S.faults source.old) (S.faults source.new)) }
    ensures within { IfOk result (λ found. IfSome found (EndsWithin size)) }
    ensures store { IfOk result (λ found. IfSome found HasSmallStore) }
    ensures error { IfErr result (IsWalkError size) }
    ensures walked { ForSome (S.known source.old) (λ file. IsWalkedOr file result) }
    ensures kept { IfOk result (λ found. ForSome (S.known source.old) (λ file.
        HasKept file (range_of found) kept.new)) }
{
    let mut at: u64 = 2;
    let mut run = None;
    'segments: loop {
        let Next::Segment(extent) = segment_at(source, window, at, size)? else {
            break;
        };
        load_packet(source, window, extent)?;
        let packet = packet_at(window, extent);
        let taken = step(alloc, at, extent.end, size, packet, &mut run)?;
        kept.pass(taken, extent.marker, extent.end - at, packet);
        at = extent.end;
    }
    let Some(run) = run else {
        return Ok(None);
    };
    if (run.store.len() as u64) < run.total {
        return Err(MediaError::BadPacket(at));
    }
    Ok(Some(Found {
        start: run.start,
        length: run.end - run.start,
        store: Blob::from_vec(run.store),
    }))
}

/// The walk over the segments of a file of `size` bytes that begins with SOI. What is known of those outside the store is kept.
pub fn walk<S: Source>(
    alloc: Global,
    source: &mut S,
    window: &mut Window,
    kept: &mut Kept,
    size: u64,
) -> Result<Option<Found>, MediaError>
    requires start { IsStart (S.known source.old) (S.len source.old) size }
    requires shows { Shows (S.len source.old) (S.known source.old) window.old }
    requires none { IsKept kept.old [] }
    ensures stays { StaysSource S.len S.known S.faults source.old source.new }
    ensures walk { IsWalk
        (S.known source.old) size (S.faults source.old) (S.faults source.new) result }
    ensures kept { IfOk result (λ found. ForSome (S.known source.old) (λ file.
        HasKept file (range_of found) kept.new)) }
{
    walked(alloc, source, window, kept, size)
}
