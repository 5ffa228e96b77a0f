// One segment of the walk.
ghost use Rattle.std.specs.Prelude.{◌≡◌, ◌<◌, ◌≤◌, length, None, Some, OnOk, IfOk, IfErr, IfSome};
ghost use Rattle.c2_jpegseg_segments.specs.Packets.{HasHeader};
ghost use Rattle.c2_jpegseg_segments.specs.Runs.{collected, all_collected, EndsBy, IsSegmentError};
ghost use Rattle.c2_jpegseg_segments.specs.Runs.{RunGoes};
ghost use Rattle.c2_jpegseg_segments.specs.Walks.{StepsTo, StepFails};

use crate::packet::{self, Packet};
use crate::run::Run;
use c2_base::MediaError;
use std::alloc::Global;

/// A segment where no store began yet, from `at` to `end` in a file of `size` bytes.
fn begin(
    alloc: Global,
    at: u64,
    end: u64,
    size: u64,
    packet: Option<Packet<'_>>,
) -> Result<Option<Run>, MediaError>
    requires ordered { at ≤ end }
    requires headed { HasHeader packet }
    ensures ok { IfOk result (λ new. StepsTo at end packet.entry None (all_collected new)) }
    ensures err { IfErr result (StepFails at end packet.entry None) }
    ensures from { IfOk result (λ new. IfSome new (λ r. (r.start ≡ at) × (r.end ≡ end))) }
    ensures ends { IfOk result (EndsBy end) }
    ensures error { IfErr result (IsSegmentError at) }
{
    let Some(first) = packet else {
        return Ok(None);
    };
    if !packet::is_first(&first) {
        return Ok(None);
    }
    Ok(Some(Run::start(alloc, at, end, size, first)?))
}

/// A segment where a store waits for its next packet.
fn proceed(at: u64, end: u64, packet: Option<Packet<'_>>, run: &mut Run) -> Result<(), MediaError>
    requires ordered { at ≤ end }
    requires before { run.old.end ≤ at }
    requires headed { HasHeader packet }
    requires short { length run.old.store.items < run.old.total }
    ensures ok { OnOk result
        (StepsTo at end packet.entry (Some (collected run.old)) (Some (collected run.new))) }
    ensures err { IfErr result (StepFails at end packet.entry (Some (collected run.old))) }
    ensures from { OnOk result (run.new.start ≡ run.old.start) }
    ensures ends { OnOk result (run.new.end ≡ end) }
    ensures error { IfErr result (IsSegmentError at) }
{
    let Some(next) = packet else {
        return Err(MediaError::BadPacket(at));
    };
    if !run.goes_on(&next) {
        return Err(MediaError::BadPacket(at));
    }
    run.append(end, &next)?;
    Ok(())
}

/// A segment after a whole store.
fn pass(at: u64, end: u64, packet: Option<Packet<'_>>, run: &Run) -> Result<(), MediaError>
    requires headed { HasHeader packet }
    requires whole { run.now.total ≤ length run.now.store.items }
    ensures ok { OnOk result
        (StepsTo at end packet.entry (Some (collected run.now)) (Some (collected run.now))) }
    ensures err { IfErr result (StepFails at end packet.entry (Some (collected run.now))) }
    ensures error { IfErr result (IsSegmentError at) }
{
    let Some(other) = packet else {
        return Ok(());
    };
    if packet::is_first(&other) {
        return Err(MediaError::TwoStores(at));
    }
    if packet::is_further(run.en, &other) {
        return Err(MediaError::BadPacket(at));
    }
    Ok(())
}

/// Takes the segment from `at` to `end` in a file of `size` bytes into the run, where it is of a store, and tells whether it is. The error
/// is the segment's fault, or out of memory.
pub fn step(
    alloc: Global,
    at: u64,
    end: u64,
    size: u64,
    packet: Option<Packet<'_>>,
    run: &mut Option<Run>,
) -> Result<bool, MediaError>
    requires ordered { at ≤ end }
    requires before { EndsBy at run.old }
    requires headed { HasHeader packet }
    ensures ok { OnOk result
        (StepsTo at end packet.entry (all_collected run.old) (all_collected run.new)) }
    ensures err { IfErr result (StepFails at end packet.entry (all_collected run.old)) }
    ensures goes { IfOk result (λ taken.
        RunGoes taken at end (all_collected run.old) (all_collected run.new)) }
    ensures ends { OnOk result (EndsBy end run.new) }
    ensures error { IfErr result (IsSegmentError at) }
{
    let Some(open) = run else {
        if let Some(started) = begin(alloc, at, end, size, packet)? {
            *run = Some(started);
            return Ok(true);
        }
        return Ok(false);
    };
    if (open.store.len() as u64) < open.total {
        proceed(at, end, packet, open)?;
        return Ok(true);
    }
    pass(at, end, packet, open)?;
    Ok(false)
}
