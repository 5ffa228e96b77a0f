// What a walk reads of a JPEG file: how it begins, and the packet that a segment is.
ghost use Rattle.std.specs.Prelude.{◌≡◌, ◌+◌, ◌≤◌, true, OnOk, IfOk};
ghost use Rattle.std.specs.Option.{ForSome};
ghost use Rattle.c2_base.specs.Causes.{HasCause};
ghost use Rattle.c2_base.specs.Source.{StaysSource};
ghost use Rattle.c2_jpegseg_segments.specs.Findings.{IsBegun};
ghost use Rattle.c2_jpegseg_segments.specs.Packets.{HasHeader};
ghost use Rattle.c2_jpegseg_segments.specs.Segments.{longest_payload};
ghost use Rattle.c2_jpegseg_segments.specs.Windows.{Shows, CoversPacket, ShowsPacket};

use crate::marker::Extent;
use crate::packet::{self, Packet};
use crate::window::{Bytes, Window};
use c2_base::{Failed, Source};
use c2_spec::markers::{APP11, FILL, SOI};

/// Whether the file begins with SOI.
pub fn is_jpeg<S: Source, W: Bytes>(
    source: &mut S,
    window: &mut W,
    size: u64,
) -> Result<bool, Failed>
    requires size { size ≡ S.len source.old }
    requires shows { W.shows (S.len source.old) (S.known source.old) window.old }
    ensures stays { StaysSource S.len S.known S.faults source.old source.new }
    ensures cause { HasCause (S.faults source.old) (S.faults source.new) result }
    ensures shows { OnOk result (W.shows (S.len source.old) (S.known source.old) window.new) }
    ensures inside { IfOk result (λ b. b ≡ true → 2 ≤ size) }
    ensures begun { IfOk result (λ b. ForSome (S.known source.old) (λ file. IsBegun file b)) }
{
    if size < 2 {
        return Ok(false);
    }
    let first = window.byte_at(source, 0)?;
    let second = window.byte_at(source, 1)?;
    Ok(first == FILL && second == SOI)
}

/// Makes the window show the segment's payload, where it may be a packet.
pub fn load_packet<S: Source>(
    source: &mut S,
    window: &mut Window,
    extent: Extent,
) -> Result<(), Failed>
    requires inside { extent.end ≤ S.len source.old }
    requires ordered { extent.body ≤ extent.end }
    requires short { extent.end ≤ extent.body + longest_payload }
    requires shows { Shows (S.len source.old) (S.known source.old) window.old }
    ensures stays { StaysSource S.len S.known S.faults source.old source.new }
    ensures cause { HasCause (S.faults source.old) (S.faults source.new) result }
    ensures shows { OnOk result (Shows (S.len source.old) (S.known source.old) window.new) }
    ensures covers { OnOk result (CoversPacket window.new extent) }
{
    if extent.marker != APP11 {
        return Ok(());
    }
    window.load(source, extent.body, (extent.end - extent.body) as usize)
}

/// The packet that the segment is.
pub fn packet_at(window: &Window, extent: Extent) -> Option<Packet<'_>>
    requires ordered { extent.body ≤ extent.end }
    requires short { extent.end ≤ extent.body + longest_payload }
    requires covers { CoversPacket window.now extent }
    ensures headed { HasHeader result }
    ensures packet { ShowsPacket window.now extent result }
{
    if extent.marker != APP11 {
        return None;
    }
    let payload = window.slice(extent.body, (extent.end - extent.body) as usize);
    packet::packet_in(extent.marker, payload)
}
