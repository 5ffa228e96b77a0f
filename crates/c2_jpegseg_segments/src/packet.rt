// Box segments of APP11 (ISO/IEC 18477-3, annex B.2).
ghost use Rattle.std.specs.Prelude.{◌≡◌, ◌==◌, ◌+◌, ◌<◌, ◌≤◌, length, take, drop};
ghost use Rattle.std.specs.Int.{w16, w32, w64, from_be_bytes};
ghost use Rattle.c2_spec.specs.Jpeg.Packets as jpeg;
ghost use Rattle.c2_spec.specs.declared.kinds.TheConstants.{JUMB};
ghost use Rattle.c2_jpegseg_segments.specs.Packets.{view, bare, IsHeader, HasHeader, Reads};

use c2_spec::kinds::{JUMB, JUMD, STORE_TYPE};
use c2_spec::markers::{APP11, BOX_IDENTIFIER};

/// A box segment: its number, its place in the run, the header that each packet repeats, and its body.
#[derive(Clone, Copy)]
pub struct Packet<'a> {
    pub en: u16,
    pub z: u32,
    pub header: &'a [u8],
    pub body: &'a [u8],
}

fn u16_at(bytes: &[u8], at: usize) -> u16
    requires { at + 2 ≤ length bytes.now }
    ensures { result ≡ from_be_bytes w16 (take 2 (drop at bytes.now)) }
{
    u16::from_be_bytes([bytes[at], bytes[at + 1]])
}

fn u32_at(bytes: &[u8], at: usize) -> u32
    requires { at + 4 ≤ length bytes.now }
    ensures { result ≡ from_be_bytes w32 (take 4 (drop at bytes.now)) }
{
    u32::from_be_bytes([bytes[at], bytes[at + 1], bytes[at + 2], bytes[at + 3]])
}

fn u64_at(bytes: &[u8], at: usize) -> u64
    requires { at + 8 ≤ length bytes.now }
    ensures { result ≡ from_be_bytes w64 (take 8 (drop at bytes.now)) }
{
    u64::from_be_bytes([
        bytes[at],
        bytes[at + 1],
        bytes[at + 2],
        bytes[at + 3],
        bytes[at + 4],
        bytes[at + 5],
        bytes[at + 6],
        bytes[at + 7],
    ])
}

/// The packet that a segment is.
#[tactic(auto, using(crate::proofs::PacketLemmas::whole_header))]
pub fn packet_in(marker: u8, payload: &[u8]) -> Option<Packet<'_>>
    ensures reads { Reads (bare marker payload.now) result }
    ensures headed { HasHeader result }
{
    if marker != APP11 || payload.len() < 16 {
        return None;
    }
    if u16_at(payload, 0) != BOX_IDENTIFIER {
        return None;
    }
    let header_len: usize = if u32_at(payload, 8) == 1 { 16 } else { 8 };
    if payload.len() < 8 + header_len {
        return None;
    }
    Some(Packet {
        en: u16_at(payload, 2),
        z: u32_at(payload, 4),
        header: &payload[8..8 + header_len],
        body: &payload[8 + header_len..],
    })
}

/// Whether TBox of a box header is "jumb".
#[tactic(auto, using(crate::proofs::PacketLemmas::at_least_8))]
fn is_jumb(header: &[u8]) -> bool
    requires { IsHeader header.now }
    ensures { result ≡ (jpeg.header_tbox header.now == JUMB) }
{
    u32_at(header, 4) == JUMB
}

/// Whether the packet is the first one of a C2PA store.
#[tactic(auto, unfolding(c2_spec::specs::Jpeg::Packets::is_first_packet))]
pub fn is_first(packet: &Packet<'_>) -> bool
    requires { IsHeader packet.now.header.now }
    ensures { result ≡ jpeg.is_first_packet (view packet.now) }
{
    packet.z == 1
        && is_jumb(packet.header)
        && packet.body.len() >= 24
        && u32_at(packet.body, 4) == JUMD
        && packet.body[8..24] == STORE_TYPE[..]
}

/// Whether the packet is a further one of a JUMBF box under this number.
#[tactic(auto, unfolding(c2_spec::specs::Jpeg::Packets::is_further_packet))]
pub fn is_further(en: u16, packet: &Packet<'_>) -> bool
    requires { IsHeader packet.now.header.now }
    ensures { result ≡ jpeg.is_further_packet en (view packet.now) }
{
    is_jumb(packet.header) && packet.en == en && packet.z != 1
}

/// The length that a box header states.
#[tactic(auto, using(crate::proofs::PacketLemmas::at_least_8, crate::proofs::PacketLemmas::wide_header))]
pub fn stated_length(header: &[u8]) -> u64
    requires { IsHeader header.now }
    ensures { result ≡ jpeg.stated_length header.now }
{
    if u32_at(header, 0) == 1 {
        u64_at(header, 8)
    } else {
        u32_at(header, 0) as u64
    }
}
