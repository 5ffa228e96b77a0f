// A store written in packets (ISO/IEC 18477-3, annex B.2).
ghost use Rattle.std.specs.Prelude.{◌≡◌, ◌+◌, ◌-◌, ◌<◌, ◌≤◌, length, OnOk};
ghost use Rattle.c2_base.specs.Causes.{HasCause};
ghost use Rattle.c2_base.specs.Sink.{Appends, Spends, TakesPrefix, OkWithinSpare};
ghost use Rattle.c2_spec.specs.declared.packets.TheConstants.{PACKET_BODY_LEN};
ghost use Rattle.c2_spec.specs.Jpeg.Segments.{segment_bytes};
ghost use Rattle.c2_spec.specs.Jpeg.Writing as jpeg;
ghost use Rattle.c2_jpegseg.specs.Writing.{IsWriting, packet_head};

use c2_base::{Failed, Sink, write_all};
use c2_spec::markers::{APP11, BOX_IDENTIFIER, FILL};
use c2_spec::packets::{PACKET_BODY_LEN, PACKET_FRAME_LEN, PACKET_HEADER_LEN};

// How many packets a store of this length takes.
fn packet_count(store_len: u64) -> u64
    requires { jpeg.IsStoreLen store_len }
    ensures { result ≡ jpeg.packet_count store_len }
{
    (store_len - PACKET_HEADER_LEN)
        .div_ceil(PACKET_BODY_LEN)
        .max(1)
}

/// How many bytes the packets of a store of this length have, which must be from 38 to 33,554,432 bytes: 20 for each packet, of
/// which there is one for each 63,984 bytes behind the store's header or part of them, and the store less its header of 8 bytes
/// (ISO/IEC 18477-3, annex B.2). Takes no memory.
pub fn segments_len(store_len: u64) -> u64
    requires { jpeg.IsStoreLen store_len }
    ensures { result ≡ jpeg.segments_len store_len }
{
    PACKET_FRAME_LEN * packet_count(store_len) + store_len - PACKET_HEADER_LEN
}

// What a packet has before its box header: marker, length, identifier, box instance number and packet sequence number.
fn head_of(en: u16, z: u32, body_len: usize) -> [u8; 12]
    requires { body_len ≤ PACKET_BODY_LEN }
    ensures { result ≡ packet_head en z body_len }
{
    let length = (body_len as u16 + 18).to_be_bytes();
    let identifier = BOX_IDENTIFIER.to_be_bytes();
    let en = en.to_be_bytes();
    let z = z.to_be_bytes();
    [
        FILL,
        APP11,
        length[0],
        length[1],
        identifier[0],
        identifier[1],
        en[0],
        en[1],
        z[0],
        z[1],
        z[2],
        z[3],
    ]
}

// Appends these bytes.
fn put<K: Sink>(sink: &mut K, bytes: &[u8]) -> Result<(), Failed>
    ensures { IsWriting K.written K.spare K.finished K.faults bytes.now sink.old sink.new result }
{
    write_all(sink, bytes)
}

// Appends one packet.
fn put_packet<K: Sink>(
    sink: &mut K,
    header: &[u8],
    en: u16,
    z: u32,
    body: &[u8],
) -> Result<(), Failed>
    requires room { length body.now ≤ PACKET_BODY_LEN }
    requires header { length header.now ≡ 8 }
    ensures { IsWriting K.written K.spare K.finished K.faults
        (segment_bytes (jpeg.packet_segment header.now en z body.now)) sink.old sink.new result }
{
    put(sink, &head_of(en, z, body.len()))?;
    put(sink, header)?;
    put(sink, body)?;
    Ok(())
}

// Appends the packets.
fn put_packets<K: Sink>(sink: &mut K, store: &[u8], en: u16) -> Result<(), Failed>
    requires { jpeg.IsStoreLen (length store.now) }
    ensures { IsWriting K.written K.spare K.finished K.faults
        (jpeg.packets_bytes store.now en) sink.old sink.new result }
{
    let header = &store[..PACKET_HEADER_LEN as usize];
    let mut body = &store[PACKET_HEADER_LEN as usize..];
    let count = packet_count(store.len() as u64) as u32;
    let mut z = 1;
    'packets: while z <= count {
        let len = body.len().min(PACKET_BODY_LEN as usize);
        put_packet(sink, header, en, z, &body[..len])?;
        body = &body[len..];
        z += 1;
    }
    Ok(())
}

/// Appends the packets of a store under this number. Takes no memory.
///
/// The store must have from 38 to 33,554,432 bytes. It begins with a 4-byte length that is its own, `jumb`, and a description with
/// the type of a C2PA store. The packets have as many bytes as `segments_len` says. `Failed` comes only where the sink failed,
/// and never where its stated spare holds all packets; a prefix of them was appended then.
pub fn write_segments<K: Sink>(store: &[u8], en: u16, sink: &mut K) -> Result<(), Failed>
    requires { jpeg.IsPacketStore store.now }
    ensures written { OnOk result
        (Appends (K.written sink.old) (K.written sink.new) (jpeg.packets_bytes store.now en)) }
    ensures spare { OnOk result (Spends (K.spare sink.old) (K.spare sink.new)
        (length (jpeg.packets_bytes store.now en))) }
    ensures prefix { TakesPrefix K.written K.spare
        (jpeg.packets_bytes store.now en) sink.old sink.new }
    ensures unfinished { K.finished sink.new ≡ K.finished sink.old }
    ensures cause { HasCause (K.faults sink.old) (K.faults sink.new) result }
    ensures within { OkWithinSpare (K.spare sink.old)
        (jpeg.segments_len (length store.now)) result }
{
    put_packets(sink, store, en)
}
