// The box of a store as it is written into a BMFF file (C2PA Technical Specification 2.x, embedding in BMFF).
ghost use Rattle.std.specs.Prelude.{◌≡◌, ◌+◌, ◌≤◌, length, OnOk};
ghost use Rattle.c2_base.specs.Causes.{HasCause};
ghost use Rattle.c2_base.specs.Sink.{Appends, Spends, TakesPrefix, OkWithinSpare};
ghost use Rattle.c2_base.specs.declared.limits.TheConstants.{MAX_STORE_LEN};
ghost use Rattle.c2_spec.specs.Bmff.Boxes.{box_bytes, header_bytes, short, uuid_kind};
ghost use Rattle.c2_spec.specs.Bmff.Writing.{c2pa_box, c2pa_frame_len};
ghost use Rattle.c2_copying.specs.Appending.{IsWriting};

use crate::provenance::C2PA_USER_TYPE;
use c2_base::{Failed, Sink, write_all};

// How many bytes the box has before the store.
const FRAME_LEN: u32 = 45;

// Version and flags 0, the purpose, and no Merkle box.
const BEFORE_STORE: [u8; 21] = *b"\0\0\0\0manifest\0\0\0\0\0\0\0\0\0";

// The header of the box of a store of this length.
fn header_of(store_len: usize) -> [u8; 8]
    requires { store_len ≤ MAX_STORE_LEN }
    ensures { result ≡ header_bytes short (c2pa_frame_len + store_len) uuid_kind }
{
    let size = (store_len as u32 + FRAME_LEN).to_be_bytes();
    [size[0], size[1], size[2], size[3], b'u', b'u', b'i', b'd']
}

// Appends these bytes.
fn put<K: Sink>(sink: &mut K, bytes: &[u8]) -> Result<(), Failed>
    ensures { IsWriting K.written K.spare K.finished K.faults bytes.now sink.old sink.new result }
{
    write_all(sink, bytes)
}

// Appends the box.
fn put_box<K: Sink>(sink: &mut K, store: &[u8]) -> Result<(), Failed>
    requires { length store.now ≤ MAX_STORE_LEN }
    ensures { IsWriting K.written K.spare K.finished K.faults
        (box_bytes (c2pa_box store.now)) sink.old sink.new result }
{
    put(sink, &header_of(store.len()))?;
    put(sink, &C2PA_USER_TYPE)?;
    put(sink, &BEFORE_STORE)?;
    put(sink, store)?;
    Ok(())
}

/// Appends the C2PA box of a store, which has at most 33,554,432 bytes: a `uuid` box with a size of 4 bytes, the user type of C2PA,
/// version and flags 0, the purpose `manifest`, no Merkle box, and the store; so 45 bytes more than the store. Takes no memory.
///
/// `Failed` comes only where the sink failed, and never where its stated spare holds the box; a prefix of it was appended then.
pub fn write_box<K: Sink>(store: &[u8], sink: &mut K) -> Result<(), Failed>
    requires { length store.now ≤ MAX_STORE_LEN }
    ensures written { OnOk result
        (Appends (K.written sink.old) (K.written sink.new) (box_bytes (c2pa_box store.now))) }
    ensures spare { OnOk result (Spends (K.spare sink.old) (K.spare sink.new)
        (c2pa_frame_len + length store.now)) }
    ensures prefix { TakesPrefix K.written K.spare
        (box_bytes (c2pa_box store.now)) sink.old sink.new }
    ensures unfinished { K.finished sink.new ≡ K.finished sink.old }
    ensures cause { HasCause (K.faults sink.old) (K.faults sink.new) result }
    ensures within { OkWithinSpare (K.spare sink.old)
        (c2pa_frame_len + length store.now) result }
{
    put_box(sink, store)
}
