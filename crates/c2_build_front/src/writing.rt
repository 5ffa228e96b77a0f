// The new file, written to a sink.
ghost use Rattle.std.specs.Prelude.{◌≡◌, length};
ghost use Rattle.c2_base.specs.Sink.{WritesSink, unsaid};
ghost use Rattle.c2_base.specs.Source.{ReadsSource};
ghost use Rattle.c2_copying.specs.Writing.{IsCopyReadCause, IsCopyWriteCause};
ghost use Rattle.c2_bmff_binding_front.specs.Putting.{with_store};
ghost use Rattle.c2_build_writing.specs.Puts.{WritesOver};
ghost use Rattle.c2_build_front.specs.Steps.{CanWriteFront, front_file_len};

use c2_base::{Sink, Source};
use c2_bmff_binding_front::{FRAME_LEN, Front};
use c2_build_refusals::{Draft, Put};
use c2_build_writing::write_whole;
use c2_copying::CopyError;
use c2_shift::{NamedTables, Shifted};
use std::marker::Brand;

// Writes the new file over a media file of which this is known, puts the answer into `done`, and gives the file back.
fn write_named<'m, A: Source, N: NamedTables, K: Sink>(
    media: &'m mut A,
    front: &'m Front,
    store: &[u8],
    buf: &mut [u8],
    out: &mut K,
    done: &mut Result<(), CopyError>,
) -> &'m mut A
    requires name { media.ghost_name ≡ N.name }
    requires len { A.len media.old ≡ N.len }
    requires known { A.known media.old ≡ N.known }
    requires can { CanWriteFront (A.len media.old) front.now store.now (length buf.old) }
    ensures same { result.ghost_name ≡ media.entry.ghost_name }
    ensures written { WritesOver K.written K.spare K.finished (with_store front.now store.now)
        (front_file_len front.now store.now) (A.known media.old) out.old out.new done.new }
    ensures reads { ReadsSource A.len A.known A.faults IsCopyReadCause
        media.old result.now done.new }
    ensures writes { WritesSink K.written unsaid K.faults IsCopyWriteCause
        out.old out.new done.new }
{
    let moves = FRAME_LEN + front.store_len;
    let draft = Draft {
        start: front.place,
        length: moves,
        size: front.size,
        put: Put::Box,
    };
    let mut base = Shifted::<A, N>::new(media, &front.tables, front.place, moves);
    *done = write_whole(&mut base, store, draft, buf, out);
    base.into_media()
}

/// Writes the new file, and says that nothing follows: the media up to the end of its first root box, the box of the store, and the rest of
/// the media, with its chunk offsets moved. The media is read in pieces of the buffer's length, which isn't 0. Takes no memory.
pub(crate) fn write_front<A: Source, K: Sink>(
    media: &mut A,
    front: &Front,
    store: &[u8],
    buf: &mut [u8],
    out: &mut K,
) -> Result<(), CopyError>
    requires can { CanWriteFront (A.len media.old) front.now store.now (length buf.old) }
    ensures written { WritesOver K.written K.spare K.finished (with_store front.now store.now)
        (front_file_len front.now store.now) (A.known media.old) out.old out.new result }
    ensures reads { ReadsSource A.len A.known A.faults IsCopyReadCause media.old media.new result }
    ensures writes { WritesSink K.written unsaid K.faults IsCopyWriteCause out.old out.new result }
{
    let mut done = Ok(());
    let _media = write_named::<A, Brand, K>(media, front, store, buf, out, &mut done);
    done
}
