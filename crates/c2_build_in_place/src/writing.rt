// The new file, written over what is left of a media file.
ghost use Rattle.std.specs.Prelude.{◌≡◌};
ghost use Rattle.c2_base.specs.Sink.{WritesSink, unsaid};
ghost use Rattle.c2_base.specs.Source.{ReadsSource};
ghost use Rattle.c2_copying.specs.Writing.{IsCopyReadCause, IsCopyWriteCause};
ghost use Rattle.c2_build_writing.specs.Puts.{WritesOver, put_file_len};
ghost use Rattle.c2_build_in_place.specs.Writings.{CanWrite, ready_file};

use c2_base::{Blob, Sink, Source};
use c2_build_refusals::Draft;
use c2_build_writing::write_whole;
use c2_copying::CopyError;
use c2_without_store::{Clearing, Named, WithoutStore};
use std::marker::Brand;

/// All that is needed to write a new file; no memory is taken from here on.
#[derive(Drop)]
pub struct Ready {
    /// The new store.
    pub store: Blob,

    /// Where the new store goes, and how.
    pub draft: Draft,

    /// How the media is cleared of its older store.
    pub clearing: Clearing,

    /// What the media is copied through.
    pub buffer: Vec<u8>,
}

// Writes the new file over what is left of a media file of which this is known, and says that nothing follows. Puts the answer into `done`,
// and gives the file back.
fn write_left<'m, A: Source, L: Named, K: Sink>(
    media: &'m mut A,
    ready: Ready,
    out: &mut K,
    done: &mut Result<(), CopyError>,
) -> &'m mut A
    requires name { media.ghost_name ≡ L.name }
    requires len { A.len media.old ≡ L.len }
    requires known { A.known media.old ≡ L.known }
    requires can { CanWrite (A.len media.old) ready }
    ensures same { result.ghost_name ≡ media.entry.ghost_name }
    ensures written { WritesOver K.written K.spare K.finished (ready_file ready)
        (put_file_len ready.draft ready.store) (A.known media.old) out.old out.new done.new }
    ensures reads { ReadsSource A.len A.known A.faults IsCopyReadCause
        media.old result.now done.new }
    ensures writes { WritesSink K.written unsaid K.faults IsCopyWriteCause
        out.old out.new done.new }
{
    let Ready {
        store,
        draft,
        clearing,
        mut buffer,
    } = ready;
    let mut base = WithoutStore::<A, L>::new(media, clearing);
    *done = write_whole(&mut base, store.as_slice(), draft, &mut buffer, out);
    base.into_media()
}

/// Writes the new file over what is left of a media file, and says that nothing follows. `ReadFault` comes only where the media's count of
/// faults rose in this call, and `WriteFault` where the sink's did, and never within a stated spare that holds the file; both leave a prefix of
/// the file, and a sink that isn't finished by them.
pub fn write_file<A: Source, K: Sink>(
    media: &mut A,
    ready: Ready,
    out: &mut K,
) -> Result<(), CopyError>
    requires { CanWrite (A.len media.old) ready }
    ensures written { WritesOver K.written K.spare K.finished (ready_file ready)
        (put_file_len ready.draft ready.store) (A.known media.old) out.old out.new result }
    ensures reads { ReadsSource A.len A.known A.faults IsCopyReadCause media.old media.new result }
    ensures writes { WritesSink K.written unsaid K.faults IsCopyWriteCause out.old out.new result }
{
    let mut done = Ok(());
    let _media = write_left::<A, Brand, K>(media, ready, out, &mut done);
    done
}
