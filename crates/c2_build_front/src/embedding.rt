// Writing a new file whose store stands in front.
ghost use Rattle.std.specs.Prelude.{ℕ, List};
ghost use Rattle.std.specs.Option.{ForSome};
ghost use Rattle.c2_build_endings.specs.Endings.{WritesOut};
ghost use Rattle.c2_build_endings.specs.Sources.{ReadsSigned, use_of};
ghost use Rattle.c2_build_in_place.specs.Writings.{FitsOut};
ghost use Rattle.c2_build_refusals.specs.Stages.{IsDefinitionTold, IsMessageTold, LeavesUndue};
ghost use Rattle.c2_build_front.specs.Answers.{EmbedsFront, IsEmbedCause};

use crate::ready::prepare;
use crate::writing::write_front;
use c2_base::{Sink, Source};
use c2_bmff_binding_front::FRAME_LEN;
use c2_build_refusals::{BuildError, Embedded};
use c2_build_writing::copy_fault;
use c2_hash::Hashing;
use std::alloc::Global;

/// Writes the new file: a BMFF file with a new store, of a definition and of a signed message, right after its file type box, where each
/// chunk offset from there on is greater by the length of the store's box.
///
/// The media is refused by `MediaRefused`, then the definition by `BadDefinition`, then the message by `BadSignature`. What comes behind these
/// is refused as `plan_front` refuses it, and at last `ReserveTooSmall` comes where the message doesn't fit into the bytes that are reserved
/// for it. Over known bytes the error is the first of these whose condition holds. `ReadFault` and `WriteFault` come only where a source or the
/// sink counted a fault in this call, and leave a prefix of the new file that isn't finished; every other error leaves the sink as it was, since all
/// memory is taken before anything is written. `WriteFault` never comes within a stated spare that holds the new file, nor, whatever is known of the
/// sources, within one that holds the media and 33,564,924 bytes. `NoMemory` comes where memory ran out; no other error comes.
///
/// The definition isn't read where the media is refused, and the message isn't where the media or the definition is. The media is opened
/// once, and read in pieces.
pub fn embed_front<A: Source, B: Source, C: Source, K: Sink, H: Hashing>(
    alloc: Global,
    hashing: &H,
    media: &mut A,
    definition: &mut B,
    signature: &mut C,
    out: &mut K,
) -> Result<Embedded, BuildError>
    // Where the bytes that are due are known: this is what they come to, what the sink took, and what the new file meets.
    ensures embedded { ForSome (A.known media.old) (λ file. (bytes : List ℕ)
        → IsDefinitionTold file (B.known definition.old) bytes → (message : List ℕ)
        → IsMessageTold file bytes (C.known signature.old) message
        → EmbedsFront K.written K.spare K.finished H.digest_of file bytes message
        out.old out.new result) }
    ensures not_due { LeavesUndue (A.known media.old) (B.known definition.old)
        definition.old definition.new signature.old signature.new }

    // These hold of every source.
    ensures sources { ReadsSigned IsEmbedCause
        (use_of A.len A.known A.faults media.old media.new)
        (use_of B.len B.known B.faults definition.old definition.new)
        (use_of C.len C.known C.faults signature.old signature.new) result }
    ensures sink { WritesOut K.written K.faults K.finished out.old out.new result }
    ensures spare { FitsOut (K.spare out.old) (A.len media.old) result }
{
    let mut ready = match prepare(alloc, hashing, media, definition, signature) {
        Ok(ready) => ready,
        Err(error) => return Err(error),
    };
    let embedded = Embedded {
        start: ready.front.place,
        length: FRAME_LEN + ready.front.store_len,
    };
    let store = ready.store.as_slice();
    match write_front(media, &ready.front, store, &mut ready.buffer, out) {
        Ok(()) => Ok(embedded),
        Err(error) => Err(copy_fault(error)),
    }
}
