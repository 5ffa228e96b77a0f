// Writing a new file.
ghost use Rattle.std.specs.Prelude.{map, ℕ, List};
ghost use Rattle.std.specs.Option.{ForSome};
ghost use Rattle.c2_build_endings.specs.Endings.{WritesOut};
ghost use Rattle.c2_build_endings.specs.Sources.{ReadsSigned, use_of};
ghost use Rattle.c2_build_in_place.specs.Writings.{FitsOut};
ghost use Rattle.c2_spec.specs.Judges.Panel.{panel_says};
ghost use Rattle.c2_rules.specs.Asking.{HearsPanel};
ghost use Rattle.c2_build_refusals.specs.Kinds.{build_heard};
ghost use Rattle.c2_build_refusals.specs.Stages.{IsDefinitionTold, IsMessageTold, LeavesUndue};
ghost use Rattle.c2_build_plain.specs.Answers.{AsksEmbedded, EmbedsFile, IsEmbedCause};

use crate::ready::prepare;
use c2_base::{Sink, Source};
use c2_build_in_place::write_file;
use c2_build_refusals::{BuildError, Embedded};
use c2_build_writing::copy_fault;
use c2_hash::Hashing;
use c2_judge::Judge;
use std::alloc::Global;

/// Writes the new file: the media with a new store, of a definition and of a signed message, in its place. That is behind the APP0
/// segments of a JPEG file; in a BMFF file at the end, or before a last `mfra`.
///
/// The media is refused by `MediaRefused`, then the definition by `BadDefinition`, then the message by `BadSignature`. What comes behind
/// these is refused as `plan` refuses it, and at last `ReserveTooSmall` comes where the message doesn't fit into the bytes that are
/// reserved for it. Over known bytes the error is the first of these whose condition holds. `ReadFault` and `WriteFault` come only where
/// a source or the sink failed in this call, and leave a prefix of the new file that isn't finished; every other error leaves the sink as
/// it was, since all memory is taken before anything is written. `WriteFault` never comes within a stated spare that holds the new file, nor,
/// whatever is known of the sources, within one that holds the media and 33,564,924 bytes, the packets of the longest store. `JudgeFault` comes only where a judge failed in this call, and `NoMemory`
/// where memory ran out.
///
/// The judges are asked what the check of the media's store asks, where it has one and neither the definition nor the message is
/// refused, and nothing otherwise. The definition isn't read where the media is refused, and the message isn't where the media or the
/// definition is. The media is opened once, and read in pieces.
// The condition always holds: a function that is lent boxed judges is called under a contract only where it has one.
pub fn embed<A: Source, B: Source, C: Source, K: Sink, H: Hashing>(
    alloc: Global,
    hashing: &H,
    media: &mut A,
    definition: &mut B,
    signature: &mut C,
    judges: &mut Vec<Box<dyn Judge>>,
    out: &mut K,
) -> Result<Embedded, BuildError>
    requires { Unit {0} }
    // Where the bytes that are due are known: this is what they come to, what the sink took, and what the new file meets.
    ensures embedded { let said = panel_says (map says judges.old.items) in
        ForSome (A.known media.old) (λ file. (bytes : List ℕ)
        → IsDefinitionTold file (B.known definition.old) bytes → (message : List ℕ)
        → IsMessageTold file bytes (C.known signature.old) message
        → EmbedsFile K.written K.spare K.finished H.digest_of said file bytes message
        out.old out.new result) }
    ensures not_due { LeavesUndue (A.known media.old) (B.known definition.old)
        definition.old definition.new signature.old signature.new }

    // These hold of every source; just the questions of the build are asked where the bytes are known that tell them.
    ensures sources { ReadsSigned IsEmbedCause
        (use_of A.len A.known A.faults media.old media.new)
        (use_of B.len B.known B.faults definition.old definition.new)
        (use_of C.len C.known C.faults signature.old signature.new) result }
    ensures sink { WritesOut K.written K.faults K.finished out.old out.new result }
    ensures spare { FitsOut (K.spare out.old) (A.len media.old) result }
    ensures panel { HearsPanel says asked_times judge_faults build_heard (AsksEmbedded
        H.digest_of (A.known media.old) (B.known definition.old) (C.known signature.old))
        judges.old judges.new result }
{
    let ready = match prepare(alloc, hashing, media, definition, signature, judges) {
        Ok(ready) => ready,
        Err(error) => return Err(error),
    };
    let embedded = Embedded {
        start: ready.draft.start,
        length: ready.draft.length,
    };
    match write_file(media, ready, out) {
        Ok(()) => Ok(embedded),
        Err(error) => Err(copy_fault(error)),
    }
}
