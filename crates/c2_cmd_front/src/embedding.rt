// The command `embed-front`.
ghost use Rattle.std.specs.Prelude.{◌≢◌, ℕ, List, IfOk};
ghost use Rattle.std.specs.Option.{ForSome};
ghost use Rattle.c2_build_endings.specs.Sources.{ReadsSigned, use_of};
ghost use Rattle.c2_build_refusals.specs.Stages.{IsDefinitionTold, IsMessageTold, LeavesUndue};
ghost use Rattle.c2_build_front.specs.Answers.{embed_effects};
ghost use Rattle.c2_cmd_outcome.specs.Left.{state_of};
ghost use Rattle.c2_cmd_outcome.specs.Reply.{IsWritingCause};
ghost use Rattle.c2_cmd_written_spec.specs.Builds.{IsBuildReply, IsRefusedBy, embedded_outcome};
ghost use Rattle.c2_cmd_written_spec.specs.Written.{WritesOut};
ghost use Rattle.c2_cmd_front.specs.Writing.{BuildsFront};

use c2_base::{Sink, Source};
use c2_build_front::embed_front;
use c2_cmd_build_replies::embedded_reply;
use c2_cmd_outcome::types::Answer;
use c2_cmd_outcome::{Fault, Reply};
use c2_hash::Hashing;
use std::alloc::Global;

/// The reply to `embed-front`: the range of the new store in the new file, once this is whole and finished.
///
/// [`Fault::Input`] comes only where one of the three files failed in this call, [`Fault::Output`] only where the new file did, and
/// [`Fault::Memory`] where memory ran out; no judge is asked. A fault of a file that is read or written leaves a prefix of the new file, which
/// isn't finished. Where memory runs out, the new file is as it was, or whole and finished; every reply but that it is done leaves it as it
/// was.
pub fn reply_to_embed_front<H: Hashing, A: Source, B: Source, C: Source, K: Sink>(
    alloc: Global,
    hashing: &H,
    media: &mut A,
    definition: &mut B,
    message: &mut C,
    out: &mut K,
) -> Result<Reply, Fault>
    // Where the bytes that are due are known: what is replied, what is written, and what that meets.
    ensures made { ForSome (A.known media.old) (λ a. (b : List ℕ)
        → IsDefinitionTold a (B.known definition.old) b → (c : List ℕ)
        → IsMessageTold a b (C.known message.old) c
        → BuildsFront H.digest_of a b c (state_of K.written K.finished out.old)
        (state_of K.written K.finished out.new) result) }
    ensures not_due { LeavesUndue (A.known media.old) (B.known definition.old)
        definition.old definition.new message.old message.new }

    // Whatever the files hold.
    ensures words { IfOk result (λ reply. reply.answer ≢ Answer.Usage) }
    ensures within { IfOk result (IsBuildReply (IsRefusedBy embed_effects) embedded_outcome) }
    ensures sources { ReadsSigned IsWritingCause
        (use_of A.len A.known A.faults media.old media.new)
        (use_of B.len B.known B.faults definition.old definition.new)
        (use_of C.len C.known C.faults message.old message.new) result }
    ensures out { WritesOut K.written K.finished K.faults out.old out.new result }
{
    let embedded = embed_front(alloc, hashing, media, definition, message, out);
    embedded_reply(alloc, embedded)
}
