// The command `embed-collect`.
ghost use Rattle.std.specs.Prelude.{map};
ghost use Rattle.c2_build_endings.specs.Sources.{use_of};
ghost use Rattle.c2_build_collect.specs.Answers.{AsksEmbedded, ForEmbedInputs, LeavesBuildUndue};
ghost use Rattle.c2_build_collect.specs.Answers.{ReadsSignedPair, embed_effects};
ghost use Rattle.c2_rules.specs.Asking.{HearsPanel};
ghost use Rattle.c2_spec.specs.Judges.Panel.{panel_says};
ghost use Rattle.c2_cmd_outcome.specs.Left.{state_of};
ghost use Rattle.c2_cmd_outcome.specs.Reply.{IsInputCause, fault_heard};
ghost use Rattle.c2_cmd_collect.specs.Writing.{BuildsCollected, EndsBuild};

use c2_base::{Sink, Source};
use c2_build_collect::embed_collect;
use c2_cmd_build_replies::embedded_reply;
use c2_cmd_outcome::{Fault, Reply};
use c2_hash::Hashing;
use c2_judge::Judge;
use std::alloc::Global;

/// The reply to `embed-collect`: the range of the new store in the new file, once this is whole and finished.
///
/// [`Fault::Input`] comes only where one of the four files failed in this call, [`Fault::Output`] only where the new file did,
/// [`Fault::Judge`] only where a judge did that was due, and [`Fault::Memory`] where memory ran out. A fault of a file that is read or
/// written leaves a prefix of the new file, which isn't finished. Where memory runs out, the new file is as it was, or whole and finished;
/// every other reply but that it is done, and a judge that fails, leave it as it was.
// The condition always holds: a function that changes boxed judges is called under a contract only where it has one.
pub fn reply_to_embed_collect<H: Hashing, A: Source, B: Source, C: Source, D: Source, K: Sink>(
    alloc: Global,
    hashing: &H,
    media: &mut A,
    definition: &mut B,
    message: &mut C,
    other: &mut D,
    judges: &mut Vec<Box<dyn Judge>>,
    out: &mut K,
) -> Result<Reply, Fault>
    requires { Unit {0} }
    // Where the bytes that are due are known: what is replied, what is written, and what that meets.
    ensures made { let said = panel_says (map says judges.old.items) in
        ForEmbedInputs H.digest_of said (A.known media.old) (B.known definition.old)
        (C.known message.old) (D.known other.old) (λ a b c d. BuildsCollected H.digest_of said
        a b c d (state_of K.written K.finished out.old)
        (state_of K.written K.finished out.new) result) }
    ensures not_due { let said = panel_says (map says judges.old.items) in
        LeavesBuildUndue H.digest_of said (A.known media.old) (B.known definition.old)
        (C.known message.old) definition.old definition.new message.old message.new
        other.old other.new }

    // Whatever the files hold.
    ensures sources { ReadsSignedPair IsInputCause
        (use_of A.len A.known A.faults media.old media.new)
        (use_of B.len B.known B.faults definition.old definition.new)
        (use_of C.len C.known C.faults message.old message.new)
        (use_of D.len D.known D.faults other.old other.new) result }
    ensures ends { EndsBuild K.written K.finished K.faults embed_effects
        out.old out.new result }
    ensures panel { HearsPanel says asked_times judge_faults fault_heard (AsksEmbedded
        H.digest_of (A.known media.old) (B.known definition.old) (C.known message.old)
        (D.known other.old)) judges.old judges.new result }
{
    let embedded = embed_collect(
        alloc, hashing, media, definition, message, other, judges, out,
    );
    embedded_reply(alloc, embedded)
}
