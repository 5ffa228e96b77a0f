// The commands `plan` and `embed`.
ghost use Rattle.std.specs.Prelude.{◌≡◌, ◌≢◌, ℕ, List, map, IfOk};
ghost use Rattle.std.specs.Option.{ForSome};
ghost use Rattle.c2_build_endings.specs.Sources.{ReadsPlanned, ReadsSigned, use_of};
ghost use Rattle.c2_build_plain.specs.Answers.{AsksEmbedded, AsksPlanned};
ghost use Rattle.c2_build_refusals.specs.Stages.{IsDefinitionTold, IsMediaRefused, IsMessageTold};
ghost use Rattle.c2_build_refusals.specs.Stages.{LeavesUndue};
ghost use Rattle.c2_rules.specs.Asking.{HearsPanel};
ghost use Rattle.c2_spec.specs.Judges.Panel.{panel_says};
ghost use Rattle.c2_cmd_outcome.specs.Left.{state_of};
ghost use Rattle.c2_cmd_outcome.specs.Reply.{IsInputCause, IsReadingCause, fault_heard, outcome_of};
ghost use Rattle.c2_cmd_building.specs.Outcomes.{IsPlanOutcome};
ghost use Rattle.c2_cmd_written_spec.specs.Written.{WritesOut};
ghost use Rattle.c2_cmd_building.specs.Writing.{BuildsFile};

use c2_base::{Sink, Source};
use c2_build_plain::{embed, plan};
use c2_cmd_build_replies::{embedded_reply, planned_reply};
use c2_cmd_outcome::types::Answer;
use c2_cmd_outcome::{Fault, Reply};
use c2_hash::Hashing;
use c2_judge::Judge;
use std::alloc::Global;

/// The reply to `plan`: the bytes that are to be signed.
///
/// [`Fault::Input`] comes only where one of the two files failed in this call, [`Fault::Judge`] only where a judge did that was due, and
/// [`Fault::Memory`] where memory ran out; [`Fault::Output`] doesn't come, since nothing is written.
// The condition always holds, here and below: a function that changes boxed judges is called under a contract only where it
// has one.
pub fn reply_to_plan<H: Hashing, A: Source, B: Source>(
    alloc: Global,
    hashing: &H,
    media: &mut A,
    definition: &mut B,
    judges: &mut Vec<Box<dyn Judge>>,
) -> Result<Reply, Fault>
    requires { Unit {0} }
    ensures reply { let said = panel_says (map says judges.old.items) in
        ForSome (A.known media.old) (λ a. (b : List ℕ)
        → IsDefinitionTold a (B.known definition.old) b
        → IfOk result (λ reply. IsPlanOutcome H.digest_of said a b (outcome_of reply))) }
    ensures words { IfOk result (λ reply. reply.answer ≢ Answer.Usage) }
    ensures sources { ReadsPlanned IsReadingCause
        (use_of A.len A.known A.faults media.old media.new)
        (use_of B.len B.known B.faults definition.old definition.new) result }
    ensures not_due { ForSome (A.known media.old)
        (λ a. IsMediaRefused a → definition.new ≡ definition.old) }
    ensures panel { HearsPanel says asked_times judge_faults fault_heard
        (AsksPlanned H.digest_of (A.known media.old) (B.known definition.old))
        judges.old judges.new result }
{
    let planned = plan(alloc, hashing, media, definition, judges);
    planned_reply(alloc, planned)
}

/// The reply to `embed`: the range of the new store in the new file, once this is whole and finished.
///
/// [`Fault::Input`] comes only where one of the three files failed in this call, [`Fault::Output`] only where the new file did,
/// [`Fault::Judge`] only where a judge did that was due, and [`Fault::Memory`] where memory ran out. A fault of a file that is read or
/// written leaves a prefix of the new file, which isn't finished; every other reply but that it is done leaves it as it was.
pub fn reply_to_embed<H: Hashing, A: Source, B: Source, C: Source, K: Sink>(
    alloc: Global,
    hashing: &H,
    media: &mut A,
    definition: &mut B,
    message: &mut C,
    judges: &mut Vec<Box<dyn Judge>>,
    out: &mut K,
) -> Result<Reply, Fault>
    requires { Unit {0} }
    // Where the bytes that are due are known: what is replied, what is written, and what that meets.
    ensures made { let said = panel_says (map says judges.old.items) in
        ForSome (A.known media.old) (λ a. (b : List ℕ)
        → IsDefinitionTold a (B.known definition.old) b → (c : List ℕ)
        → IsMessageTold a b (C.known message.old) c
        → BuildsFile H.digest_of said a b c (state_of K.written K.finished out.old)
        (state_of K.written K.finished out.new) result) }
    ensures not_due { LeavesUndue (A.known media.old) (B.known definition.old)
        definition.old definition.new message.old message.new }

    // Whatever the files hold.
    ensures words { IfOk result (λ reply. reply.answer ≢ Answer.Usage) }
    ensures sources { ReadsSigned IsInputCause
        (use_of A.len A.known A.faults media.old media.new)
        (use_of B.len B.known B.faults definition.old definition.new)
        (use_of C.len C.known C.faults message.old message.new) result }
    ensures out { WritesOut K.written K.finished K.faults out.old out.new result }
    ensures panel { HearsPanel says asked_times judge_faults fault_heard (AsksEmbedded
        H.digest_of (A.known media.old) (B.known definition.old) (C.known message.old))
        judges.old judges.new result }
{
    let embedded = embed(alloc, hashing, media, definition, message, judges, out);
    embedded_reply(alloc, embedded)
}
