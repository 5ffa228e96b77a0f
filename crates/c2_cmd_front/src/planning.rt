// The command `plan-front`.
ghost use Rattle.std.specs.Prelude.{◌≡◌, ◌≢◌, ℕ, List, IfOk};
ghost use Rattle.std.specs.Option.{ForSome};
ghost use Rattle.c2_build_endings.specs.Sources.{ReadsPlanned, use_of};
ghost use Rattle.c2_build_refusals.specs.Stages.{IsDefinitionTold, IsMediaRefused};
ghost use Rattle.c2_build_front.specs.Answers.{plan_effects};
ghost use Rattle.c2_cmd_outcome.specs.Reply.{IsSourcesCause, outcome_of};
ghost use Rattle.c2_cmd_written_spec.specs.Builds.{IsBuildReply, IsRefusedBy, tbs_outcome};
ghost use Rattle.c2_cmd_front.specs.Outcomes.{IsPlanFrontOutcome};

use c2_base::Source;
use c2_build_front::plan_front;
use c2_cmd_build_replies::planned_reply;
use c2_cmd_outcome::types::Answer;
use c2_cmd_outcome::{Fault, Reply};
use c2_hash::Hashing;
use std::alloc::Global;

/// The reply to `plan-front`: the bytes that are to be signed.
///
/// [`Fault::Input`] comes only where one of the two files failed in this call, and [`Fault::Memory`] where memory ran out. No other fault
/// comes, since no judge is asked and nothing is written.
pub fn reply_to_plan_front<H: Hashing, A: Source, B: Source>(
    alloc: Global,
    hashing: &H,
    media: &mut A,
    definition: &mut B,
) -> Result<Reply, Fault>
    // Where the bytes that are due are known: what is replied.
    ensures reply { ForSome (A.known media.old) (λ a. (b : List ℕ)
        → IsDefinitionTold a (B.known definition.old) b
        → IfOk result (λ reply. IsPlanFrontOutcome H.digest_of a b (outcome_of reply))) }
    ensures not_due { ForSome (A.known media.old)
        (λ a. IsMediaRefused a → definition.new ≡ definition.old) }

    // Whatever the files hold.
    ensures words { IfOk result (λ reply. reply.answer ≢ Answer.Usage) }
    ensures within { IfOk result (IsBuildReply (IsRefusedBy plan_effects) tbs_outcome) }
    ensures sources { ReadsPlanned IsSourcesCause
        (use_of A.len A.known A.faults media.old media.new)
        (use_of B.len B.known B.faults definition.old definition.new) result }
{
    let planned = plan_front(alloc, hashing, media, definition);
    planned_reply(alloc, planned)
}
