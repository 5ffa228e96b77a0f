// The command `plan-collect`.
ghost use Rattle.std.specs.Prelude.{map, IfOk};
ghost use Rattle.c2_build_endings.specs.Sources.{use_of};
ghost use Rattle.c2_build_collect.specs.Answers.{AsksPlanned, ForPlanInputs, LeavesPlanUndue};
ghost use Rattle.c2_build_collect.specs.Answers.{ReadsPlannedPair};
ghost use Rattle.c2_build_collect.specs.Grounds.{ground_effects};
ghost use Rattle.c2_rules.specs.Asking.{HearsPanel};
ghost use Rattle.c2_spec.specs.Judges.Panel.{panel_says};
ghost use Rattle.c2_cmd_outcome.specs.Reply.{IsReadingCause, fault_heard, outcome_of};
ghost use Rattle.c2_cmd_written_spec.specs.Builds.{IsBuildReply, IsRefusedBy, tbs_outcome};
ghost use Rattle.c2_cmd_collect.specs.Outcomes.{IsPlanCollectOutcome};

use c2_base::Source;
use c2_build_collect::plan_collect;
use c2_cmd_build_replies::planned_reply;
use c2_cmd_outcome::{Fault, Reply};
use c2_hash::Hashing;
use c2_judge::Judge;
use std::alloc::Global;

/// The reply to `plan-collect`: the bytes that are to be signed.
///
/// [`Fault::Input`] comes only where one of the three files failed in this call, [`Fault::Judge`] only where a judge did that was due, and
/// [`Fault::Memory`] where memory ran out; [`Fault::Output`] doesn't come, since nothing is written.
// The condition always holds: a function that changes boxed judges is called under a contract only where it has one.
pub fn reply_to_plan_collect<H: Hashing, A: Source, B: Source, D: Source>(
    alloc: Global,
    hashing: &H,
    media: &mut A,
    definition: &mut B,
    other: &mut D,
    judges: &mut Vec<Box<dyn Judge>>,
) -> Result<Reply, Fault>
    requires { Unit {0} }
    // Where the bytes that are due are known: what is replied.
    ensures reply { let said = panel_says (map says judges.old.items) in
        ForPlanInputs H.digest_of said
        (A.known media.old) (B.known definition.old) (D.known other.old) (λ a b c. IfOk result
        (λ reply. IsPlanCollectOutcome H.digest_of said a b c (outcome_of reply))) }
    ensures not_due { let said = panel_says (map says judges.old.items) in
        LeavesPlanUndue H.digest_of said (A.known media.old) (B.known definition.old)
        definition.old definition.new other.old other.new }

    // Whatever the files hold.
    ensures within { IfOk result (IsBuildReply (IsRefusedBy ground_effects) tbs_outcome) }
    ensures sources { ReadsPlannedPair IsReadingCause
        (use_of A.len A.known A.faults media.old media.new)
        (use_of B.len B.known B.faults definition.old definition.new)
        (use_of D.len D.known D.faults other.old other.new) result }
    ensures panel { HearsPanel says asked_times judge_faults fault_heard (AsksPlanned
        H.digest_of (A.known media.old) (B.known definition.old) (D.known other.old))
        judges.old judges.new result }
{
    let planned = plan_collect(alloc, hashing, media, definition, other, judges);
    planned_reply(alloc, planned)
}
