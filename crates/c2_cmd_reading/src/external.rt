// The command `validate-external`.
ghost use Rattle.std.specs.Prelude.{◌≡◌, ◌≢◌, ℕ, List, map, IfErr, IfOk};
ghost use Rattle.std.specs.Option.{ForSome};
ghost use Rattle.c2_base.specs.Causes.{Rose};
ghost use Rattle.c2_base.specs.Source.{IsKnownWhereDue, ReadsSource};
ghost use Rattle.c2_spec.specs.Judges.Panel.{panel_says};
ghost use Rattle.c2_rules.specs.Asking.{HearsPanel};
ghost use Rattle.c2_sidecar.specs.Checking.{AsksWhereDue, IsRefusedFile};
ghost use Rattle.c2_cmd_outcome.specs.Reply.{IsReadingCause, fault_heard, outcome_of};
ghost use Rattle.c2_cmd_reading.specs.Outcomes.{IsExternalOutcome, external_outcome};

use c2_base::Source;
use c2_cmd_outcome::types::Answer;
use c2_cmd_outcome::{Fault, Reply, reply_to_answer};
use c2_hash::Hashing;
use c2_judge::Judge;
use c2_sidecar::{External, validate_external};
use c2_texts::store_refused_line;
use std::alloc::Global;

/// The reply to `validate-external`, where `second` is the external store.
///
/// The store is left as it was where the media's container is refused. `Input` and `Judge` come only where one of the two files or a judge
/// failed in this call, and `Memory` where memory ran out; then the questions of a prefix were asked.
// The condition always holds: a function that changes boxed judges is called under a contract only where it has one.
pub fn reply_to_validate_external<H: Hashing, A: Source, B: Source>(
    alloc: Global,
    hashing: &H,
    media: &mut A,
    second: &mut B,
    judges: &mut Vec<Box<dyn Judge>>,
) -> Result<Reply, Fault>
    requires { Unit {0} }
    ensures reply { let said = panel_says (map says judges.old.items) in
        ForSome (A.known media.old) (λ a. (b : List ℕ)
        → IsKnownWhereDue (B.known second.old) (IsRefusedFile a) b
        → IfOk result (λ reply. IsExternalOutcome H.digest_of said a b (outcome_of reply))) }
    ensures words { IfOk result (λ reply. reply.answer ≢ Answer.Usage) }
    ensures media { ReadsSource A.len A.known A.faults
        (IsReadingCause (Rose (B.faults second.old) (B.faults second.new)))
        media.old media.new result }
    ensures second { ReadsSource B.len B.known B.faults
        (IsReadingCause (Rose (A.faults media.old) (A.faults media.new)))
        second.old second.new result }
    ensures not_due { ForSome (A.known media.old)
        (λ a. IsRefusedFile a → second.new ≡ second.old) }
    ensures panel { HearsPanel says asked_times judge_faults fault_heard
        (AsksWhereDue H.digest_of (A.known media.old) (B.known second.old))
        judges.old judges.new result }
{
    // Matched and not handed up by `?`: who was asked depends on which fault it is.
    match validate_external(alloc, hashing, media, second, judges) {
        Ok(answer) => external_reply(alloc, &answer),
        Err(error) => Err(Fault::from(error)),
    }
}

// The reply to the answer of the check with an external store.
fn external_reply(alloc: Global, answer: &External) -> Result<Reply, Fault>
    ensures reply { IfOk result (λ reply. outcome_of reply ≡ external_outcome answer.now) }
    ensures words { IfOk result (λ reply. reply.answer ≢ Answer.Usage) }
    ensures memory { IfErr result (λ e. e ≡ Fault.Memory) }
{
    match answer {
        External::Of(checked) => reply_to_answer(alloc, checked),
        External::StoreRefused(reason, number) => Ok(Reply {
            answer: Answer::Refused,
            text: store_refused_line(alloc, *reason, *number)?,
        }),
    }
}
