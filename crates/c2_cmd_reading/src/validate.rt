// The command `validate`.
ghost use Rattle.std.specs.Prelude.{◌≢◌, map, IfOk};
ghost use Rattle.c2_base.specs.Source.{ReadsSource};
ghost use Rattle.c2_spec.specs.Judges.Panel.{panel_says};
ghost use Rattle.c2_rules.specs.Asking.{HearsPanel};
ghost use Rattle.c2_validate.specs.Validation.{FileAsks};
ghost use Rattle.c2_calls_spec.specs.Asks.{AsksKnown};
ghost use Rattle.c2_cmd_outcome.specs.Reply.{IsPanelCause, Replies, fault_heard};
ghost use Rattle.c2_cmd_reading.specs.Outcomes.{IsValidated};

use c2_base::Source;
use c2_cmd_outcome::types::Answer;
use c2_cmd_outcome::{Fault, Reply, reply_to_answer};
use c2_hash::Hashing;
use c2_judge::Judge;
use c2_validate::validate;
use std::alloc::Global;

/// The reply to `validate`. `Input` and `Judge` come only where the media or a judge failed in this call, and `Memory` where memory ran
/// out; then the questions of a prefix were asked.
// The condition always holds: a function that changes boxed judges is called under a contract only where it has one.
pub fn reply_to_validate<H: Hashing, S: Source>(
    alloc: Global,
    hashing: &H,
    media: &mut S,
    judges: &mut Vec<Box<dyn Judge>>,
) -> Result<Reply, Fault>
    requires { Unit {0} }
    ensures reply { let said = panel_says (map says judges.old.items) in
        IfOk result (Replies (IsValidated H.digest_of said) (S.known media.old)) }
    ensures words { IfOk result (λ reply. reply.answer ≢ Answer.Usage) }
    ensures media { ReadsSource S.len S.known S.faults IsPanelCause media.old media.new result }
    ensures panel { HearsPanel says asked_times judge_faults fault_heard
        (AsksKnown (S.known media.old) (FileAsks H.digest_of)) judges.old judges.new result }
{
    // Matched and not handed up by `?`: who was asked depends on which fault it is.
    match validate(alloc, hashing, media, judges) {
        Ok(checked) => reply_to_answer(alloc, &checked),
        Err(error) => Err(Fault::from(error)),
    }
}
