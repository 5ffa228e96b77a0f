// The command `sample`.
ghost use Rattle.std.specs.Prelude.{◌≡◌, ◌≢◌, ⊤, map, IfOk, IfErr};
ghost use Rattle.c2_sample.specs.Sample.{SampleAsks};
ghost use Rattle.c2_rules.specs.Asking.{HearsPanel};
ghost use Rattle.c2_spec.specs.Judges.Panel.{panel_says};
ghost use Rattle.c2_cmd_outcome.specs.Reply.{CausedBy, fault_heard, outcome_of};
ghost use Rattle.c2_cmd_building.specs.Outcomes.{IsSampleOutcome, sample_outcome};

use c2_cmd_build_replies::refusal_line;
use c2_cmd_outcome::types::Answer;
use c2_cmd_outcome::{Fault, Reply, reply_to_answer};
use c2_hash::Hashing;
use c2_judge::Judge;
use c2_rules::Answer as Checked;
use c2_sample::{Lengths, SampleError, Sampled, sample, sample_line};
use std::alloc::Global;

/// The reply to `sample` with so many pieces.
///
/// [`Fault::Judge`] comes only where a judge failed that was due, and [`Fault::Memory`] where memory ran out; all files are in memory, so no
/// other fault comes.
pub fn reply_to_sample<H: Hashing>(
    alloc: Global,
    hashing: &H,
    count: u32,
    judges: &mut Vec<Box<dyn Judge>>,
) -> Result<Reply, Fault>
    requires { Unit {0} }
    ensures reply { let said = panel_says (map says judges.old.items) in
        IfOk result (λ reply. IsSampleOutcome H.digest_of said count (outcome_of reply)) }
    ensures words { IfOk result (λ reply. reply.answer ≢ Answer.Usage) }
    ensures fault { IfErr result (CausedBy ⊥ ⊥ ⊤) }
    ensures panel { HearsPanel says asked_times judge_faults fault_heard
        (λ said. SampleAsks H.digest_of said count) judges.old judges.new result }
{
    // Matched and not handed up by `?`: who was asked depends on which fault it is.
    match sample(alloc, hashing, count, judges) {
        Ok(sampled) => reply_to_sampled(alloc, count, &sampled),
        Err(SampleError::JudgeFault) => Err(Fault::Judge),
        Err(SampleError::NoMemory) => Err(Fault::Memory),
    }
}

// The reply to what so many pieces come to.
fn reply_to_sampled(alloc: Global, count: u32, sampled: &Sampled) -> Result<Reply, Fault>
    ensures reply { IfOk result (λ reply. outcome_of reply ≡ sample_outcome count sampled.now) }
    ensures memory { IfErr result (λ e. e ≡ Fault.Memory) }
{
    match sampled {
        Sampled::Checked(lengths, checked) => checked_reply(alloc, count, *lengths, checked),
        Sampled::Refused(error) => Ok(Reply {
            answer: Answer::BuildRefused,
            text: refusal_line(alloc, error)?,
        }),
    }
}

// The reply where a file with these lengths was built, and the check answers this.
fn checked_reply(
    alloc: Global,
    count: u32,
    lengths: Lengths,
    checked: &Checked,
) -> Result<Reply, Fault>
    ensures reply { let sampled = Sampled.Checked lengths checked.now in
        IfOk result (λ reply. outcome_of reply ≡ sample_outcome count sampled) }
    ensures memory { IfErr result (λ e. e ≡ Fault.Memory) }
{
    let answered = reply_to_answer(alloc, checked)?;
    let mut text = sample_line(alloc, count, lengths)?;
    text.push_str(answered.text.as_str())?;
    Ok(Reply {
        answer: answered.answer,
        text,
    })
}
