// The command `compare`.
ghost use Rattle.std.specs.Prelude.{◌≡◌, ◌≢◌, ℕ, List, [], map, IfErr, IfOk};
ghost use Rattle.std.specs.Option.{ForSome};
ghost use Rattle.c2_base.specs.Causes.{Rose};
ghost use Rattle.c2_base.specs.Source.{IsKnownWhereDue, ReadsSource};
ghost use Rattle.c2_compare.specs.Comparing.{AsksCompared, IsNotAccepted};
ghost use Rattle.c2_spec.specs.Judges.Panel.{panel_says};
ghost use Rattle.c2_rules.specs.Asking.{HearsPanel};
ghost use Rattle.c2_cmd_outcome.specs.Reply.{Begins, IsInputCause, fault_heard, outcome_of};
ghost use Rattle.c2_cmd_reading.specs.Left.{BeginsReport};
ghost use Rattle.c2_cmd_reading.specs.Outcomes.{IsCompareOutcome, compare_outcome};
ghost use Rattle.c2_cmd_reading.specs.Reading.{compare_fault};

use c2_base::{Sink, Source};
use c2_cmd_outcome::types::Answer;
use c2_cmd_outcome::{Fault, Reply};
use c2_compare::{CompareError, Compared, compare};
use c2_hash::Hashing;
use c2_judge::Judge;
use c2_texts::{different_line, not_accepted_line, same_line};
use std::alloc::Global;

/// The reply to `compare`. Evidence is written to the report while it is read, and then the reply is empty.
///
/// The second file is left as it was where the first isn't accepted. `Input`, `Output` and `Judge` come only where one of the two files,
/// the report or a judge failed in this call; a judge that fails leaves the report as it was, and every other fault leaves a prefix of it.
// The condition always holds: a function that changes boxed judges is called under a contract only where it has one.
pub fn reply_to_compare<H: Hashing, A: Source, B: Source, W: Sink>(
    alloc: Global,
    hashing: &H,
    media: &mut A,
    second: &mut B,
    report: &mut W,
    judges: &mut Vec<Box<dyn Judge>>,
) -> Result<Reply, Fault>
    requires { Unit {0} }
    ensures reply { let said = panel_says (map says judges.old.items) in
        ForSome (A.known media.old) (λ a. (b : List ℕ)
        → IsKnownWhereDue (B.known second.old) (IsNotAccepted H.digest_of said a) b
        → Begins (IsCompareOutcome H.digest_of said a b) (W.written report.old)
        (W.written report.new) result) }
    ensures words { IfOk result (λ reply. reply.answer ≢ Answer.Usage) }
    ensures media { ReadsSource A.len A.known A.faults
        (IsInputCause (Rose (B.faults second.old) (B.faults second.new)))
        media.old media.new result }
    ensures second { ReadsSource B.len B.known B.faults
        (IsInputCause (Rose (A.faults media.old) (A.faults media.new)))
        second.old second.new result }
    ensures not_due { let said = panel_says (map says judges.old.items) in
        ForSome (A.known media.old)
        (λ a. IsNotAccepted H.digest_of said a → second.new ≡ second.old) }
    ensures report { BeginsReport W.written W.finished W.faults report.old report.new result }
    ensures panel { HearsPanel says asked_times judge_faults fault_heard
        (AsksCompared H.digest_of (A.known media.old) (B.known second.old))
        judges.old judges.new result }
{
    // Matched and not handed up by `?`: who was asked depends on which fault it is.
    match compare(alloc, hashing, media, second, judges, report) {
        Ok(what) => reply_to_compared(alloc, &what),
        Err(error) => Err(fault(error)),
    }
}

// The fault that an error of a comparison stands for.
fn fault(error: CompareError) -> Fault
    ensures { result ≡ compare_fault error }
{
    match error {
        CompareError::ReadFault => Fault::Input,
        CompareError::WriteFault => Fault::Output,
        CompareError::JudgeFault => Fault::Judge,
        CompareError::NoMemory => Fault::Memory,
    }
}

// The reply behind the text of evidence, where there is one: it says what two files come to, and is empty behind evidence.
fn reply_to_compared(alloc: Global, what: &Compared) -> Result<Reply, Fault>
    ensures reply { IfOk result (λ reply. outcome_of reply ≡ compare_outcome what.now []) }
    ensures words { IfOk result (λ reply. reply.answer ≢ Answer.Usage) }
    ensures memory { IfErr result (λ e. e ≡ Fault.Memory) }
{
    match what {
        Compared::NotAccepted(side, told) => Ok(Reply {
            answer: Answer::NotAccepted,
            text: not_accepted_line(alloc, *side, told)?,
        }),
        Compared::DifferentClaims => Ok(Reply {
            answer: Answer::DifferentClaims,
            text: different_line(alloc)?,
        }),
        Compared::Evidence(_) => Ok(Reply {
            answer: Answer::Evidence,
            text: String::new(alloc),
        }),
        Compared::Same(summary) => Ok(Reply {
            answer: Answer::Done,
            text: same_line(alloc, *summary)?,
        }),
    }
}
