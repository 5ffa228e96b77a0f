// The command `questions`.
ghost use Rattle.std.specs.Prelude.{◌≡◌, ◌≢◌, ◌++◌, [], ◌∷◌, ⊤, Some, map, IfOk, IfErr, OnOk};
ghost use Rattle.std.specs.Prelude.{string_bytes};
ghost use Rattle.std.specs.Option.{option_to_list};
ghost use Rattle.c2_base.specs.Source.{ReadsSource};
ghost use Rattle.c2_spec.specs.Judges.Panel.{panel_says};
ghost use Rattle.c2_rules.specs.Asking.{HearsPanel};
ghost use Rattle.c2_rules.specs.Validated.{AreQuestions};
ghost use Rattle.c2_calls_spec.specs.Asks.{AsksKnown, AsksThese};
ghost use Rattle.c2_cmd_outcome.specs.Reply.{CausedBy, IsPanelCause, Replies, fault_heard};
ghost use Rattle.c2_cmd_outcome.specs.Reply.{outcome_of};
ghost use Rattle.c2_cmd_reading.specs.Outcomes.{IsMediaOutcome, IsQuestioned, verdict_line};
ghost use Rattle.c2_cmd_reading.specs.Reading.{asked_outcome, questions_in};

use crate::prepare::{Asked, Prepared, asked_label, asked_question, prepare};
use c2_base::{Question, Source};
use c2_cmd_outcome::types::Answer;
use c2_cmd_outcome::{Fault, Reply};
use c2_judge::{Judge, JudgeFailed, ask_panel, question_id};
use c2_texts::{no_question_line, question_line};
use std::alloc::Global;

/// The reply to `questions`. `Input` and `Judge` come only where the media or a judge failed in this call, and `Memory` where memory
/// ran out; then the questions of a prefix were asked.
// The condition always holds, here and below: a function that changes boxed judges is called under a contract only where it
// has one.
pub fn reply_to_questions<S: Source>(
    alloc: Global,
    media: &mut S,
    judges: &mut Vec<Box<dyn Judge>>,
) -> Result<Reply, Fault>
    requires { Unit {0} }
    ensures reply { let said = panel_says (map says judges.old.items) in
        IfOk result (Replies (IsMediaOutcome (IsQuestioned said)) (S.known media.old)) }
    ensures words { IfOk result (λ reply. reply.answer ≢ Answer.Usage) }
    ensures media { ReadsSource S.len S.known S.faults IsPanelCause media.old media.new result }
    ensures panel { HearsPanel says asked_times judge_faults fault_heard
        (AsksKnown (S.known media.old) (λ file said. AreQuestions file))
        judges.old judges.new result }
{
    // Matched and not handed up by `?`, here and below: each way out has clauses of its own.
    let prepared = match prepare(alloc, media) {
        Ok(prepared) => prepared,
        Err(fault) => return Err(fault),
    };
    match prepared {
        Prepared::Reply(reply) => Ok(reply),
        Prepared::Ask(asked) => ask_all(alloc, asked.as_slice(), judges),
    }
}

// The reply where these manifests are asked of: each question is put to the panel, in order.
fn ask_all(alloc: Global, asked: &[Asked], judges: &mut Vec<Box<dyn Judge>>) -> Result<Reply, Fault>
    requires { Unit {0} }
    ensures reply { let said = panel_says (map says judges.old.items) in
        IfOk result (λ reply. outcome_of reply ≡ asked_outcome asked.now said) }
    ensures fault { IfErr result (CausedBy ⊥ ⊥ ⊤) }
    ensures panel { HearsPanel says asked_times judge_faults fault_heard
        (AsksThese (questions_in asked.now)) judges.old judges.new result }
{
    let mut text = String::new(alloc);
    for one in asked {
        match push_line(alloc, &mut text, one, judges) {
            Ok(()) => {}
            Err(fault) => return Err(fault),
        }
    }
    Ok(Reply {
        answer: Answer::Done,
        text,
    })
}

// Appends the line of a manifest that is asked of.
fn push_line(
    alloc: Global,
    out: &mut String,
    one: &Asked,
    judges: &mut Vec<Box<dyn Judge>>,
) -> Result<(), Fault>
    requires { Unit {0} }
    ensures line { let said = panel_says (map says judges.old.items) in
        let line = verdict_line said one.now.label one.now.question in
        OnOk result (string_bytes out.new ≡ string_bytes out.old ++ line) }
    ensures fault { IfErr result (CausedBy ⊥ ⊥ ⊤) }
    ensures panel { HearsPanel says asked_times judge_faults fault_heard
        (AsksThese (option_to_list one.now.question)) judges.old judges.new result }
{
    let line = match line_of(alloc, one, judges) {
        Ok(line) => line,
        Err(fault) => return Err(fault),
    };
    match out.push_str(line.as_str()) {
        Ok(()) => Ok(()),
        Err(_) => Err(Fault::Memory),
    }
}

// The line of a manifest that is asked of.
fn line_of(alloc: Global, one: &Asked, judges: &mut Vec<Box<dyn Judge>>) -> Result<String, Fault>
    requires { Unit {0} }
    ensures line { let said = panel_says (map says judges.old.items) in
        let line = verdict_line said one.now.label one.now.question in
        IfOk result (λ text. string_bytes text ≡ line) }
    ensures fault { IfErr result (CausedBy ⊥ ⊥ ⊤) }
    ensures panel { HearsPanel says asked_times judge_faults fault_heard
        (AsksThese (option_to_list one.now.question)) judges.old judges.new result }
{
    match asked_question(one) {
        Some(question) => ask(alloc, asked_label(one), question, judges),
        None => match no_question_line(alloc, asked_label(one)) {
            Ok(line) => Ok(line),
            Err(_) => Err(Fault::Memory),
        },
    }
}

// The line of the manifest with this label, where this question is put to the panel.
fn ask(
    alloc: Global,
    label: &str,
    question: &Question,
    judges: &mut Vec<Box<dyn Judge>>,
) -> Result<String, Fault>
    requires { Unit {0} }
    ensures line { let said = panel_says (map says judges.old.items) in
        let line = verdict_line said label.now (Some question.now) in
        IfOk result (λ text. string_bytes text ≡ line) }
    ensures fault { IfErr result (CausedBy ⊥ ⊥ ⊤) }
    ensures panel { HearsPanel says asked_times judge_faults fault_heard
        (AsksThese (question.now ∷ [])) judges.old judges.new result }
{
    let verdict = match ask_panel(judges, question) {
        Ok(verdict) => verdict,
        Err(JudgeFailed) => return Err(Fault::Judge),
    };
    let id = question_id(question);
    match question_line(alloc, id.as_slice(), label, verdict) {
        Ok(line) => Ok(line),
        Err(_) => Err(Fault::Memory),
    }
}
