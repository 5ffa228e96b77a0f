//! Laws of the outcomes of runs.
ghost use Rattle.c2_cmd.specs.Laws.{AnswersWhereNothingFails, OneListOfQuestions, OneOutcome};
ghost use Rattle.c2_cmd.specs.Laws.{SomeListOfQuestions, SomeOutcome};

/// Words and inputs come to one outcome at most, and to one list of questions at most.
pub fn one_outcome()
    ensures outcome { OneOutcome }
    ensures questions { OneListOfQuestions }
{}

/// Words and inputs whose files are bytes come to an outcome, and to a list of questions.
pub fn each_run_has_an_outcome()
    ensures outcome { SomeOutcome }
    ensures questions { SomeListOfQuestions }
{}

/// A run of which no object that its command names fails has answered, or memory ran out: so say `cause` and the field `complete` of
/// `run`'s clause `known` together.
pub fn a_run_that_nothing_fails_answers()
    ensures { AnswersWhereNothingFails }
{}
