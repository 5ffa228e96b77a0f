// Laws of the outcomes of commands that read.
ghost use Rattle.c2_cmd_reading.specs.Laws.{EachReadingOutcome, EachReadingQuestions};
ghost use Rattle.c2_cmd_reading.specs.Laws.{OneReadingOutcome, OneReadingQuestions};

/// Each command that reads comes to one outcome at most, and asks one list of questions at most.
pub fn one_reading_outcome()
    ensures outcome { OneReadingOutcome }
    ensures questions { OneReadingQuestions }
{}

/// Each command that reads comes to an outcome and asks a list of questions, where its files are bytes.
pub fn each_reading_outcome()
    ensures outcome { EachReadingOutcome }
    ensures questions { EachReadingQuestions }
{}
