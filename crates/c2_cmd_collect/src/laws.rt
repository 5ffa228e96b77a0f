// Laws of the outcomes and the questions of `plan-collect` and `embed-collect`; nothing is computed.
ghost use Rattle.c2_cmd_collect.specs.Laws.{EachCollectOutcome, EachCollectQuestions};
ghost use Rattle.c2_cmd_collect.specs.Laws.{OneCollectOutcome, OneCollectQuestions};

/// Each of both commands comes to one outcome at most, and asks one list of questions at most.
pub fn one_collect_outcome()
    ensures outcome { OneCollectOutcome }
    ensures questions { OneCollectQuestions }
{}

/// Each of both commands comes to an outcome and asks a list of questions where its media files and its message are bytes.
pub fn each_collect_outcome()
    ensures outcome { EachCollectOutcome }
    ensures questions { EachCollectQuestions }
{}
