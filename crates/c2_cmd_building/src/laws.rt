//! Laws of the outcomes of commands that build.
ghost use Rattle.c2_cmd_building.specs.Laws.{EachBuildingOutcome, EachBuildingQuestions};
ghost use Rattle.c2_cmd_building.specs.Laws.{OneBuildingOutcome, OneBuildingQuestions};

/// Each command that builds comes to one outcome at most, and asks one list of questions at most.
pub fn one_building_outcome()
    ensures outcome { OneBuildingOutcome }
    ensures questions { OneBuildingQuestions }
{}

/// Each command that builds comes to an outcome and asks a list of questions where its files are bytes.
pub fn each_building_outcome()
    ensures outcome { EachBuildingOutcome }
    ensures questions { EachBuildingQuestions }
{}
