// What a build asks of its judges whose new store collects; nothing is computed.
ghost use Rattle.c2_build_collect.specs.Asked.{OneCollectAsks, OneCollectPlanAsks, SomeCollectAsks};
ghost use Rattle.c2_build_collect.specs.Asked.{SomeCollectPlanAsks};

/// The same inputs ask one list of questions at most.
pub fn a_collected_build_asks_one_list()
    ensures plan { OneCollectPlanAsks }
    ensures embedding { OneCollectAsks }
{}

/// Each list of inputs asks a list of questions.
pub fn each_collected_build_asks_a_list()
    ensures plan { SomeCollectPlanAsks }
    ensures embedding { SomeCollectAsks }
{}
