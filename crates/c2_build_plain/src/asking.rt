// What a build asks of its judges; nothing is computed.
ghost use Rattle.c2_build_plain.specs.Asked.{OneEmbedAsks, OnePlanAsks, SomeEmbedAsks};
ghost use Rattle.c2_build_plain.specs.Asked.{SomePlanAsks};

/// The same inputs ask one list of questions at most.
pub fn a_build_asks_one_list()
    ensures plan { OnePlanAsks }
    ensures embedding { OneEmbedAsks }
{}

/// Each list of inputs asks a list of questions.
pub fn each_build_asks_a_list()
    ensures plan { SomePlanAsks }
    ensures embedding { SomeEmbedAsks }
{}
