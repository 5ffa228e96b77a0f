//! Laws of what a build comes to whose new store collects from two files.

ghost use Rattle.c2_collect_spec.specs.Asked.{OneCollectAsks, OneCollectPlanAsks, SomeCollectAsks};
ghost use Rattle.c2_collect_spec.specs.Asked.{SomeCollectPlanAsks};
ghost use Rattle.c2_collect_spec.specs.Made.{CollectedIsMade, MadeCollectedMeets};
ghost use Rattle.c2_collect_spec.specs.Made.{SomeCollectSucceeds};
ghost use Rattle.c2_collect_spec.specs.Made.{UnrefusedIsCollectMade, UnrefusedIsCollectPlanned};
ghost use Rattle.c2_collect_spec.specs.Outcomes.{OneCollectMade, OneCollectPlan, SomeCollectMade};
ghost use Rattle.c2_collect_spec.specs.Outcomes.{SomeCollectPlan};

/// Over two files that are opened as one thing each, and the same other inputs, a plan comes to one thing, and so does a build: the bytes
/// that are to be signed, the new file, or what is refused first.
pub fn a_collected_build_comes_to_one_thing()
    ensures plan { OneCollectPlan }
    ensures made { OneCollectMade }
{}

/// Over two files whose checks answer something, and any other inputs, a plan comes to something, and so does a build.
pub fn each_collected_build_comes_to_something()
    ensures plan { SomeCollectPlan }
    ensures made { SomeCollectMade }
{}

/// Over two files that are opened as one thing each, and the same other inputs, a plan asks one list of questions at most, and so does a
/// build.
pub fn a_collected_build_asks_one_list()
    ensures plan { OneCollectPlanAsks }
    ensures made { OneCollectAsks }
{}

/// Over two files whose checks answer something, and any other inputs, a plan asks a list of questions, and so does a build.
pub fn each_collected_build_asks_a_list()
    ensures plan { SomeCollectPlanAsks }
    ensures made { SomeCollectAsks }
{}

/// Over two files whose checks answer something, inputs on which no refusal has its condition come to bytes that are to be signed, and to
/// a new file.
pub fn unrefused_inputs_are_collected()
    ensures plan { UnrefusedIsCollectPlanned }
    ensures made { UnrefusedIsCollectMade }
{}

/// A file that a build comes to has the new store of its definition, which collects from both files, and meets each rule but the verdict on
/// its message. It asks a question over the bytes that a plan comes to, and then others, each of which one of both files asks, and the
/// judges of the build approve. All bytes of the media outside the range of its store stay, in their order. Its check answers that it is
/// valid, where judges approve each of its questions.
pub fn a_made_collected_file_meets_the_rules()
    ensures { MadeCollectedMeets }
{}

/// The file of a definition, a message and two files whose new store collects from both is what a build over these comes to, with the range
/// of that store.
pub fn a_collected_file_is_made()
    ensures { CollectedIsMade }
{}

/// Some build succeeds whose new store collects, whatever the hash, where it gives digests and judges approve each question: of a media file
/// without a store, and of one with a store.
pub fn some_collected_build_succeeds()
    ensures { SomeCollectSucceeds }
{}
