// What holds of each build; nothing is computed.
ghost use Rattle.c2_build_plain.specs.Meeting.{ApprovedIsValid, BuiltFileMeets};
ghost use Rattle.c2_build_plain.specs.Meeting.{SomeBuildOverStoreSucceeds, SomeBuildSucceeds};
ghost use Rattle.c2_build_plain.specs.Meeting.{SomeBmffSucceeds};
ghost use Rattle.c2_build_plain.specs.Meeting.{OneEmbedding, OnePlan, SomeEmbedding, SomePlan};
ghost use Rattle.c2_build_plain.specs.Meeting.{UnrefusedIsEmbedded, UnrefusedIsPlanned};

/// The same inputs come to one thing: the bytes that are to be signed, the new file, or what is refused first.
pub fn a_build_comes_to_one_thing()
    ensures plan { OnePlan }
    ensures embedding { OneEmbedding }
{}

/// Each list of inputs comes to something.
pub fn each_build_comes_to_something()
    ensures plan { SomePlan }
    ensures embedding { SomeEmbedding }
{}

/// Inputs on which no refusal has its condition come to something: to bytes that are to be signed, and to a new file. So a call over them
/// answers that, or a fault of what it reads, asks or writes, or that memory ran out.
pub fn unrefused_inputs_are_built()
    ensures plan { UnrefusedIsPlanned }
    ensures embedding { UnrefusedIsEmbedded }
{}

/// A store whose other rules hold lacks nothing but the approval of its questions.
pub fn approval_of_each_question_is_enough()
    ensures { ApprovedIsValid }
{}

/// A new file has its new store in the new range, where every rule holds of it apart from the verdict on the new message. It asks the
/// new question and then those of the media's store, which the judges of the build approve. The bytes of the media outside its embedded
/// range stay in order: less the new range, and less the older box where that was freed, the file is the media less that range.
pub fn a_new_file_meets_the_rules()
    ensures { BuiltFileMeets }
{}

/// Some inputs come to a new file.
pub fn some_build_succeeds()
    ensures { SomeBuildSucceeds }
{}

/// Some inputs with a BMFF file come to a new file.
pub fn some_bmff_succeeds()
    ensures { SomeBmffSucceeds }
{}

/// Some inputs with a file that has a store come to a new file, for each container, where the hash gives digests and each question is
/// approved.
pub fn some_build_over_a_store_succeeds()
    ensures { SomeBuildOverStoreSucceeds }
{}
