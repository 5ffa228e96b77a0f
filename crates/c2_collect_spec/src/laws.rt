// Laws of stores that are joined, of a new store over them, and of the file that is built with it.

ghost use Rattle.c2_collect_spec.specs.Collected.{CollectedContentIsOne, CollectedStoreMeets};
ghost use Rattle.c2_collect_spec.specs.Collected.{CollectedStoreReaches, JoinedIsReached};
ghost use Rattle.c2_collect_spec.specs.Collected.{QuestionsAreApproved, QuestionsAreOfEither};
ghost use Rattle.c2_collect_spec.specs.Collected.{SomeContentCollects};
ghost use Rattle.c2_collect_spec.specs.Contents.{CollectedContentMeets};
ghost use Rattle.c2_collect_spec.specs.Files.{CollectedFileMeets, CollectedFileReaches};
ghost use Rattle.c2_collect_spec.specs.Lengths.{CollectedIsShort, CollectedStoresFit};
ghost use Rattle.c2_collect_spec.specs.Order.{CollectablePairIsUnrefused, CollectedIsNotRefused};
ghost use Rattle.c2_collect_spec.specs.Order.{NothingRefusedIsCollected, SomeFileIsCollected};
ghost use Rattle.c2_collect_spec.specs.Order.{UnrefusedPairCollects};
ghost use Rattle.c2_collect_spec.specs.Refusals.{FirstRedactionIsLeastBy, RedactionsAreAcceptedBy};
ghost use Rattle.c2_collect_spec.specs.Refusals.{RefusalsAreStanding};
ghost use Rattle.c2_collect_spec.specs.Whole.{EachCollectedFileMeets};
ghost use Rattle.c2_collect_spec.specs.Stores.{AcceptedFileIsRooted, NoStoreIsRooted};
ghost use Rattle.c2_collect_spec.specs.Stores.{RootedStoreIsTaken, RootedStoresJoin};
ghost use Rattle.c2_collect_spec.specs.Stores.{ValidStoreIsRooted};

/// Redactions of a chain of which none is refused may be made, and the rules on redactions hold of them. What is answered is the first
/// that is refused. In one store those are refused that are refused of that store.
pub fn redactions_of_a_chain_may_be_made()
    ensures accepted { RedactionsAreAcceptedBy }
    ensures first { FirstRedactionIsLeastBy }
    ensures standing { RefusalsAreStanding }
{}

/// A valid store can be joined with another, seen from its last manifest; media without a store joins as one of no boxes. Two that
/// don't clash join to one, seen from the roots of both; and one is taken over by a new store, less what is redacted.
pub fn stores_join()
    ensures valid { ValidStoreIsRooted }
    ensures none { NoStoreIsRooted }
    ensures join { RootedStoresJoin }
    ensures taken { RootedStoreIsTaken }
{}

/// The store of an accepted file can be joined with another, seen from its last manifest, and it has one.
pub fn an_accepted_file_can_be_collected()
    ensures { AcceptedFileIsRooted }
{}

/// What is reached from the last manifests of two stores that may be joined is what was reached in the one or in the other: of the first
/// what is reached in its own store, and all that is carried of the second. Each question of that is one of either, and judges approve it
/// who approve those of both.
pub fn what_is_joined_is_reached()
    ensures reached { JoinedIsReached }
    ensures questions { QuestionsAreOfEither }
    ensures approved { QuestionsAreApproved }
{}

/// What goes into a new store over two that may be collected is there, and is one.
pub fn what_is_collected_is_one()
    ensures some { SomeContentCollects }
    ensures once { CollectedContentIsOne }
{}

/// A new store over the joined boxes of two stores meets each rule but the verdict on its message and the one on its binding, and asks
/// the new question and then those of the joined chain. Whatever it is read as, what is reached in it are the new manifest and what was
/// reached in the media's store or in the other.
pub fn a_collected_store_meets_the_rules()
    ensures meets { CollectedStoreMeets }
    ensures reaches { CollectedStoreReaches }
{}

/// The new store that collects from two stores meets each rule but the verdict on its message and the one on its binding,
/// whichever the binding is. So a file that is built with it over a base without a store, whichever its container is, has the
/// new store, and meets each rule but the verdict on its message. What is reached in it is what is reached in that store.
pub fn a_collected_file_meets_the_rules()
    ensures content { CollectedContentMeets }
    ensures meets { CollectedFileMeets }
    ensures reaches { CollectedFileReaches }
{}

/// A new store may collect from a media file and another file exactly where the list of what is refused of both is empty.
pub fn two_files_are_refused_or_collected()
    ensures collects { UnrefusedPairCollects }
    ensures none { CollectablePairIsUnrefused }
{}

/// Of inputs none of which is refused alone there is a new file that collects, whose message fills what is reserved for it, exactly where
/// the list of all that is refused is empty.
pub fn a_collected_file_is_refused_or_built()
    ensures built { NothingRefusedIsCollected }
    ensures none { CollectedIsNotRefused }
{}

/// The file of a new store that collects from two files has the new store, and each rule but the verdict on its message holds of it. Each
/// question but the new one is one of the media's store or of the other. What is reached in it are the new manifest and what was reached in
/// one of both. Less its range it is what is left of the media, and judges accept it who approve its questions.
pub fn each_collected_file_meets_the_rules()
    ensures { EachCollectedFileMeets }
{}

/// What goes into a new store that collects from two files is short, so the length of that store is less than 2^64 - 1 where a file is the
/// definition: a length that is told by 64 bits is exact.
pub fn the_length_of_a_collected_store_fits()
    ensures short { CollectedIsShort }
    ensures fits { CollectedStoresFit }
{}

/// Some file is built that collects, whatever the hash, where it gives digests and judges approve each question: of a media file without a
/// store, and of one with a store.
pub fn some_file_is_collected()
    ensures { SomeFileIsCollected }
{}
