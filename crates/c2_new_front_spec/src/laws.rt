//! Laws of the file that is built with its store in front.

ghost use Rattle.c2_new_front_spec.specs.Fronts.{CoveredTextIsKnown, FrontHasItsStore, OneFront};
ghost use Rattle.c2_new_front_spec.specs.Fronts.{SomeFront};
ghost use Rattle.c2_new_front_spec.specs.Meeting.{BytesOfFrontStay, ChunksOfFrontStay};
ghost use Rattle.c2_new_front_spec.specs.Meeting.{FreshFrontMeets};
ghost use Rattle.c2_new_front_spec.specs.Order.{BuiltIsNotRefused, NothingRefusedIsBuilt};
ghost use Rattle.c2_new_front_spec.specs.Order.{PlannedIsFresh, PlannedIsNotRefused};
ghost use Rattle.c2_new_front_spec.specs.Order.{UnrefusedCanBePlanned};
ghost use Rattle.c2_new_front_spec.specs.Splits.{FrontIsSplit};

/// There is one file whose new store comes right after the file type box and binds all that its exclusions leave of the file, and in
/// whose chunk tables the places of the media from there on are moved: the file that the definition `front_file` gives.
pub fn a_built_front_is_one()
    ensures some { SomeFront }
    ensures once { OneFront }
{}

/// Where bytes are put into the media with moved places, behind its file type box, in the box of a store and as many as those of the new
/// store, the file's root boxes are known, and so is what the exclusions leave of it. So the digest is known before the store is.
pub fn the_covered_text_is_known_first()
    ensures { CoveredTextIsKnown }
{}

/// The file has the new store in the new range, and without that range it is the media with moved places.
pub fn a_built_front_has_its_store()
    ensures { FrontHasItsStore }
{}

/// The place right behind the first root box of a BMFF file without a store is a split of it: there is room where that
/// box says its size and the file may have one box more, and bound are the boxes behind, at their new places.
pub fn a_front_is_a_split()
    ensures { FrontIsSplit }
{}

/// The file has the new store, meets each rule but the verdict on its message, and asks one question: that of its message over its claim.
/// It is the media with moved places, with the store put in at that split.
pub fn a_fresh_front_meets_the_rules()
    ensures { FreshFrontMeets }
{}

/// Each field of a chunk table that told a place of the media after its file type box tells where that byte is in the new file, which
/// has the same byte there unless it is in a field itself.
pub fn chunks_of_a_built_front_stay()
    ensures { ChunksOfFrontStay }
{}

/// All bytes of the media that lie in no moved field of a chunk table are in the new file, in their order: those of its first root box
/// where they were, and the others behind the store.
pub fn bytes_of_a_built_front_stay()
    ensures { BytesOfFrontStay }
{}

/// Of a BMFF file without a store a new file can be planned exactly where nothing is refused of a plan; its definition redacts nothing.
pub fn a_front_is_refused_or_planned()
    ensures planned { UnrefusedCanBePlanned }
    ensures none { PlannedIsNotRefused }
    ensures fresh { PlannedIsFresh }
{}

/// Of a BMFF file without a store and a message there is a new file, whose message fills what is reserved for it, exactly where nothing
/// is refused: neither of a plan, nor that the message needs more bytes.
pub fn a_front_is_refused_or_built()
    ensures built { NothingRefusedIsBuilt }
    ensures none { BuiltIsNotRefused }
{}
