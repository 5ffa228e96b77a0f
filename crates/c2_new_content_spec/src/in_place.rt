//! Laws of files in their places: the place of a file is a split of it, so the laws of splits hold there.

ghost use Rattle.c2_new_file_spec.specs.Meeting.{BaseStays, FreshPlaceMeets, OverPlaceMeets};
ghost use Rattle.c2_new_content_spec.specs.Contents.{PlaceFileMeets};
ghost use Rattle.c2_new_content_spec.specs.Instances.{PlaceIsSplit};

/// The place of a file without a store is a split of it, where the same bytes are put in of each store, and the same
/// text is bound. So the law of files at a split holds of files in their places.
pub fn a_place_is_a_split()
    ensures split { PlaceIsSplit }
    ensures file { PlaceFileMeets }
{}

/// A file that is built in its place, over one without a store or over what is left of a valid one with a store, has the
/// new store, meets each rule but the verdict on its message, and asks the new question and then those of the older store.
pub fn a_file_built_in_its_place_meets_the_rules()
    ensures fresh { FreshPlaceMeets }
    ensures over { OverPlaceMeets }
{}

/// Less the new range, a file that is built in its place is what it was.
pub fn a_base_stays()
    ensures { BaseStays }
{}
