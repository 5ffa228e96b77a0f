//! Laws of places.

ghost use Rattle.c2_new_file_spec.specs.Laws.{BindingsAreKnown, FreshHasPlace, LeftHasContainer};
ghost use Rattle.c2_new_file_spec.specs.Laws.{LeftHasPlace, OneLeft, OnePlace, PlaceSizeIsFixed};
ghost use Rattle.c2_new_file_spec.specs.Laws.{SomeLeft};

/// A file has one place for a new store.
pub fn a_place_is_one()
    ensures { OnePlace }
{}

/// One file is left of a media file without its store.
pub fn what_is_left_is_one()
    ensures { OneLeft }
{}

/// The length of a new store depends neither on its range nor on digests.
pub fn a_new_store_has_one_length_in_its_place()
    ensures { PlaceSizeIsFixed }
{}

/// The binding of a new store is of a kind that is known, an item.
pub fn bindings_are_known()
    ensures { BindingsAreKnown }
{}

/// A media file without a store has a place for one. Something is left of a media file with a store; it has the container that the file
/// had, and a place for another store.
pub fn each_media_has_a_place()
    ensures fresh { FreshHasPlace }
    ensures left { SomeLeft }
    ensures container { LeftHasContainer }
    ensures place { LeftHasPlace }
{}
