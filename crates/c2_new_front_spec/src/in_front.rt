//! A law of BMFF files with a store in front.

ghost use Rattle.c2_new_front_spec.specs.InFront.{FrontHasRoots, OnlyOthersAreCovered};
ghost use Rattle.c2_new_front_spec.specs.InFront.{StoreIsPutInFront};

/// A file that a store is put into after its first root box has the root boxes that it had and the store's box there; the store is found
/// there; without it the file is what it was. The exclusions of a new BMFF hash leave only the boxes behind the store, at their new places.
pub fn a_store_in_front_is_found()
    ensures roots { FrontHasRoots }
    ensures found { StoreIsPutInFront }
    ensures text { OnlyOthersAreCovered }
{}
