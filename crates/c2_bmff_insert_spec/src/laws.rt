// Laws of BMFF files with a store and without.
ghost use Rattle.c2_bmff_insert_spec.specs.Laws.{BaseHasNoStore, BaseIsOne, BuiltTextIsCovered};
ghost use Rattle.c2_bmff_insert_spec.specs.Laws.{CoverIsBuiltText, EndIsCutOut, OthersKeepLengths};
ghost use Rattle.c2_bmff_insert_spec.specs.Laws.{StoreIsNotCovered, StoreIsPutIn};

/// A file that a store is put into has the root boxes that it had and the store's box in its place; the store is found there; without
/// it the file is what it was.
pub fn a_put_store_is_found()
    ensures { StoreIsPutIn }
{}

/// The base of a file is a file without a store. An older store's box at the end is cut out; elsewhere all root boxes keep their
/// lengths. A file has one base.
pub fn a_base_has_no_store()
    ensures none { BaseHasNoStore }
    ensures cut { EndIsCutOut }
    ensures freed { OthersKeepLengths }
    ensures once { BaseIsOne }
{}

/// What the exclusions of a new BMFF hash leave of a file is told by its root boxes, and is the same with the store and without: so the
/// hash can be made before the store is known.
pub fn a_put_store_is_not_covered()
    ensures text { CoverIsBuiltText }
    ensures some { BuiltTextIsCovered }
    ensures same { StoreIsNotCovered }
{}
