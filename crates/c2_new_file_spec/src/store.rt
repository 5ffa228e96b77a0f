//! Laws of what is written.

ghost use Rattle.c2_new_file_spec.specs.Built.{StoreSizeIsFixed, StoreSizesAreSame};
ghost use Rattle.c2_new_file_spec.specs.Manifests.{ManifestsAreBoxes};
ghost use Rattle.c2_new_file_spec.specs.Unbound.{BoundFileMeets};
ghost use Rattle.c2_new_file_spec.specs.Written.{NewStoreIsRead};

/// The manifests of a tree are the same, told by the indices of its boxes or by the boxes themselves.
pub fn manifests_are_boxes()
    ensures { ManifestsAreBoxes }
{}

/// The bytes of a new store spell one legal tree, which is a store: its manifests are those that are carried, and then the new one.
pub fn a_new_store_is_read()
    ensures { NewStoreIsRead }
{}

/// The length of a new store depends neither on the range in its binding nor on digests.
pub fn a_new_store_has_one_length()
    ensures { StoreSizeIsFixed }
{}

/// The length of a new store depends on no more of its binding and message than the binding's label and both lengths.
pub fn new_stores_have_one_length()
    ensures { StoreSizesAreSame }
{}

/// A file in which a store is found that meets each rule but the verdict on its message and the one on its binding meets each but
/// verdicts, once the store's binding is met in it.
pub fn a_bound_file_meets_the_rules()
    ensures { BoundFileMeets }
{}
