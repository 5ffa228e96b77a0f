//! Laws of the new store over a store.

ghost use Rattle.c2_new_content_spec.specs.Over.{SucceedingStoreMeets, ValidIsApproved};

/// A new store that takes over older manifests meets each rule but the verdict on its message and the one on its binding, whichever the
/// binding is, and asks the new question and then those of the older manifests.
pub fn a_succeeding_store_meets_the_rules()
    ensures { SucceedingStoreMeets }
{}

/// The judges who find a store valid approve each of its questions.
pub fn a_valid_store_is_approved()
    ensures { ValidIsApproved }
{}
