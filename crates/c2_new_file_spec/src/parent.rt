//! Laws of what is taken over.

ghost use Rattle.c2_new_file_spec.specs.Carrying.{BaseHasNoStore, ContentIsOne, FirstIsRefused};
ghost use Rattle.c2_new_file_spec.specs.Carrying.{ParentIsOne, RedactionsAreAccepted};
ghost use Rattle.c2_new_file_spec.specs.Carrying.{SomeContentOver, ValidStoreIsCarried};
ghost use Rattle.c2_new_file_spec.specs.Refusing.{FirstRedactionIsLeast};
ghost use Rattle.c2_new_file_spec.specs.Less.{AllAreCarried, RedactedStoreIsRead, WholeStays};

/// The boxes of a store are legal and have the same labels without the assertions that redactions name, and are read as before, less
/// those boxes. A manifest that loses none stays byte for byte, and so do all without redactions.
pub fn a_redacted_store_is_read()
    ensures less { RedactedStoreIsRead }
    ensures stays { WholeStays }
    ensures all { AllAreCarried }
{}

/// Redactions of which none is refused may be made, and the rules on redactions hold of them. Without an older store the first of
/// them is refused.
pub fn redactions_that_pass_may_be_made()
    ensures pass { RedactionsAreAccepted }
    ensures none { FirstIsRefused }
{}

/// The parent of a new manifest is one, and so is all that goes into a new store over an older one.
pub fn what_is_taken_over_is_one()
    ensures parent { ParentIsOne }
    ensures content { ContentIsOne }
{}

/// A JPEG file less the range of its store is a JPEG file in which no segment begins a store.
pub fn a_base_has_no_store()
    ensures { BaseHasNoStore }
{}

/// A valid store is taken over by a new one whose label it doesn't have, where there is room for one more manifest and no redaction
/// is refused: its boxes less the redacted ones can be carried, and its last manifest is the parent. Something goes into the new store,
/// whether there is room or not.
pub fn a_valid_store_is_carried()
    ensures carried { ValidStoreIsCarried }
    ensures some { SomeContentOver }
{}

/// Of redactions the first that is refused is answered, in their order, and by the first of its tests that fails.
pub fn the_first_redaction_refused_is_the_least()
    ensures { FirstRedactionIsLeast }
{}
