//! Laws of what is written.
ghost use Rattle.std.specs.Prelude.{ℕ, List};
ghost use Rattle.c2_spec.specs.Cbor.Legal.{IsLegal};
ghost use Rattle.c2_spec.specs.Jumbf.Writing.{IsWrittenLabel};
ghost use Rattle.c2_claim.specs.Written.{claim_item};
ghost use Rattle.c2_claim.specs.declared.writing.ClaimParts.{ClaimParts as AnyParts};
ghost use Rattle.c2_new_file_spec.specs.Written.{IsIngredientLabel};

/// The item of a claim that is made of parts, whatever they are, is legal, so that nothing but memory fails where it is encoded.
pub fn a_claim_of_parts_is_legal()
    ensures { (p : AnyParts) → IsLegal (claim_item p) }
{}

/// The label of an ingredient may be written, the first in a manifest or the second, though no definition may have it.
pub fn ingredient_labels_may_be_written()
    ensures { (label : List ℕ) → IsIngredientLabel label → IsWrittenLabel label }
{}
