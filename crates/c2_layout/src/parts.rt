// The parts of a new store that don't depend on its message.
ghost use Rattle.std.specs.Prelude.{◌≡◌, ◌+◌, ◌++◌, ◌∷◌, [], All, IfOk, length, map};
ghost use Rattle.c2_spec.specs.Cbor.Deterministic.{deterministic};
ghost use Rattle.c2_spec.specs.Jumbf.Tree.{trees_bytes};
ghost use Rattle.c2_claim.specs.Written.{claim_item};
ghost use Rattle.c2_definition.specs.DefinitionFile.{IsWellFormed};
ghost use Rattle.c2_new_file_spec.specs.Built.{bound_len};
ghost use Rattle.c2_layout.specs.Parts.{AreParts, CanBeBound, CanBeBoxed, IsContent, parts_size};
ghost use Rattle.c2_new_file_spec.specs.Store as store;
ghost use Rattle.c2_new_file_spec.specs.Store.{Content};
ghost use Rattle.c2_new_file_spec.specs.Unbound.{IsKnownBinding};

use crate::assertions::push_all;
use crate::carried::Carried;
use crate::claims::claim_of;
use c2_base::{Blob, NoMemory};
use c2_definition::{Definition, NewAssertion};
use c2_hash::Hashing;
use std::alloc::Global;
use std::slice::from_ref;

/// The parts of a new manifest that don't depend on its signed message.
#[derive(Debug, Drop)]
pub struct NewParts {
    /// The boxes of its assertions, one after the other.
    pub boxes: Blob,

    /// The bytes of its claim.
    pub claim: Blob,
}

// The parts of a manifest that has the assertions of a definition, then those of ingredients, and then its binding.
fn parts_over<H: Hashing>(
    alloc: Global,
    hashing: &H,
    definition: &Definition,
    ingredients: &[NewAssertion],
    binding: &NewAssertion,
) -> Result<NewParts, NoMemory>
    requires defined { All CanBeBoxed definition.now.assertions }
    requires ingredients { All CanBeBoxed ingredients.now }
    requires binding { CanBeBoxed binding.now }
    ensures boxes { IfOk result (λ p. p.boxes ≡ trees_bytes (store.assertion_boxes
        (definition.now.assertions ++ (ingredients.now ++ binding.now ∷ [])))) }
    ensures claim { IfOk result (λ p. p.claim
        ≡ deterministic (claim_item (store.claim_with definition.now
        (map (store.entry_of (H.digest_of (store.new_alg definition.now)))
        (definition.now.assertions ++ (ingredients.now ++ binding.now ∷ [])))))) }
{
    let alg = definition.alg;
    let mut boxes = Vec::new(alloc);
    let mut entries = Vec::new(alloc);
    let defined = definition.assertions.as_slice();
    let last = from_ref(binding);
    push_all(alloc, hashing, alg, &mut boxes, &mut entries, defined)?;
    push_all(alloc, hashing, alg, &mut boxes, &mut entries, ingredients)?;
    push_all(alloc, hashing, alg, &mut boxes, &mut entries, last)?;
    let claim = claim_of(alloc, definition, entries)?;
    Ok(NewParts {
        boxes: Blob::from_vec(boxes),
        claim,
    })
}

/// The parts of the store that is built of a definition and of what is carried of older stores, with this binding, which is of a kind
/// that is known. Each assertion is digested once.
///
/// Nothing but memory fails where the store isn't too large with what the definition reserves for its message, which `bound_size`
/// tells before.
pub fn bound_parts<H: Hashing>(
    alloc: Global,
    hashing: &H,
    definition: &Definition,
    carried: &Carried,
    binding: &NewAssertion,
) -> Result<NewParts, NoMemory>
    requires formed { IsWellFormed definition.now }
    requires known { IsKnownBinding binding.now }
    requires small { CanBeBound (H.digest_of (store.new_alg definition.now)) definition.now
        carried.now binding.now }
    ensures parts { IfOk result (λ p. (c : Content)
        → IsContent (H.digest_of (store.new_alg definition.now)) definition.now carried.now c
        → AreParts (H.digest_of (store.new_alg definition.now)) c binding.now p) }

    // The store of these parts has the length that was reckoned before.
    ensures size { IfOk result (λ p. (c : Content)
        → IsContent (H.digest_of (store.new_alg definition.now)) definition.now carried.now c
        → length carried.now.boxes + parts_size definition.now.label p definition.now.reserve
        ≡ bound_len c binding.now definition.now.reserve) }
{
    let ingredients = carried.ingredients.as_slice();
    parts_over(alloc, hashing, definition, ingredients, binding)
}
