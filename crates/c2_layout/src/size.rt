// How long the new store is, before anything of that size is made.
ghost use Rattle.std.specs.Prelude.{◌≡◌, ℕ, ◌-◌, ◌^◌, ◌++◌, ◌∷◌, ◌≤◌, [], IfOk, List, OnOk, length};
ghost use Rattle.std.specs.Prelude.{map, min};
ghost use Rattle.c2_spec.specs.declared.packets.TheConstants.{LEAST_STORE_LEN};
ghost use Rattle.c2_spec.specs.Cbor.Deterministic.{deterministic};
ghost use Rattle.c2_spec.specs.Jumbf.Tree.{trees_bytes};
ghost use Rattle.c2_claim.specs.Written.{claim_item};
ghost use Rattle.c2_new_file_spec.specs.Built as built;
ghost use Rattle.c2_new_file_spec.specs.Built.{no_digest};
ghost use Rattle.c2_layout.specs.Parts.{IsContent};
ghost use Rattle.c2_new_file_spec.specs.Store as store;
ghost use Rattle.c2_new_file_spec.specs.Store.{Content};

use crate::carried::Carried;
use crate::claims::claim_of;
use crate::entries::own_ref;
use c2_base::NoMemory;
use c2_definition::{Definition, NewAssertion};
use c2_hash::{Alg, Digest};
use c2_spec::Ref;
use std::alloc::Global;
use std::slice::from_ref;

// How many bytes a store has beside what is carried, its label, its assertions' boxes, its claim and its message.
const STORE_FRAME: u64 = 232;

// How many bytes the box of an assertion has beside its label and its payload.
const ASSERTION_FRAME: u64 = 42;

// How many bytes the boxes of assertions have; 2^64 - 1 where 64 bits can't hold it.
fn boxes_len(all: &[NewAssertion]) -> u64
    ensures { result ≡ min (length (trees_bytes (store.assertion_boxes all.now))) (2 ^ 64 - 1) }
{
    let mut len: u64 = 0;
    for assertion in all {
        len = len.saturating_add(ASSERTION_FRAME);
        len = len.saturating_add(assertion.label.as_str().len() as u64);
        len = len.saturating_add(assertion.bytes.as_slice().len() as u64);
    }
    len
}

// Appends references to assertions, with digests of zero bytes, as many as one by this algorithm has.
fn push_blank(
    alloc: Global,
    alg: Alg,
    entries: &mut Vec<Ref>,
    all: &[NewAssertion],
) -> Result<(), NoMemory>
    ensures { OnOk result (entries.new.items
        ≡ entries.old.items ++ map (store.entry_of (no_digest alg)) all.now) }
{
    let blank = Digest::zeros(alg);
    let zeros = blank.as_slice();
    for assertion in all {
        entries.push(own_ref(alloc, assertion.label.as_str(), zeros)?)?;
    }
    Ok(())
}

// How many bytes the claim has of a manifest that has the assertions of a definition, then those of ingredients, and then its binding.
fn claim_len(
    alloc: Global,
    definition: &Definition,
    ingredients: &[NewAssertion],
    binding: &NewAssertion,
) -> Result<u64, NoMemory>
    ensures { IfOk result (λ n. n
        ≡ length (deterministic (claim_item (store.claim_with definition.now
        (map (store.entry_of (no_digest (store.new_alg definition.now)))
        (definition.now.assertions ++ (ingredients.now ++ binding.now ∷ []))))))) }
{
    let alg = definition.alg;
    let mut entries = Vec::new(alloc);
    push_blank(alloc, alg, &mut entries, definition.assertions.as_slice())?;
    push_blank(alloc, alg, &mut entries, ingredients)?;
    push_blank(alloc, alg, &mut entries, from_ref(binding))?;
    let claim = claim_of(alloc, definition, entries)?;
    Ok(claim.as_slice().len() as u64)
}

// How many bytes the boxes have of the assertions of ingredients and of a binding; 2^64 - 1 where 64 bits can't hold it.
fn own_len(ingredients: &[NewAssertion], binding: &NewAssertion) -> u64
    ensures { result ≡ min (length (trees_bytes
        (store.assertion_boxes (ingredients.now ++ binding.now ∷ [])))) (2 ^ 64 - 1) }
{
    boxes_len(ingredients).saturating_add(boxes_len(from_ref(binding)))
}

/// The length in bytes of the store that is built of a definition and of what is carried of older stores, with this binding and with the
/// bytes that the definition reserves for the signed message; 2^64 - 1 where 64 bits can't hold it. It depends neither on the message nor
/// on digests, and no copy of what is carried is made for it.
pub fn bound_size(
    alloc: Global,
    definition: &Definition,
    carried: &Carried,
    binding: &NewAssertion,
) -> Result<u64, NoMemory>
    ensures len { IfOk result (λ n. (hash : List ℕ → List ℕ) (c : Content)
        → IsContent hash definition.now carried.now c
        → n ≡ min (built.bound_len c binding.now definition.now.reserve) (2 ^ 64 - 1)) }
    ensures least { IfOk result (λ n. LEAST_STORE_LEN ≤ n) }
{
    let ingredients = carried.ingredients.as_slice();
    let claim = claim_len(alloc, definition, ingredients, binding)?;
    let label = definition.label.as_str().len() as u64;
    let boxes = boxes_len(definition.assertions.as_slice());
    let framed = label.saturating_add(STORE_FRAME).saturating_add(boxes);
    let bound = framed.saturating_add(own_len(ingredients, binding));
    let claimed = bound.saturating_add(claim);
    let filled = claimed.saturating_add(definition.reserve as u64);
    Ok(filled.saturating_add(carried.boxes.as_slice().len() as u64))
}
