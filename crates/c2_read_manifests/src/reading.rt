// Reading the boxes of a store.
ghost use Rattle.std.specs.Prelude.{◌≡◌, ◌<◌, All, IfOk, IfSome, Some, map, option_map};
ghost use Rattle.std.specs.List.{AllZip};
ghost use Rattle.c2_spec.specs.C2pa.Assertion.{ingredient_of};
ghost use Rattle.c2_spec.specs.Cbor.View.{view};
ghost use Rattle.c2_spec.specs.C2pa.Claim.{claim_of};
ghost use Rattle.c2_spec.specs.Jumbf.Boxes.{tree_count};
ghost use Rattle.c2_spec.specs.C2pa.Manifest.{superbox_at};
ghost use Rattle.c2_spec.specs.C2pa.Sign1.{IsHeader, parts_of};
ghost use Rattle.c2_rules.specs.Ingredients as ingredients;
ghost use Rattle.c2_rules.specs.Readings.{IsParsed, IsMessageOf, IsReadBox};
ghost use Rattle.c2_read_manifests.specs.Parsing.{claim_parsed, ingredient_parsed};

use crate::kept::{AssertionBox, StoreBox};
use c2_assertion::{Kind, ingredient_version, kind, read_ingredient};
use c2_base::NoMemory;
use c2_cbor::decode_whole;
use c2_claim::read;
use c2_jumbf::{Tree, contents, label_of};
use c2_rules::Parsed;
use c2_sigstruct::{SignError, read_sign1};
use c2_spec::{
    CborError, Claim, ClaimError, ClaimVersion, FieldError, Ingredient, IngredientVersion, Sign1,
};
use c2_store::item;
use std::alloc::Global;

/// A box of the tree.
pub fn store_box<'t>(tree: &'t Tree<'_>, k: usize) -> StoreBox<'t>
    requires { k < tree_count tree.now }
    ensures { result ≡ superbox_at tree.now k }
{
    StoreBox {
        label: label_of(tree, k),
        contents: contents(tree, k),
        item: item(tree, k),
    }
}

/// What bytes are read as, by what they were read as a claim; nothing where memory ran out.
fn parsed_claim(found: Result<Claim, ClaimError>) -> Option<Parsed<Claim>>
    ensures { result ≡ claim_parsed found }
{
    match found {
        Ok(claim) => Some(Parsed::Value(claim)),
        Err(error) => match error {
            ClaimError::Cbor(_) => Some(Parsed::NoItem),
            ClaimError::Fields(_) => Some(Parsed::NoForm),
            ClaimError::NoMemory => None,
        },
    }
}

/// What claim bytes are read as under this version.
pub fn read_claim(
    alloc: Global,
    version: ClaimVersion,
    bytes: &[u8],
) -> Result<Parsed<Claim>, NoMemory>
    ensures { IfOk result (λ p. IsParsed (claim_of version) (Some bytes.now) p) }
{
    let found = read(alloc, version, bytes);
    match parsed_claim(found) {
        Some(parsed) => Ok(parsed),
        None => Err(NoMemory),
    }
}

/// What an item is read as, by what it was read as an ingredient; nothing where memory ran out.
fn parsed_ingredient(found: Result<Ingredient, FieldError>) -> Option<Parsed<Ingredient>>
    ensures { result ≡ ingredient_parsed found }
{
    match found {
        Ok(value) => Some(Parsed::Value(value)),
        Err(error) => match error {
            FieldError::NoMemory => None,
            _ => Some(Parsed::NoForm),
        },
    }
}

/// What the payload of an ingredient's box is read as under this version.
pub fn read_payload(
    alloc: Global,
    version: IngredientVersion,
    bytes: &[u8],
) -> Result<Parsed<Ingredient>, NoMemory>
    ensures { IfOk result (λ p. IsParsed (ingredient_of version) (Some bytes.now) p) }
{
    let item = match decode_whole(alloc, bytes) {
        Ok(item) => item,
        Err(CborError::NoMemory) => return Err(NoMemory),
        Err(_) => return Ok(Parsed::NoItem),
    };
    let found = read_ingredient(alloc, version, &item);
    match parsed_ingredient(found) {
        Some(parsed) => Ok(parsed),
        None => Err(NoMemory),
    }
}

/// The signed message that the item of a signature box is.
pub fn read_message(alloc: Global, bytes: &[u8]) -> Result<Option<Sign1>, NoMemory>
    ensures message { IfOk result (λ m. IsMessageOf (Some bytes.now) (option_map parts_of m)) }
    ensures header { IfOk result (λ m. IfSome m (λ s. IsHeader (view s.unprotected))) }
{
    match read_sign1(alloc, bytes) {
        Ok(sign) => Ok(Some(sign)),
        Err(SignError::NoMemory) => Err(NoMemory),
        Err(SignError::Form) => Ok(None),
    }
}

/// Whether a box has a label of ingredients.
fn is_ingredient(b: &StoreBox<'_>) -> bool
    ensures { result ≡ ingredients.is_ingredient b.now }
{
    match b.label {
        Some(name) => match kind(name) {
            Kind::Ingredient => true,
            _ => false,
        },
        None => false,
    }
}

/// The version that a box of an ingredient is read under.
fn version_in(b: &StoreBox<'_>) -> IngredientVersion
    ensures { result ≡ ingredients.box_version b.now }
{
    match b.label {
        Some(name) => ingredient_version(name).unwrap_or(IngredientVersion::V3),
        None => IngredientVersion::V3,
    }
}

/// The item of a box.
fn payload<'c>(b: &'c StoreBox<'_>) -> Option<&'c [u8]>
    ensures { option_map (λ x. x.now) result ≡ b.now.item }
{
    b.item
}

/// What an assertion box is read as, where it is one of an ingredient.
fn read_ingredient_box(alloc: Global, b: &StoreBox<'_>) -> Result<Parsed<Ingredient>, NoMemory>
    ensures { IfOk result (λ p. IsReadBox b.now (record { boxed = b.now; ingredient = p })) }
{
    if !is_ingredient(b) {
        return Ok(Parsed::NoItem);
    }
    match payload(b) {
        Some(bytes) => read_payload(alloc, version_in(b), bytes),
        None => Ok(Parsed::NoItem),
    }
}

/// What the assertion box with this index comes to.
fn read_box<'t>(alloc: Global, tree: &'t Tree<'_>, k: usize) -> Result<AssertionBox<'t>, NoMemory>
    requires { k < tree_count tree.now }
    ensures { IfOk result (λ r. IsReadBox (superbox_at tree.now k) r) }
{
    let boxed = store_box(tree, k);
    let ingredient = read_ingredient_box(alloc, &boxed)?;
    Ok(AssertionBox { boxed, ingredient })
}

/// What the assertion boxes with these indices come to.
pub fn read_boxes<'t>(
    alloc: Global,
    tree: &'t Tree<'_>,
    boxes: &[usize],
) -> Result<Vec<AssertionBox<'t>>, NoMemory>
    requires { All (λ k. k < tree_count tree.now) boxes.now }
    ensures { IfOk result (λ v. AllZip IsReadBox (map (superbox_at tree.now) boxes.now) v.items) }
{
    let mut found = Vec::new(alloc);
    for i in 0..boxes.len() {
        let own = read_box(alloc, tree, boxes[i])?;
        found.push(own)?;
    }
    Ok(found)
}
