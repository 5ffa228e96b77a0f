// What is kept of a manifest: its boxes as they lie in the store, and what those are read as that the rules look into.
ghost use Rattle.std.specs.Prelude.{◌≡◌, Some, option_map};
ghost use Rattle.c2_spec.specs.Cbor.View.{view};
ghost use Rattle.c2_rules.specs.Chains.{label_in};
ghost use Rattle.c2_rules.specs.Questions as questions;
ghost use Rattle.c2_rules.specs.Readings as readings;

use c2_rules::Parsed;
use c2_spec::{Claim, Ingredient, Sign1};
use std::marker::Model;

/// A box of the store: its label where it has one, its bytes behind its own header, and its item.
#[derive(Drop)]
pub struct StoreBox<'t> {
    pub label: Option<&'t str>,
    pub contents: &'t [u8],
    pub item: Option<&'t [u8]>,
}

impl<'t> Model for StoreBox<'t> {
    ghost use Rattle.std.specs.Prelude.{option_map};
    ghost use Rattle.c2_spec.specs.C2pa.Manifest.{Superbox};

    ghost Value = { Superbox };

    ghost view = { λ b. record {
      label = option_map (λ x. x.now) b.label;
      contents = b.contents.now;
      item = option_map (λ x. x.now) b.item;
    } };
}

/// An assertion box, and what it is read as where it is one of an ingredient.
#[derive(Drop)]
pub struct AssertionBox<'t> {
    pub boxed: StoreBox<'t>,
    pub ingredient: Parsed<Ingredient>,
}

impl<'t> Model for AssertionBox<'t> {
    ghost use Rattle.c2_rules.specs.Readings.{ReadBox};

    ghost Value = { ReadBox };

    ghost view = { λ b. record { boxed = b.boxed; ingredient = b.ingredient } };
}

/// A manifest, and what its claim, its signature and its assertion boxes are read as.
#[derive(Drop)]
pub struct ReadManifest<'t> {
    pub label: Option<&'t str>,
    pub contents: &'t [u8],
    pub is_update: bool,
    pub claims: Vec<StoreBox<'t>>,
    pub signature: Option<StoreBox<'t>>,
    pub claim: Parsed<Claim>,
    pub message: Option<Sign1>,
    pub boxes: Vec<AssertionBox<'t>>,
}

impl<'t> Model for ReadManifest<'t> {
    ghost use Rattle.std.specs.Prelude.{map, option_map};
    ghost use Rattle.std.specs.Coded.{codes};
    ghost use Rattle.c2_spec.specs.C2pa.Sign1.{parts_of};
    ghost use Rattle.c2_rules.proofs.ItemCode.{item_code};
    ghost use Rattle.c2_rules.specs.Readings.{ReadBox, Reading};
    ghost use Rattle.c2_read_manifests.specs.Kept.{HasHeader};

    ghost Value = { Reading };

    ghost coded = { Prim.hlevel (codes, item_code) };

    ghost view = { λ k. record {
      manifest = record {
        label = option_map (λ x. x.now) k.label;
        contents = k.contents.now;
        is_update = k.is_update;
        claims = k.claims.items;
        signature = k.signature;
        assertions = map (λ (b : ReadBox). b.boxed) k.boxes.items;
      };
      claim = k.claim;
      message = option_map parts_of k.message;
      boxes = k.boxes.items;
    } };

    ghost invariant = { λ k. HasHeader k.message };
}

/// The manifest's label.
pub fn label<'c>(own: &'c ReadManifest<'_>) -> &'c str
    ensures { result.now ≡ label_in own.now }
{
    match own.label {
        Some(label) => label,
        None => "",
    }
}

/// Whether a URI with this manifest, or with none, names a box of this one.
pub fn is_own(own: &ReadManifest<'_>, named: Option<&str>) -> bool
    ensures { result ≡ questions.is_own own.now.manifest (option_map (λ x. x.now) named.entry) }
{
    match named {
        Some(other) => match own.label {
            Some(label) => label == other,
            None => false,
        },
        None => true,
    }
}

/// The claim of a manifest, where it has one.
pub fn claim_in<'c>(own: &'c ReadManifest<'_>) -> Option<&'c Claim>
    ensures { option_map (λ c. c.now) result ≡ readings.claim_in own.now }
{
    match &own.claim {
        Parsed::Value(claim) => Some(claim),
        Parsed::NoItem | Parsed::NoForm => None,
    }
}

/// The assertion boxes of a manifest.
pub fn boxes<'c, 't>(own: &'c ReadManifest<'t>) -> &'c [AssertionBox<'t>]
    ensures { result.now ≡ own.now.boxes }
{
    own.boxes.as_slice()
}

/// The label of an assertion box, where it has one.
pub fn box_label<'c>(b: &'c AssertionBox<'_>) -> Option<&'c str>
    ensures { option_map (λ x. x.now) result ≡ b.now.boxed.label }
{
    b.boxed.label
}

/// What an assertion box is read as.
pub fn ingredient<'c>(b: &'c AssertionBox<'_>) -> &'c Parsed<Ingredient>
    ensures { result.now ≡ b.now.ingredient }
{
    &b.ingredient
}

/// Whether a manifest is an update.
pub fn is_update(own: &ReadManifest<'_>) -> bool
    ensures { result ≡ own.now.manifest.is_update }
{
    own.is_update
}
