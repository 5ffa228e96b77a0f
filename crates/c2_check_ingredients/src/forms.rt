// The rules on the form of ingredients, and on where their manifests stand.
ghost use Rattle.std.specs.Prelude.{◌≡◌, IfOk};
ghost use Rattle.c2_rules.specs.Chains.{label_in};
ghost use Rattle.c2_rules.specs.Ingredients as form;
ghost use Rattle.c2_rules.specs.Rules as rules;
ghost use Rattle.c2_read_manifests.specs.Placed.{seen_in, standing_in};
ghost use Rattle.c2_rules.specs.Tests.{each, first_failing};
ghost use Rattle.c2_rules.specs.declared.parsed.Parsed.TheVariants.{Value};

use c2_assertion::Kind;
use c2_base::NoMemory;
use c2_check_facts::{at_assertion, label_kind};
use c2_read_manifests::{
    AssertionBox, Placed, ReadManifest, box_label, ingredient, label, named, place_of,
};
use c2_rules::{Code, Failing, Parsed};
use c2_spec::Ingredient;
use std::alloc::Global;

/// What fails at this ingredient box by where the manifest with this label stands, which it names.
#[tactic(auto, using(crate::proofs::StandingLemmas::stands_earlier))]
fn check_order(
    alloc: Global,
    at: &Placed<'_, '_>,
    own: &ReadManifest<'_>,
    name: &str,
    target: &str,
) -> Result<Option<Failing>, NoMemory>
    ensures { let tests =
        rules.order_tests (form.assertion_uri (label_in own.now) name.now)
        (standing_in at.now target.now) in
        IfOk result (λ found. found ≡ first_failing tests) }
{
    let Some(place) = place_of(at.all, target) else {
        return at_assertion(alloc, label(own), name, Code::IngredientManifestMissing);
    };
    if place < at.place {
        return Ok(None);
    }
    at_assertion(alloc, label(own), name, Code::UnsupportedIngredientOrder)
}

/// What fails at this ingredient box by what it names.
fn check_reference(
    alloc: Global,
    at: &Placed<'_, '_>,
    own: &ReadManifest<'_>,
    name: &str,
    g: &Ingredient,
) -> Result<Option<Failing>, NoMemory>
    ensures { let tests =
        rules.parsed_tests (standing_in at.now)
        (form.assertion_uri (label_in own.now) name.now) (Value g.now) in
        IfOk result (λ found. found ≡ first_failing tests) }
{
    let Some(manifest) = &g.manifest else {
        return Ok(None);
    };
    match named(manifest.url.as_str()) {
        Some(target) => check_order(alloc, at, own, name, target),
        None => Ok(None),
    }
}

/// What fails at this ingredient box of a version that is read.
fn check_parsed(
    alloc: Global,
    at: &Placed<'_, '_>,
    own: &ReadManifest<'_>,
    name: &str,
    reading: &Parsed<Ingredient>,
) -> Result<Option<Failing>, NoMemory>
    ensures { let tests =
        rules.parsed_tests (standing_in at.now)
        (form.assertion_uri (label_in own.now) name.now) reading.now in
        IfOk result (λ found. found ≡ first_failing tests) }
{
    match reading {
        Parsed::NoItem => at_assertion(alloc, label(own), name, Code::AssertionCborInvalid),
        Parsed::NoForm => at_assertion(alloc, label(own), name, Code::ProfileIngredientForm),
        Parsed::Value(g) => check_reference(alloc, at, own, name, g),
    }
}

/// What fails at the box with this label, by the kind that the label tells.
fn check_kind(
    alloc: Global,
    at: &Placed<'_, '_>,
    own: &ReadManifest<'_>,
    name: &str,
    reading: &Parsed<Ingredient>,
) -> Result<Option<Failing>, NoMemory>
    ensures { let tests =
        rules.kind_tests (standing_in at.now)
        (form.assertion_uri (label_in own.now) name.now) reading.now (rules.label_kind name.now) in
        IfOk result (λ found. found ≡ first_failing tests) }
{
    match label_kind(name) {
        Kind::Ingredient => check_parsed(alloc, at, own, name, reading),
        Kind::IngredientOther => at_assertion(
            alloc,
            label(own),
            name,
            Code::UnsupportedIngredientVersion,
        ),
        _ => Ok(None),
    }
}

/// What fails at this assertion box, where it is one of an ingredient.
fn check_form(
    alloc: Global,
    at: &Placed<'_, '_>,
    own: &ReadManifest<'_>,
    b: &AssertionBox<'_>,
) -> Result<Option<Failing>, NoMemory>
    ensures { let tests = rules.form_tests (seen_in at.now own.now) b.now in
        IfOk result (λ found. found ≡ first_failing tests) }
{
    match box_label(b) {
        Some(name) => check_kind(alloc, at, own, name, ingredient(b)),
        None => Ok(None),
    }
}

/// What fails first at these assertion boxes by their form.
#[tactic(auto, using(c2_rules::proofs::TestLemmas::each_passed))]
pub fn check_forms(
    alloc: Global,
    at: &Placed<'_, '_>,
    own: &ReadManifest<'_>,
    boxes: &[AssertionBox<'_>],
) -> Result<Option<Failing>, NoMemory>
    ensures { let tests =
        each (λ k b. rules.form_tests (seen_in at.now own.now) b) 0 boxes.now in
        IfOk result (λ found. found ≡ first_failing tests) }
{
    for (k, b) in boxes.iter().enumerate() {
        let found = check_form(alloc, at, own, b)?;
        if let Some(failing) = found {
            return Ok(Some(failing));
        }
    }
    Ok(None)
}
