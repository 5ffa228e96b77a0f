// The rules on ingredients: those whose manifest is a child, by its digests; and all of them, by their form.
ghost use Rattle.std.specs.Prelude.{◌≡◌, IfOk, option_map};
ghost use Rattle.c2_rules.specs.Rules as rules;
ghost use Rattle.c2_rules.specs.Seen.{child_standing, signature_contents};
ghost use Rattle.c2_read_manifests.specs.Placed.{seen_in, standing_in};
ghost use Rattle.c2_rules.specs.Tests.{each, first_failing};
ghost use Rattle.c2_check_facts.specs.Facts.{AreFacts, HasDigestsOf};

use c2_base::NoMemory;
use c2_check_facts::{ChildFact, KnownStore, at_box, fact_at, has_known_digest, is_known};
use c2_hash::Hashing;
use c2_read_manifests::{
    AssertionBox, ReadManifest, box_label, ingredient, manifests, named as label_named, place_of,
};
use c2_rules::{Code, Failing, Parsed};
use c2_spec::{Ingredient, Ref};
use std::alloc::Global;

/// What an ingredient names by these references: a manifest with this label, and its signature where it names that too.
#[derive(Clone, Copy)]
struct Named<'g> {
    manifest: &'g Ref,
    sign: &'g Option<Ref>,
    label: &'g str,
}

/// A child, and what was found out of it.
#[derive(Clone, Copy)]
struct Child<'c, 't> {
    own: &'c ReadManifest<'t>,
    fact: &'c ChildFact,
}

/// Whether an algorithm of two references isn't known.
fn has_unknown(own: &ReadManifest<'_>, manifest: &Ref, sign: &Option<Ref>) -> bool
    ensures { result ≡ rules.has_unknown own.now manifest.now sign.now }
{
    if !is_known(own, &manifest.alg) {
        return true;
    }
    match sign {
        Some(sign) => !is_known(own, &sign.alg),
        None => false,
    }
}

/// Whether a reference to a signature is there, and isn't that of the signature box of this child.
#[tactic(auto, using(crate::proofs::ChildLemmas::signed_here))]
fn is_wrong_signature<H: Hashing>(
    hashing: &H,
    own: &ReadManifest<'_>,
    sign: &Option<Ref>,
    child: &Child<'_, '_>,
) -> bool
    requires { HasDigestsOf H.digest_of child.now.own.now child.now.fact.now }
    ensures { let contents = signature_contents child.now.own.now in
        result ≡ rules.is_wrong_signature H.digest_of own.now sign.now contents }
{
    let Some(sign) = sign else {
        return false;
    };
    let Child { own: kept, fact } = *child;
    let Some(found) = &kept.signature else {
        return true;
    };
    !has_known_digest(
        hashing,
        own,
        &sign.alg,
        found.contents,
        &fact.signed,
        sign.hash.as_slice(),
    )
}

/// What fails of an ingredient box by these references to a child.
fn check_child<H: Hashing>(
    alloc: Global,
    hashing: &H,
    own: &ReadManifest<'_>,
    name: Option<&str>,
    named: &Named<'_>,
    child: &Child<'_, '_>,
) -> Result<Option<Failing>, NoMemory>
    requires { HasDigestsOf H.digest_of child.now.own.now child.now.fact.now }
    ensures { let uri = rules.assertion_box_uri own.now (option_map (λ x. x.now) name.entry) in
        let standing = child_standing child.now.fact.now.touched child.now.own.now in
        let tests =
        rules.standing_tests H.digest_of own.now uri named.now.manifest.now
        named.now.sign.now standing in
        IfOk result (λ found. found ≡ first_failing tests) }
{
    if has_unknown(own, named.manifest, named.sign) {
        return at_box(alloc, own, name, Code::AlgorithmUnsupported);
    }
    let Child { own: kept, fact } = *child;
    if fact.touched {
        if named.sign.is_none() || is_wrong_signature(hashing, own, named.sign, child) {
            return at_box(alloc, own, name, Code::ProfileIngredientSignature);
        }
        return Ok(None);
    }
    if is_wrong_signature(hashing, own, named.sign, child) {
        return at_box(alloc, own, name, Code::ProfileIngredientSignature);
    }
    if !has_known_digest(
        hashing,
        own,
        &named.manifest.alg,
        kept.contents,
        &fact.whole,
        named.manifest.hash.as_slice(),
    ) {
        return at_box(alloc, own, name, Code::IngredientManifestMismatch);
    }
    Ok(None)
}

/// What fails of an ingredient box by the manifest that it names.
fn check_named<H: Hashing>(
    alloc: Global,
    hashing: &H,
    store: &KnownStore<'_, '_>,
    own: &ReadManifest<'_>,
    name: Option<&str>,
    named: &Named<'_>,
) -> Result<Option<Failing>, NoMemory>
    requires { AreFacts H.digest_of store.now.at.all.now store.now.facts.now }
    ensures { let uri = rules.assertion_box_uri own.now (option_map (λ x. x.now) name.entry) in
        let standing = standing_in store.now.at named.now.label.now in
        let tests =
        rules.standing_tests H.digest_of own.now uri named.now.manifest.now
        named.now.sign.now standing in
        IfOk result (λ found. found ≡ first_failing tests) }
{
    let Some(place) = place_of(store.at.all, named.label) else {
        return Ok(None);
    };
    if place >= store.at.place {
        return Ok(None);
    }
    let fact = fact_at(hashing, store.at.all, store.facts, place);
    let child = Child {
        own: &manifests(store.at.all)[place],
        fact: &fact,
    };
    check_child(alloc, hashing, own, name, named, &child)
}

/// What fails of an ingredient box by what it is read as.
fn check_reading<H: Hashing>(
    alloc: Global,
    hashing: &H,
    store: &KnownStore<'_, '_>,
    own: &ReadManifest<'_>,
    name: Option<&str>,
    g: &Ingredient,
) -> Result<Option<Failing>, NoMemory>
    requires { AreFacts H.digest_of store.now.at.all.now store.now.facts.now }
    ensures { let tests =
        rules.child_tests H.digest_of (seen_in store.now.at own.now)
        (rules.assertion_box_uri own.now (option_map (λ x. x.now) name.entry)) g.now in
        IfOk result (λ found. found ≡ first_failing tests) }
{
    let Some(manifest) = &g.manifest else {
        return Ok(None);
    };
    let Some(label) = label_named(manifest.url.as_str()) else {
        return Ok(None);
    };
    let named = Named {
        manifest,
        sign: &g.signature,
        label,
    };
    check_named(alloc, hashing, store, own, name, &named)
}

/// What fails of an ingredient box whose manifest is a child.
fn check_ingredient<H: Hashing>(
    alloc: Global,
    hashing: &H,
    store: &KnownStore<'_, '_>,
    own: &ReadManifest<'_>,
    b: &AssertionBox<'_>,
) -> Result<Option<Failing>, NoMemory>
    requires { AreFacts H.digest_of store.now.at.all.now store.now.facts.now }
    ensures { let tests = rules.ingredient_tests H.digest_of (seen_in store.now.at own.now) b.now in
        IfOk result (λ found. found ≡ first_failing tests) }
{
    match ingredient(b) {
        Parsed::Value(g) => check_reading(alloc, hashing, store, own, box_label(b), g),
        Parsed::NoItem | Parsed::NoForm => Ok(None),
    }
}

/// What fails first of these ingredient boxes of a manifest whose manifests are children.
#[tactic(auto, using(c2_rules::proofs::TestLemmas::each_passed))]
pub fn check_ingredients<H: Hashing>(
    alloc: Global,
    hashing: &H,
    store: &KnownStore<'_, '_>,
    own: &ReadManifest<'_>,
    boxes: &[AssertionBox<'_>],
) -> Result<Option<Failing>, NoMemory>
    requires { AreFacts H.digest_of store.now.at.all.now store.now.facts.now }
    ensures { let tests =
        each (λ k b. rules.ingredient_tests H.digest_of (seen_in store.now.at own.now) b) 0
        boxes.now in
        IfOk result (λ found. found ≡ first_failing tests) }
{
    for (k, b) in boxes.iter().enumerate() {
        let found = check_ingredient(alloc, hashing, store, own, b)?;
        if let Some(failing) = found {
            return Ok(Some(failing));
        }
    }
    Ok(None)
}
