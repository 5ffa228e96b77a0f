// The pairs of one manifest and its counterpart.
ghost use Rattle.std.specs.Prelude.{◌≡◌, ◌∷◌, ◌<◌, [], Some, length, option_map};
ghost use Rattle.std.specs.Option.{option_map_or};
ghost use Rattle.c2_rules.specs.Chains.{entry_label as label_of, named_by};
ghost use Rattle.c2_rules.specs.Ingredients.{is_ingredient_kind};
ghost use Rattle.c2_rules.specs.Rules as rules;
ghost use Rattle.c2_compare_spec.specs.Differences as form;
ghost use Rattle.c2_compare_evidence.specs.Differing.{IsFirstOf};

use crate::stores::{Stores, Target};
use c2_assertion::Kind;
use c2_base::Text;
use c2_check_claim::{Labelled, entry_at, entry_count, find_box, owner};
use c2_check_facts::{alg_name, label_kind};
use c2_compare_content::{claim_bytes, other, signature_contents, target_equality, whole_contents};
use c2_compare_evidence::{Binder, Difference, Location, compare_known, compare_lists};
use c2_read_manifests::{
    ReadManifest, ReadManifests, entry_label, ingredient, is_redacted, label, named,
};
use c2_rules::Parsed;
use c2_spec::{Ingredient, Ref};

/// The contents of the assertion box with this label; none where there is no box.
fn contents_with<'a>(own: &Labelled<'a, '_>, name: &str) -> &'a [u8]
    ensures { result.now ≡ form.contents_with own.now name.now }
{
    match find_box(own, name) {
        Some(found) => found.boxed.contents,
        None => &[],
    }
}

/// The ingredient that the box with this label is read as.
fn ingredient_with<'a>(own: &Labelled<'a, '_>, name: &str) -> Option<&'a Ingredient>
    ensures { option_map (λ g. g.now) result ≡ form.ingredient_with own.now name.now }
{
    match find_box(own, name) {
        Some(found) => match ingredient(found) {
            Parsed::Value(g) => Some(g),
            _ => None,
        },
        None => None,
    }
}

/// The boxes with this label, which an entry lists, where they differ.
pub fn box_difference<'a>(
    left: &Labelled<'a, '_>,
    right: &Labelled<'a, '_>,
    entry: &'a Ref,
    name: &'a str,
) -> Option<Difference<'a>>
    ensures { IsFirstOf (form.box_pair left.now right.now entry.now name.now ∷ []) result }
{
    let own = owner(left);
    compare_lists(
        Binder::Digest(alg_name(own, &entry.alg)),
        Location::Assertion(label(own), name),
        contents_with(left, name),
        contents_with(right, name),
    )
}

/// The signature boxes of manifests that an ingredient refers to, where they differ.
fn signature_difference<'a>(
    own: &'a ReadManifest<'_>,
    reference: &'a Ref,
    target: &Target<'a, '_, '_>,
) -> Option<Difference<'a>>
    ensures { let left = option_map (λ k. k.now) target.now.left in
        let right = option_map (λ k. k.now) target.now.right in
        let name = target.now.name.now in
        IsFirstOf (form.signature_pair own.now reference.now name left right ∷ []) result }
{
    compare_known(
        target.known.signatures,
        Binder::Digest(alg_name(own, &reference.alg)),
        Location::Signature(target.name),
        signature_contents(target.left),
        signature_contents(target.right),
    )
}

/// The claims under that signature, where they differ.
fn claim_difference<'a>(target: &Target<'a, '_, '_>) -> Option<Difference<'a>>
    ensures { let left = option_map (λ k. k.now) target.now.left in
        let right = option_map (λ k. k.now) target.now.right in
        IsFirstOf (form.claim_pair target.now.name.now left right ∷ []) result }
{
    compare_known(
        target.known.claims,
        Binder::Signature(signature_contents(target.left)),
        Location::Signature(target.name),
        claim_bytes(target.left),
        claim_bytes(target.right),
    )
}

/// The contents of manifests that an ingredient refers to as a whole, where they differ.
fn whole_difference<'a>(
    own: &'a ReadManifest<'_>,
    alg: &'a Option<Text>,
    target: &Target<'a, '_, '_>,
) -> Option<Difference<'a>>
    ensures { let left = option_map (λ k. k.now) target.now.left in
        let right = option_map (λ k. k.now) target.now.right in
        let name = target.now.name.now in
        IsFirstOf (form.whole_pair own.now alg.now name left right ∷ []) result }
{
    compare_known(
        target.known.contents,
        Binder::Digest(alg_name(own, alg)),
        Location::Whole(target.name),
        whole_contents(target.left),
        whole_contents(target.right),
    )
}

/// What binds the manifests that an ingredient names by this reference, where it differs.
fn target_difference<'a>(
    own: &'a ReadManifest<'_>,
    g: &'a Ingredient,
    manifest: &'a Ref,
    target: &Target<'a, '_, '_>,
) -> Option<Difference<'a>>
    requires { g.now.manifest ≡ Some manifest.now }
    ensures { let left = option_map (λ k. k.now) target.now.left in
        let right = option_map (λ k. k.now) target.now.right in
        let name = target.now.name.now in
        IsFirstOf (form.target_pairs own.now g.now g.now.signature name left right) result }
{
    match &g.signature {
        Some(reference) => {
            if let Some(found) = signature_difference(own, reference, target) {
                return Some(found);
            }
            claim_difference(target)
        }
        None => whole_difference(own, &manifest.alg, target),
    }
}

/// What binds the manifests that an ingredient names, where it differs.
fn named_difference<'a>(
    stores: &Stores<'a, '_, '_, '_>,
    own: &'a ReadManifest<'_>,
    g: &'a Ingredient,
) -> Option<Difference<'a>>
    ensures { let label = named_by (Some g.now) in
        let pairs =
        form.label_pairs stores.now.first.now stores.now.second.now own.now g.now label in
        IsFirstOf pairs result }
{
    let Some(manifest) = &g.manifest else {
        return None;
    };
    match named(manifest.url.as_str()) {
        Some(name) => {
            let left = other(stores.first, name);
            let right = other(stores.second, name);
            let known = target_equality(stores.first, stores.second, stores.known, name);
            let target = Target {
                name,
                left,
                right,
                known,
            };
            target_difference(own, g, manifest, &target)
        }
        None => None,
    }
}

/// Whether this is the label of an ingredient of a version that is read.
fn is_ingredient(name: &str) -> bool
    ensures { result ≡ is_ingredient_kind (rules.label_kind name.now) }
{
    match label_kind(name) {
        Kind::Ingredient => true,
        _ => false,
    }
}

/// What leads from an entry with this label to ingredients, where it differs.
fn ingredient_difference<'a>(
    stores: &Stores<'a, '_, '_, '_>,
    left: &Labelled<'a, '_>,
    right: &Labelled<'a, '_>,
    entry: &'a Ref,
    name: &'a str,
) -> Option<Difference<'a>>
    ensures { let found = form.ingredient_with left.now name.now in
        IsFirstOf (form.box_pair left.now right.now entry.now name.now
        ∷ form.named_pairs stores.now.first.now stores.now.second.now left.now found) result }
{
    if let Some(found) = box_difference(left, right, entry, name) {
        return Some(found);
    }
    match ingredient_with(left, name) {
        Some(g) => named_difference(stores, owner(left), g),
        None => None,
    }
}

/// What leads from an entry to ingredients, where it differs.
fn entry_ingredient<'a>(
    stores: &Stores<'a, '_, '_, '_>,
    left: &Labelled<'a, '_>,
    right: &Labelled<'a, '_>,
    entry: &'a Ref,
) -> Option<Difference<'a>>
    ensures { let first = stores.now.first.now in
        let pairs = form.ingredient_pairs first stores.now.second.now left.now right.now in
        let label = label_of left.now.manifest entry.now in
        IsFirstOf (option_map_or (pairs entry.now) label []) result }
{
    match entry_label(owner(left), entry) {
        Some(name) => {
            let leads = is_ingredient(name);
            if leads {
                return ingredient_difference(stores, left, right, entry, name);
            }
            None
        }
        None => None,
    }
}

/// What leads from a manifest to its ingredients, where it differs.
#[tactic(auto, using(crate::proofs::Found::each_found, crate::proofs::Found::each_passed))]
pub fn ingredients_difference<'a>(
    stores: &Stores<'a, '_, '_, '_>,
    left: &Labelled<'a, '_>,
    right: &Labelled<'a, '_>,
) -> Option<Difference<'a>>
    ensures { let first = stores.now.first.now in
        let pairs = form.ingredient_pairs first stores.now.second.now left.now right.now in
        IsFirstOf (form.entry_pairs pairs left.now) result }
{
    for k in 0..entry_count(left) {
        let entry = entry_at(left, k);
        let found = entry_ingredient(stores, left, right, entry);
        if let Some(found) = found {
            return Some(found);
        }
    }
    None
}

/// The boxes that an entry lists, where it isn't redacted and they differ.
fn entry_unredacted<'a>(
    first: &'a ReadManifests<'_>,
    n: usize,
    left: &Labelled<'a, '_>,
    right: &Labelled<'a, '_>,
    entry: &'a Ref,
) -> Option<Difference<'a>>
    requires { n < length first.now }
    ensures { let pairs = form.unredacted_pairs first.now n left.now right.now in
        let label = label_of left.now.manifest entry.now in
        IsFirstOf (option_map_or (pairs entry.now) label []) result }
{
    match entry_label(owner(left), entry) {
        Some(name) => {
            let redacted = is_redacted(first, n, name);
            if redacted {
                return None;
            }
            box_difference(left, right, entry, name)
        }
        None => None,
    }
}

/// The assertions of a manifest that aren't redacted, where they differ.
#[tactic(auto, using(crate::proofs::Found::each_found, crate::proofs::Found::each_passed))]
pub fn unredacted_difference<'a>(
    first: &'a ReadManifests<'_>,
    n: usize,
    left: &Labelled<'a, '_>,
    right: &Labelled<'a, '_>,
) -> Option<Difference<'a>>
    requires { n < length first.now }
    ensures { let pairs = form.unredacted_pairs first.now n left.now right.now in
        IsFirstOf (form.entry_pairs pairs left.now) result }
{
    for k in 0..entry_count(left) {
        let entry = entry_at(left, k);
        let found = entry_unredacted(first, n, left, right, entry);
        if let Some(found) = found {
            return Some(found);
        }
    }
    None
}
