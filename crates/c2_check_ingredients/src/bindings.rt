// The rules on bindings to the file and on parents.
ghost use Rattle.std.specs.Prelude.{◌≡◌, ◌<◌, ◌++◌, ◌&&◌, ℕ, List, Some, None, IfOk, OnOk, map};
ghost use Rattle.std.specs.Prelude.{filter, filter_map, length, option_map, option_to_list};
ghost use Rattle.std.specs.Prelude.{slice_get, if◌then◌else◌};
ghost use Rattle.std.specs.List.{list_any};
ghost use Rattle.c2_rules.specs.Chains as chains;
ghost use Rattle.c2_rules.specs.Readings.{ReadBox};
ghost use Rattle.c2_rules.specs.Ingredients as ingredients;
ghost use Rattle.c2_rules.specs.Rules as rules;
ghost use Rattle.c2_read_manifests.specs.Placed.{seen_in};
ghost use Rattle.c2_rules.specs.Tests.{over_all, first_failing};
ghost use Rattle.c2_check_ingredients.specs.Counts.{count_tests, parent_tests, number_tests};
ghost use Rattle.c2_check_ingredients.specs.Counts.{bound_tests, update_tests};

use c2_assertion::{Kind, Relationship, kind};
use c2_base::NoMemory;
use c2_check_facts::{at_assertion, at_box, at_claim, at_manifest, is_hash, label_kind};
use c2_read_manifests::{
    AssertionBox, Placed, ReadManifest, box_label, boxes, entry_label, ingredient, is_active,
    is_update, label,
};
use c2_rules::{Code, Failing, Parsed};
use c2_spec::{Ingredient, Ref};
use std::alloc::Global;

fn is_other_hash(what: Kind) -> bool
    ensures { result ≡ rules.is_other_hash what }
{
    match what {
        Kind::OtherHash => true,
        _ => false,
    }
}

fn is_binding(what: Kind) -> bool
    ensures { result ≡ rules.is_binding what }
{
    match what {
        Kind::DataHash => true,
        Kind::BmffHash => true,
        _ => false,
    }
}

/// Adds a label, where there is one.
fn push_label<'c>(found: &mut Vec<&'c str>, name: Option<&'c str>) -> Result<(), NoMemory>
    ensures { OnOk result
        (map (λ x. x.now) found.new.items ≡ map (λ x. x.now) found.old.items
        ++ option_to_list (option_map (λ x. x.now) name.entry)) }
{
    if let Some(name) = name {
        found.push(name)?;
    }
    Ok(())
}

/// Adds the labels that these entries of a manifest's claim list.
fn push_labels<'c>(
    found: &mut Vec<&'c str>,
    own: &ReadManifest<'_>,
    entries: &'c [Ref],
) -> Result<(), NoMemory>
    ensures { OnOk result
        (map (λ x. x.now) found.new.items ≡ map (λ x. x.now) found.old.items
        ++ filter_map (chains.entry_label own.now.manifest) entries.now) }
{
    for (k, entry) in entries.iter().enumerate() {
        let name = entry_label(own, entry);
        push_label(found, name)?;
    }
    Ok(())
}

/// The labels that a manifest's entries list, in order.
#[tactic(auto, using(crate::proofs::LabelLemmas::kept_both))]
fn labels<'c>(alloc: Global, own: &'c ReadManifest<'_>) -> Result<Vec<&'c str>, NoMemory>
    ensures { IfOk result (λ v. map (λ x. x.now) v.items ≡ rules.labels_in own.now) }
{
    let mut found = Vec::new(alloc);
    if let Parsed::Value(claim) = &own.claim {
        push_labels(&mut found, own, claim.created.as_slice())?;
        push_labels(&mut found, own, claim.gathered.as_slice())?;
    }
    Ok(found)
}

/// A label, where it is that of a binding of a kind that is known.
fn binding_label<'c>(name: &'c str) -> Option<&'c str>
    ensures { option_map (λ x. x.now) result ≡
        (if rules.is_binding (rules.label_kind name.now) then Some name.now else None) }
{
    if is_binding(label_kind(name)) {
        return Some(name);
    }
    None
}

/// The label at this place.
fn label_at<'c>(labels: &[&'c str], k: usize) -> &'c str
    requires { k < length labels.now }
    ensures { slice_get (map (λ x. x.now) labels.now) k ≡ Some result.now }
{
    labels[k]
}

/// The labels among these that name a binding of a kind that is known.
fn bindings<'c>(alloc: Global, labels: &[&'c str]) -> Result<Vec<&'c str>, NoMemory>
    ensures { IfOk result
        (λ v. map (λ x. x.now) v.items ≡ filter
        (λ (l : List ℕ). rules.is_binding (rules.label_kind l))
        (map (λ x. x.now) labels.now)) }
{
    let mut found = Vec::new(alloc);
    for k in 0..labels.len() {
        let binding = binding_label(label_at(labels, k));
        push_label(&mut found, binding)?;
    }
    Ok(found)
}

/// Whether one of these labels is of a hash of another kind.
fn has_other_hash(labels: &[&str]) -> bool
    ensures { result ≡ list_any (λ l. rules.is_other_hash (rules.label_kind l.now)) labels.now }
{
    labels.iter().any(|name| is_other_hash(label_kind(*name)))
}

/// Whether one of these labels is of a hash.
fn has_hash(labels: &[&str]) -> bool
    ensures { result ≡ list_any (λ l. rules.is_hash (rules.label_kind l.now)) labels.now }
{
    labels.iter().any(|name| is_hash(label_kind(*name)))
}

/// The second of these labels.
fn second<'c>(labels: &[&'c str]) -> Option<&'c str>
    ensures { option_map (λ x. x.now) result ≡ slice_get (map (λ x. x.now) labels.now) 1 }
{
    match labels {
        [_, second, ..] => Some(*second),
        _ => None,
    }
}

fn is_parent(g: &Ingredient) -> bool
    ensures { result ≡ rules.is_parent_word g.now.relationship }
{
    match g.relationship {
        Relationship::ParentOf => true,
        Relationship::ComponentOf | Relationship::InputTo => false,
    }
}

/// Whether an assertion box is read as an ingredient from which the asset was made.
fn reads_parent(b: &AssertionBox<'_>) -> bool
    ensures { result ≡ rules.reads_parent b.now }
{
    match ingredient(b) {
        Parsed::Value(g) => is_parent(g),
        Parsed::NoItem | Parsed::NoForm => false,
    }
}

fn is_ingredient(b: &AssertionBox<'_>) -> bool
    ensures { result ≡ ingredients.is_ingredient b.now.boxed }
{
    match box_label(b) {
        Some(name) => match kind(name) {
            Kind::Ingredient => true,
            _ => false,
        },
        None => false,
    }
}

fn one_if(wanted: bool) -> usize
    ensures { result ≡ (if wanted then 1 else 0) }
{
    if wanted { 1 } else { 0 }
}

/// How many of these boxes are read as parents.
fn count_parents(boxes: &[AssertionBox<'_>]) -> usize
    ensures { result ≡ length (filter rules.reads_parent boxes.now) }
{
    let mut count = 0;
    for (k, b) in boxes.iter().enumerate() {
        let one = one_if(reads_parent(b));
        count += one;
    }
    count
}

/// How many of these boxes are of ingredients.
fn count_ingredients(boxes: &[AssertionBox<'_>]) -> usize
    ensures { result ≡ length
        (filter (λ (b : ReadBox). ingredients.is_ingredient b.boxed) boxes.now) }
{
    let mut count = 0;
    for (k, b) in boxes.iter().enumerate() {
        let one = one_if(is_ingredient(b));
        count += one;
    }
    count
}

/// Whether one of these boxes of ingredients is read as a parent.
fn has_parent(boxes: &[AssertionBox<'_>]) -> bool
    ensures { result ≡ list_any
        (λ (b : ReadBox). ingredients.is_ingredient b.boxed && rules.reads_parent b)
        boxes.now }
{
    boxes.iter().any(|b| is_ingredient(b) && reads_parent(b))
}

/// Whether these boxes have exactly one of an ingredient, which is read as a parent.
fn is_one_parent(boxes: &[AssertionBox<'_>]) -> bool
    ensures { result ≡ rules.is_one_parent
        (filter (λ (b : ReadBox). ingredients.is_ingredient b.boxed) boxes.now) }
{
    let count = count_ingredients(boxes);
    let any = has_parent(boxes);
    count == 1 && any
}

/// Whether an active manifest has a hash of another kind.
fn is_refused(at: &Placed<'_, '_>, own: &ReadManifest<'_>, name: &str) -> bool
    ensures { result ≡ (rules.hash_kind_test (seen_in at.now own.now) 0 name.now).fails }
{
    is_active(at.all, at.place) && is_other_hash(label_kind(name))
}

/// What fails of an active manifest by hashes of another kind.
fn check_hash_kinds(
    alloc: Global,
    at: &Placed<'_, '_>,
    own: &ReadManifest<'_>,
    labels: &[&str],
) -> Result<Option<Failing>, NoMemory>
    ensures { let tests =
        over_all (rules.hash_kind_test (seen_in at.now own.now)) 0
        (map (λ x. x.now) labels.now) in
        IfOk result (λ found. found ≡ first_failing tests) }
{
    for k in 0..labels.len() {
        let name = label_at(labels, k);
        if is_refused(at, own, name) {
            return at_assertion(alloc, label(own), name, Code::UnsupportedHashKind);
        }
    }
    Ok(None)
}

/// What fails by the number of these bindings and of parents.
fn check_counts(
    alloc: Global,
    own: &ReadManifest<'_>,
    active: bool,
    bindings: &[&str],
    other: bool,
    parents: usize,
) -> Result<Option<Failing>, NoMemory>
    ensures { let tests =
        count_tests own.now active (length bindings.now) other
        (slice_get (map (λ x. x.now) bindings.now) 1) parents in
        IfOk result (λ found. found ≡ first_failing tests) }
{
    let count = bindings.len();
    if count == 0 && (active || !other) {
        return at_claim(alloc, own, Code::ClaimHardBindingsMissing);
    }
    if count > 1 {
        return at_box(
            alloc,
            own,
            second(bindings),
            Code::AssertionMultipleHardBindings,
        );
    }
    if parents > 1 {
        return at_manifest(alloc, own, Code::ManifestMultipleParents);
    }
    Ok(None)
}

/// What fails of an update by its hashes and its ingredients.
fn check_parents(
    alloc: Global,
    own: &ReadManifest<'_>,
    hash: bool,
    one_parent: bool,
) -> Result<Option<Failing>, NoMemory>
    ensures { IfOk result (λ found. found ≡ first_failing (parent_tests own.now hash one_parent)) }
{
    if hash {
        return at_manifest(alloc, own, Code::ManifestUpdateInvalid);
    }
    if !one_parent {
        return at_manifest(alloc, own, Code::ManifestUpdateWrongParents);
    }
    Ok(None)
}

/// What fails of a manifest that is no update, whose entries list these labels and these bindings among them.
#[tactic(auto, using(c2_rules::proofs::TestLemmas::first_failing_append))]
fn check_standard(
    alloc: Global,
    at: &Placed<'_, '_>,
    own: &ReadManifest<'_>,
    labels: &[&str],
    bindings: &[&str],
) -> Result<Option<Failing>, NoMemory>
    ensures { let tests =
        bound_tests (seen_in at.now own.now) (map (λ x. x.now) labels.now)
        (map (λ x. x.now) bindings.now) in
        IfOk result (λ found. found ≡ first_failing tests) }
{
    let found = check_hash_kinds(alloc, at, own, labels)?;
    match found {
        Some(failing) => Ok(Some(failing)),
        None => check_numbers(alloc, at, own, labels, bindings),
    }
}

/// What fails of it by their number and by its parents.
fn check_numbers(
    alloc: Global,
    at: &Placed<'_, '_>,
    own: &ReadManifest<'_>,
    labels: &[&str],
    bindings: &[&str],
) -> Result<Option<Failing>, NoMemory>
    ensures { let tests =
        number_tests (seen_in at.now own.now) (map (λ x. x.now) labels.now)
        (map (λ x. x.now) bindings.now) in
        IfOk result (λ found. found ≡ first_failing tests) }
{
    let active = is_active(at.all, at.place);
    let other = has_other_hash(labels);
    let parents = count_parents(boxes(own));
    check_counts(alloc, own, active, bindings, other, parents)
}

/// What fails of an update, whose entries list these labels.
fn check_update(
    alloc: Global,
    own: &ReadManifest<'_>,
    labels: &[&str],
) -> Result<Option<Failing>, NoMemory>
    ensures { let tests = update_tests own.now (map (λ x. x.now) labels.now) in
        IfOk result (λ found. found ≡ first_failing tests) }
{
    let hash = has_hash(labels);
    let one_parent = is_one_parent(boxes(own));
    check_parents(alloc, own, hash, one_parent)
}

/// What fails first of a manifest's bindings and parents.
pub fn check_bindings(
    alloc: Global,
    at: &Placed<'_, '_>,
    own: &ReadManifest<'_>,
) -> Result<Option<Failing>, NoMemory>
    ensures { let tests = rules.binding_tests (seen_in at.now own.now) in
        IfOk result (λ found. found ≡ first_failing tests) }
{
    let listed = labels(alloc, own)?;
    let names = listed.as_slice();
    if is_update(own) {
        return check_update(alloc, own, names);
    }
    let kept = bindings(alloc, names)?;
    let known = kept.as_slice();
    check_standard(alloc, at, own, names, known)
}
