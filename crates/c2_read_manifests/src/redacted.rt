// The labels that are redacted in each manifest: each redaction is looked at once.
ghost use Rattle.std.specs.Prelude.{◌≡◌, ◌<◌, ℕ, List, IfOk, IfSome, OnOk, Some, [], ◌∷◌, length};
ghost use Rattle.std.specs.Prelude.{option_and_then, option_map};
ghost use Rattle.std.specs.List.{list_any};
ghost use Rattle.c2_spec.specs.C2pa.Manifest.{IsStoreOf, manifests_of};
ghost use Rattle.c2_spec.specs.C2pa.Uri.{target_view};
ghost use Rattle.c2_rules.specs.Chains as form;
ghost use Rattle.c2_rules.specs.Chains.{LabelsDiffer};
ghost use Rattle.c2_rules.specs.Readings.{AreReadings, redactions_in};
ghost use Rattle.c2_read_manifests.specs.Redacted.{names_at, is_aimed, AddsTexts, AddsAt, AddsOf};
ghost use Rattle.c2_read_manifests.specs.Redacted.{AreNone, AreRedacted, AreTouched};

use crate::kept::{ReadManifest, is_own};
use crate::labelled::{Manifests, kept, place_among};
use crate::laws::labels_of_a_store_differ;
use crate::rows::{Reaching, is_below_of, is_in_reach, named_of, reaching_manifests};
use c2_base::{NoMemory, Text};
use c2_jumbf::{Tree, count};
use c2_label_index::{Labels, add_label, has_label, no_labels};
use c2_rules::Parsed;
use c2_spec::Ref;
use c2_store::Store;
use c2_uri::{Target, parse};
use std::alloc::Global;
use std::marker::Model;

/// The assertion that a redaction names: the place of its manifest, and its label.
#[derive(Clone, Copy)]
pub struct Aim<'u> {
    pub place: usize,
    pub label: &'u str,
}

/// The label of an assertion that a URI has as its target.
pub fn assertion_label<'u>(target: &Target<'u>) -> Option<&'u str>
    ensures { option_map (λ x. x.now) result ≡ form.assertion_label (target_view target.now) }
{
    match target {
        Target::Assertion(name) => Some(*name),
        Target::Whole | Target::Signature | Target::Other(_) => None,
    }
}

/// The place of the manifest that a URI gives.
fn given_place(all: &Manifests<'_>, given: Option<&str>) -> Option<usize>
    ensures { result
        ≡ option_and_then (form.place_of all.now) (option_map (λ x. x.now) given.entry) }
{
    match given {
        Some(name) => place_among(all, name),
        None => None,
    }
}

/// The assertion that a redaction names, where its manifest is in the store.
fn aim_of<'u>(all: &Manifests<'_>, text: &'u str) -> Option<Aim<'u>>
    requires { LabelsDiffer all.now }
    ensures inside { IfSome result (λ aim. aim.place < length all.now) }
    ensures names { (m : ℕ) (label : List ℕ) → m < length all.now
        → is_aimed result m label ≡ names_at all.now m label text.now }
{
    let Some(uri) = parse(text) else {
        return None;
    };
    let Some(place) = given_place(all, uri.manifest) else {
        return None;
    };
    let Some(label) = assertion_label(&uri.target) else {
        return None;
    };
    Some(Aim { place, label })
}

/// Adds a label to the set at a place.
fn add_at(alloc: Global, sets: &mut [Labels], m: usize, label: &str) -> Result<(), NoMemory>
    requires { m < length sets.old }
    ensures { OnOk result (AddsAt sets.old sets.new m label.now) }
{
    add_label(alloc, &mut sets[m], label)
}

/// Adds the label that a redaction in the manifest at `n` redacts.
fn redact(
    alloc: Global,
    all: &Reaching<'_>,
    n: usize,
    sets: &mut [Labels],
    text: &str,
) -> Result<(), NoMemory>
    requires place { n < length all.now }
    requires count { length sets.old ≡ length all.now }
    requires differ { LabelsDiffer all.now }
    ensures { OnOk result (AddsTexts all.now n sets.old sets.new (text.now ∷ [])) }
{
    let Some(aim) = aim_of(named_of(all), text) else {
        return Ok(());
    };
    if is_below_of(all, n, aim.place) {
        add_at(alloc, sets, aim.place, aim.label)?;
    }
    Ok(())
}

/// Adds the labels that these redactions in the manifest at `n` redact.
fn redact_texts(
    alloc: Global,
    all: &Reaching<'_>,
    n: usize,
    sets: &mut [Labels],
    texts: &[Text],
) -> Result<(), NoMemory>
    requires place { n < length all.now }
    requires count { length sets.old ≡ length all.now }
    requires differ { LabelsDiffer all.now }
    ensures { OnOk result (AddsTexts all.now n sets.old sets.new texts.now) }
{
    for (k, text) in texts.iter().enumerate() {
        redact(alloc, all, n, sets, text.as_str())?;
    }
    Ok(())
}

/// The redactions of a manifest's claim.
fn redactions<'c>(own: &'c ReadManifest<'_>) -> &'c [Text]
    ensures { result.now ≡ redactions_in own.now }
{
    match &own.claim {
        Parsed::Value(claim) => claim.redacted.as_slice(),
        Parsed::NoItem | Parsed::NoForm => &[],
    }
}

/// Adds the labels that the manifest at `n` redacts in others.
fn redact_from(
    alloc: Global,
    all: &Reaching<'_>,
    n: usize,
    sets: &mut [Labels],
) -> Result<(), NoMemory>
    requires place { n < length all.now }
    requires count { length sets.old ≡ length all.now }
    requires differ { LabelsDiffer all.now }
    ensures { OnOk result (AddsOf all.now n sets.old sets.new) }
{
    if !is_in_reach(all, n) {
        return Ok(());
    }
    let texts = redactions(&kept(named_of(all))[n]);
    redact_texts(alloc, all, n, sets, texts)
}

/// So many empty sets.
fn empty_sets(alloc: Global, count: usize) -> Result<Vec<Labels>, NoMemory>
    ensures { IfOk result (λ sets. AreNone count sets.items) }
{
    let mut sets = Vec::new(alloc);
    for k in 0..count {
        sets.push(no_labels(alloc))?;
    }
    Ok(sets)
}

/// The labels that are redacted in each manifest.
fn fill_redacted(alloc: Global, all: &Reaching<'_>) -> Result<Vec<Labels>, NoMemory>
    requires { LabelsDiffer all.now }
    ensures { IfOk result (λ sets. AreRedacted all.now sets.items) }
{
    let count = kept(named_of(all)).len();
    let mut sets = empty_sets(alloc, count)?;
    for n in 0..count {
        redact_from(alloc, all, n, sets.as_mut_slice())?;
    }
    Ok(sets)
}

/// The manifests, and the labels that are redacted in each.
#[derive(Drop)]
pub struct Redacting<'t> {
    reaching: Reaching<'t>,
    sets: Vec<Labels>,
}

impl<'t> Model for Redacting<'t> {
    ghost use Rattle.std.specs.Prelude.{List};
    ghost use Rattle.std.specs.Coded.{codes};
    ghost use Rattle.c2_rules.proofs.ItemCode.{item_code};
    ghost use Rattle.c2_rules.specs.Readings.{Reading};
    ghost use Rattle.c2_read_manifests.specs.Redacted.{AreRedacted};

    ghost Value = { List Reading };

    ghost coded = { Prim.hlevel (codes, item_code) };

    ghost view = { λ c. c.reaching };

    ghost invariant = { λ c. AreRedacted c.reaching c.sets.items };
}

/// What is read of the manifests of a store, and the labels that are redacted in each.
pub fn redacting_manifests<'t>(
    alloc: Global,
    tree: &'t Tree<'_>,
    store: &Store,
) -> Result<Redacting<'t>, NoMemory>
    requires { IsStoreOf tree.now store.now }
    ensures { IfOk result (λ all. AreReadings (manifests_of tree.now) all) }
{
    // Only the prover needs these two.
    labels_of_a_store_differ();
    let _boxes = count(tree);
    let reaching = reaching_manifests(alloc, tree, store)?;
    let sets = fill_redacted(alloc, &reaching)?;
    Ok(Redacting { reaching, sets })
}

/// The manifests.
pub fn reaching_of<'c, 't>(all: &'c Redacting<'t>) -> &'c Reaching<'t>
    ensures { result.now ≡ all.now }
{
    &all.reaching
}

/// Whether a label is redacted in a manifest.
pub fn is_redacted_at(all: &Redacting<'_>, m: usize, name: &str) -> bool
    requires { m < length all.now }
    ensures { result ≡ form.is_redacted all.now m name.now }
{
    match all.sets.get(m) {
        Some(labels) => has_label(labels, name),
        None => false,
    }
}

/// The label that an entry of a manifest's claim lists.
pub fn entry_label<'c>(own: &ReadManifest<'_>, entry: &'c Ref) -> Option<&'c str>
    ensures { option_map (λ x. x.now) result ≡ form.entry_label own.now.manifest entry.now }
{
    match parse(entry.url.as_str()) {
        Some(uri) => {
            if is_own(own, uri.manifest) {
                assertion_label(&uri.target)
            } else {
                None
            }
        }
        None => None,
    }
}

/// Whether one of these entries of a manifest's claim lists a label that is redacted in it.
fn lists_redacted(all: &Redacting<'_>, m: usize, own: &ReadManifest<'_>, entries: &[Ref]) -> bool
    requires { m < length all.now }
    ensures { result ≡ list_any
        (λ e. form.passes_some (form.is_redacted all.now m)
        (form.entry_label own.now.manifest e))
        entries.now }
{
    entries.iter().any(|e| match entry_label(own, e) {
        Some(name) => is_redacted_at(all, m, name),
        None => false,
    })
}

/// Whether the claim of this manifest, at place `m`, lists a label that is redacted there.
fn touches(all: &Redacting<'_>, m: usize, own: &ReadManifest<'_>) -> bool
    requires { m < length all.now }
    ensures { result ≡ form.lists_redacted all.now m (Some own.now) }
{
    match &own.claim {
        Parsed::Value(claim) => {
            lists_redacted(all, m, own, claim.created.as_slice())
                || lists_redacted(all, m, own, claim.gathered.as_slice())
        }
        Parsed::NoItem | Parsed::NoForm => false,
    }
}

/// Whether the claim of the manifest at a place lists a label that is redacted in it.
fn is_touched_at(all: &Redacting<'_>, m: usize) -> bool
    requires { m < length all.now }
    ensures { result ≡ form.is_touched all.now m }
{
    touches(all, m, &kept(named_of(&all.reaching))[m])
}

/// Which manifests are touched.
pub fn fill_touched(alloc: Global, all: &Redacting<'_>) -> Result<Vec<bool>, NoMemory>
    ensures { IfOk result (λ v. AreTouched all.now v.items) }
{
    let mut touched = Vec::new(alloc);
    for m in 0..kept(named_of(&all.reaching)).len() {
        touched.push(is_touched_at(all, m))?;
    }
    Ok(touched)
}
