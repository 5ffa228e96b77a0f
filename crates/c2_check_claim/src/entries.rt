// The rules on entries: each names a box of the manifest, which is there with the digest that the entry has, or is redacted.
ghost use Rattle.std.specs.Prelude.{◌≡◌, IfOk, find, option_map, option_copied, take};
ghost use Rattle.c2_rules.specs.Chains as form;
ghost use Rattle.c2_rules.specs.Ingredients as ingredients;
ghost use Rattle.c2_rules.specs.Readings as readings;
ghost use Rattle.c2_rules.specs.Rules as rules;
ghost use Rattle.c2_rules.specs.Tests.{each, first_failing};
ghost use Rattle.c2_read_manifests.specs.Placed.{seen_in};

use crate::labelled::{
    Labelled, entry_at, entry_count, find_box, is_listed_before, listed_label, owner,
};
use c2_assertion::{Kind, kind};
use c2_base::NoMemory;
use c2_check_facts::{at_assertion, at_claim, has_digest, is_known};
use c2_hash::Hashing;
use c2_read_manifests::{AssertionBox, Placed, ReadManifest, is_redacted, label};
use c2_rules::{Code, Failing};
use c2_spec::Ref;
use std::alloc::Global;

fn is_labelled(b: &AssertionBox<'_>, name: &str) -> bool
    ensures { result ≡ rules.is_labelled name.now b.now }
{
    match b.boxed.label {
        Some(own) => own == name,
        None => false,
    }
}

/// Whether this is the label of cloud data.
#[tactic(auto, unfolding(c2_rules::specs::Rules::label_kind))]
fn is_cloud(name: &str) -> bool
    ensures { result ≡ rules.is_cloud (rules.label_kind name.now) }
{
    match kind(name) {
        Kind::Cloud => true,
        _ => false,
    }
}

/// The assertion box with this label: a single look-up goes over the boxes.
pub fn box_with<'c, 't>(own: &'c ReadManifest<'t>, name: &str) -> Option<&'c AssertionBox<'t>>
    ensures { option_copied result ≡ rules.box_with own.now name.now }
{
    own.boxes.iter().find(|b| is_labelled(b, name))
}

/// Whether the box is there with the digest of this entry.
fn box_has_digest<H: Hashing>(
    hashing: &H,
    own: &ReadManifest<'_>,
    entry: &Ref,
    found: Option<&AssertionBox<'_>>,
) -> bool
    ensures { result ≡ rules.box_has_digest H.digest_of own.now entry.now
        (option_map (λ b. b.now) found.entry) }
{
    match found {
        Some(b) => has_digest(
            hashing,
            own,
            &entry.alg,
            b.boxed.contents,
            entry.hash.as_slice(),
        ),
        None => false,
    }
}

/// An entry of a manifest: its place among the entries, and the label that it lists.
#[derive(Clone, Copy)]
struct Listed<'e> {
    place: usize,
    entry: &'e Ref,
    label: &'e str,
}

/// What fails of an entry that lists a label.
fn check_labelled<H: Hashing>(
    alloc: Global,
    hashing: &H,
    at: &Placed<'_, '_>,
    own: &Labelled<'_, '_>,
    listed: &Listed<'_>,
) -> Result<Option<Failing>, NoMemory>
    ensures { let tests =
        rules.labelled_tests H.digest_of (seen_in at.now own.now)
        (take listed.now.place (readings.entries_in own.now)) listed.now.entry.now
        listed.now.label.now
        (ingredients.assertion_uri (form.label_in own.now) listed.now.label.now) in
        IfOk result (λ found. found ≡ first_failing tests) }
{
    let kept = owner(own);
    let name = listed.label;
    if is_listed_before(own, listed.place, name) {
        return at_claim(alloc, kept, Code::ProfileAssertionUri);
    }
    if is_cloud(name) {
        return at_assertion(alloc, label(kept), name, Code::UnsupportedCloudData);
    }
    if !is_known(kept, &listed.entry.alg) {
        return at_assertion(alloc, label(kept), name, Code::AlgorithmUnsupported);
    }
    let found = find_box(own, name);
    if is_redacted(at.all, at.place, name) {
        if found.is_some() {
            return at_assertion(alloc, label(kept), name, Code::AssertionNotRedacted);
        }
        return Ok(None);
    }
    if found.is_none() {
        return at_assertion(alloc, label(kept), name, Code::AssertionMissing);
    }
    if !box_has_digest(hashing, kept, listed.entry, found) {
        return at_assertion(alloc, label(kept), name, Code::AssertionHashedUriMismatch);
    }
    Ok(None)
}

/// What fails of the entry at place `k`.
fn check_entry<H: Hashing>(
    alloc: Global,
    hashing: &H,
    at: &Placed<'_, '_>,
    own: &Labelled<'_, '_>,
    k: usize,
    entry: &Ref,
) -> Result<Option<Failing>, NoMemory>
    ensures { let tests =
        rules.entry_tests H.digest_of (seen_in at.now own.now) k entry.now in
        IfOk result (λ found. found ≡ first_failing tests) }
{
    match listed_label(own, entry) {
        Some(label) => {
            let listed = Listed {
                place: k,
                entry,
                label,
            };
            check_labelled(alloc, hashing, at, own, &listed)
        }
        None => at_claim(alloc, owner(own), Code::ProfileAssertionUri),
    }
}

/// What fails first of a manifest's entries.
#[tactic(auto, using(crate::proofs::EntryLemmas::entry_passed))]
pub fn check_entries<H: Hashing>(
    alloc: Global,
    hashing: &H,
    at: &Placed<'_, '_>,
    own: &Labelled<'_, '_>,
) -> Result<Option<Failing>, NoMemory>
    ensures { let tests =
        each (rules.entry_tests H.digest_of (seen_in at.now own.now)) 0
        (readings.entries_in own.now) in
        IfOk result (λ found. found ≡ first_failing tests) }
{
    for k in 0..entry_count(own) {
        let entry = entry_at(own, k);
        let found = check_entry(alloc, hashing, at, own, k, entry)?;
        if let Some(failing) = found {
            return Ok(Some(failing));
        }
    }
    Ok(None)
}
