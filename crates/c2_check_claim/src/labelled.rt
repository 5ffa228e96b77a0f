// A manifest under check, whose boxes and entries are found by their labels.
ghost use Rattle.std.specs.Prelude.{◌≡◌, ◌<◌, ◌++◌, IfOk, OnOk, Some, length, map, option_copied};
ghost use Rattle.std.specs.Prelude.{option_map, slice_get, take};
ghost use Rattle.c2_label_index.specs.Places.{ArePlaces};
ghost use Rattle.c2_rules.specs.Chains.{entry_label as label_of};
ghost use Rattle.c2_rules.specs.Readings.{entries_in};
ghost use Rattle.c2_rules.specs.Rules as rules;
ghost use Rattle.c2_check_claim.specs.Labelled.{box_labels, entry_labels};

use c2_base::NoMemory;
use c2_label_index::{Places, add_place, first_place, no_places};
use c2_read_manifests::{AssertionBox, ReadManifest, box_label, boxes, entry_label};
use c2_rules::Parsed;
use c2_spec::Ref;
use std::alloc::Global;
use std::marker::Model;

/// A manifest; its entries in their order; and where each label stands first among its boxes, and among its entries.
#[derive(Drop)]
pub struct Labelled<'c, 't> {
    own: &'c ReadManifest<'t>,
    entries: Vec<&'c Ref>,
    box_places: Places<'c>,
    entry_places: Places<'c>,
}

impl<'c, 't> Model for Labelled<'c, 't> {
    ghost use Rattle.std.specs.Coded.{codes};
    ghost use Rattle.c2_rules.proofs.ItemCode.{item_code};
    ghost use Rattle.c2_rules.specs.Readings.{Reading};
    ghost use Rattle.c2_check_claim.specs.Labelled.{AreLabelled};

    ghost Value = { Reading };

    ghost coded = { Prim.hlevel (codes, item_code) };

    ghost view = { λ m. m.own.now };

    ghost invariant = { λ m. AreLabelled m.own.now m.entries.items m.box_places m.entry_places };
}

/// Adds these entries.
fn push_entries<'c>(found: &mut Vec<&'c Ref>, entries: &'c [Ref]) -> Result<(), NoMemory>
    ensures { OnOk result
        (map (λ x. x.now) found.new.items ≡ map (λ x. x.now) found.old.items ++ entries.now) }
{
    for k in 0..entries.len() {
        found.push(&entries[k])?;
    }
    Ok(())
}

/// The entries of a manifest's claim, in their order.
fn list_entries<'c>(alloc: Global, own: &'c ReadManifest<'_>) -> Result<Vec<&'c Ref>, NoMemory>
    ensures { IfOk result (λ v. map (λ x. x.now) v.items ≡ entries_in own.now) }
{
    let mut found = Vec::new(alloc);
    if let Parsed::Value(claim) = &own.claim {
        push_entries(&mut found, claim.created.as_slice())?;
        push_entries(&mut found, claim.gathered.as_slice())?;
    }
    Ok(found)
}

/// Where the labels of these boxes stand first.
fn places_of_boxes<'c>(alloc: Global, boxes: &'c [AssertionBox<'_>]) -> Result<Places<'c>, NoMemory>
    ensures { IfOk result (λ p. ArePlaces (box_labels boxes.now) p) }
{
    let mut places = no_places(alloc);
    for k in 0..boxes.len() {
        let label = box_label(&boxes[k]);
        add_place(&mut places, label, k)?;
    }
    Ok(places)
}

/// The entry at a place.
fn entry_among<'c>(entries: &[&'c Ref], k: usize) -> &'c Ref
    requires { k < length entries.now }
    ensures { slice_get (map (λ x. x.now) entries.now) k ≡ Some result.now }
{
    entries[k]
}

/// Where the labels that these entries of a manifest list stand first.
fn places_of_entries<'c>(
    alloc: Global,
    own: &ReadManifest<'_>,
    entries: &[&'c Ref],
) -> Result<Places<'c>, NoMemory>
    ensures { IfOk result
        (λ p. ArePlaces (entry_labels own.now.manifest (map (λ x. x.now) entries.now)) p) }
{
    let mut places = no_places(alloc);
    for k in 0..entries.len() {
        let label = entry_label(own, entry_among(entries, k));
        add_place(&mut places, label, k)?;
    }
    Ok(places)
}

/// A manifest with its boxes and entries by their labels.
pub fn with_labels<'c, 't>(
    alloc: Global,
    own: &'c ReadManifest<'t>,
) -> Result<Labelled<'c, 't>, NoMemory>
    ensures { IfOk result (λ m. m ≡ own.now) }
{
    let entries = list_entries(alloc, own)?;
    let box_places = places_of_boxes(alloc, boxes(own))?;
    let entry_places = places_of_entries(alloc, own, entries.as_slice())?;
    Ok(Labelled {
        own,
        entries,
        box_places,
        entry_places,
    })
}

/// The manifest.
pub fn owner<'c, 't>(m: &Labelled<'c, 't>) -> &'c ReadManifest<'t>
    ensures { result.now ≡ m.now }
{
    m.own
}

/// The number of entries.
pub fn entry_count(m: &Labelled<'_, '_>) -> usize
    ensures { result ≡ length (entries_in m.now) }
{
    m.entries.len()
}

/// The entry at a place.
pub fn entry_at<'c>(m: &Labelled<'c, '_>, k: usize) -> &'c Ref
    requires { k < length (entries_in m.now) }
    ensures { slice_get (entries_in m.now) k ≡ Some result.now }
{
    entry_among(m.entries.as_slice(), k)
}

/// The box at a place.
fn box_among<'c, 't>(boxes: &'c [AssertionBox<'t>], k: usize) -> Option<&'c AssertionBox<'t>>
    ensures { option_copied result ≡ slice_get boxes.now k }
{
    boxes.get(k)
}

/// The assertion box with this label.
pub fn find_box<'c, 't>(m: &Labelled<'c, 't>, name: &str) -> Option<&'c AssertionBox<'t>>
    ensures { option_copied result ≡ rules.box_with m.now name.now }
{
    match first_place(&m.box_places, name) {
        Some(k) => box_among(boxes(m.own), k),
        None => None,
    }
}

/// The label that an entry of this manifest lists.
pub fn listed_label<'e>(m: &Labelled<'_, '_>, entry: &'e Ref) -> Option<&'e str>
    ensures { option_map (λ x. x.now) result ≡ label_of m.now.manifest entry.now }
{
    entry_label(m.own, entry)
}

/// Whether an entry lists this label.
pub fn is_listed(m: &Labelled<'_, '_>, name: &str) -> bool
    ensures { result ≡ rules.lists_label m.now.manifest (entries_in m.now) name.now }
{
    first_place(&m.entry_places, name).is_some()
}

/// Whether an entry before place `k` lists this label.
pub fn is_listed_before(m: &Labelled<'_, '_>, k: usize, name: &str) -> bool
    ensures { result ≡ rules.lists_label m.now.manifest (take k (entries_in m.now)) name.now }
{
    match first_place(&m.entry_places, name) {
        Some(j) => j < k,
        None => false,
    }
}
