// The manifests that ingredients of reached manifests name without their signatures.
ghost use Rattle.std.specs.Prelude.{◌≡◌, ◌||◌, ◌&&◌, ◌<◌, ℕ, List, IfOk, OnOk, Some, bytes_eq};
ghost use Rattle.std.specs.Prelude.{length, option_map, slice_get};
ghost use Rattle.std.specs.List.{list_any};
ghost use Rattle.c2_label_index.specs.Labels.{is_among};
ghost use Rattle.c2_rules.specs.Chains as form;
ghost use Rattle.c2_rules.specs.Chains.{passes_some};
ghost use Rattle.c2_parent.specs.Refused.{AreUnsigned, names_so, unsigned_in};

use c2_base::NoMemory;
use c2_label_index::{Labels, add_label, no_labels};
use c2_read_manifests::{
    AssertionBox, ReadManifests, boxes, ingredient, is_reached, manifests, named,
};
use c2_rules::Parsed;
use c2_spec::Ingredient;
use std::alloc::Global;

/// The label of the manifest that an ingredient names.
fn named_by<'c>(g: &'c Ingredient) -> Option<&'c str>
    ensures { option_map (λ x. x.now) result ≡ form.named_by (Some g.now) }
{
    match &g.manifest {
        Some(own) => named(own.url.as_str()),
        None => None,
    }
}

/// The label of the manifest that a box names without its signature.
fn unsigned_label<'c>(b: &'c AssertionBox<'_>) -> Option<&'c str>
    ensures { option_map (λ x. x.now) result ≡ unsigned_in b.now }
{
    match ingredient(b) {
        Parsed::Value(g) => {
            if g.signature.is_some() {
                return None;
            }
            named_by(g)
        }
        Parsed::NoItem | Parsed::NoForm => None,
    }
}

/// Adds what a box names so.
fn add_unsigned(alloc: Global, labels: &mut Labels, b: &AssertionBox<'_>) -> Result<(), NoMemory>
    ensures { OnOk result ((label : List ℕ) → is_among labels.new label
        ≡ (is_among labels.old label || passes_some (bytes_eq label) (unsigned_in b.now))) }
{
    match unsigned_label(b) {
        Some(label) => add_label(alloc, labels, label),
        None => Ok(()),
    }
}

/// Adds what these boxes name so.
fn add_each(alloc: Global, labels: &mut Labels, found: &[AssertionBox<'_>]) -> Result<(), NoMemory>
    ensures { OnOk result ((label : List ℕ) → is_among labels.new label
        ≡ (is_among labels.old label
        || list_any (λ b. passes_some (bytes_eq label) (unsigned_in b)) found.now)) }
{
    for k in 0..found.len() {
        add_unsigned(alloc, labels, &found[k])?;
    }
    Ok(())
}

/// Adds what the boxes of the manifest at a place name so, if it is reached.
fn add_reached(
    alloc: Global,
    labels: &mut Labels,
    all: &ReadManifests<'_>,
    n: usize,
) -> Result<(), NoMemory>
    requires { n < length all.now }
    ensures { OnOk result ((label : List ℕ) → is_among labels.new label
        ≡ (is_among labels.old label
        || (form.is_reached all.now n && passes_some (names_so label) (slice_get all.now n)))) }
{
    if !is_reached(all, n) {
        return Ok(());
    }
    add_each(alloc, labels, boxes(&manifests(all)[n]))
}

/// The labels of the manifests that boxes of reached manifests name without their signatures.
pub fn unsigned_labels(alloc: Global, all: &ReadManifests<'_>) -> Result<Labels, NoMemory>
    ensures { IfOk result (λ labels. AreUnsigned all.now (length all.now) labels) }
{
    let mut labels = no_labels(alloc);
    for n in 0..manifests(all).len() {
        add_reached(alloc, &mut labels, all, n)?;
    }
    Ok(labels)
}
