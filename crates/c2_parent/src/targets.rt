// What redactions can name: the assertions of reached manifests, found by their labels.
ghost use Rattle.std.specs.Prelude.{◌≡◌, ℕ, List, IfOk, find, is_some};
ghost use Rattle.c2_rules.specs.Chains.{LabelsDiffer, label_in};
ghost use Rattle.c2_rules.specs.Rules.{is_labelled};
ghost use Rattle.c2_new_file_spec.specs.Refusing.{has_assertion, kept_boxes};
ghost use Rattle.c2_parent.specs.Named.{AreNamed};
ghost use Rattle.c2_parent.specs.Refused.{still_there};

use crate::named::{Named, has_named};
use c2_base::NoMemory;
use c2_chain::{Labelled, find_box, is_listed, with_labels};
use c2_read_manifests::{ReadManifest, ReadManifests, is_reached, place_of};
use std::alloc::Global;

/// Manifests, each with its boxes and entries by their labels.
pub fn targets_of<'c, 't>(
    alloc: Global,
    kept: &'c [ReadManifest<'t>],
) -> Result<Vec<Labelled<'c, 't>>, NoMemory>
    ensures { IfOk result (λ v. v.items ≡ kept.now) }
{
    let mut found = Vec::new(alloc);
    for k in 0..kept.len() {
        let own = with_labels(alloc, &kept[k])?;
        found.push(own)?;
    }
    Ok(found)
}

/// Whether a manifest has a box with this label that isn't named before.
fn has_box<'u>(
    own: &Labelled<'_, '_>,
    before: &Named<'u>,
    manifest: &'u str,
    label: &'u str,
) -> bool
    ensures { (redacts : List (List ℕ)) → AreNamed redacts before.now
        → manifest.now ≡ label_in own.now
        → result ≡ is_some (find (is_labelled label.now) (kept_boxes redacts own.now)) }
{
    if has_named(before, manifest, label) {
        return false;
    }
    find_box(own, label).is_some()
}

/// Whether the claim of a manifest lists this label, and the box is there and isn't named before.
fn has_target<'u>(
    own: &Labelled<'_, '_>,
    before: &Named<'u>,
    manifest: &'u str,
    label: &'u str,
) -> bool
    ensures { (redacts : List (List ℕ)) → AreNamed redacts before.now
        → manifest.now ≡ label_in own.now → result ≡ has_assertion redacts own.now label.now }
{
    if is_listed(own, label) {
        return has_box(own, before, manifest, label);
    }
    false
}

/// Whether the manifest with this label is reached, lists this label, and has the box still.
pub fn is_still_there<'u>(
    all: &ReadManifests<'_>,
    targets: &[Labelled<'_, '_>],
    before: &Named<'u>,
    manifest: &'u str,
    label: &'u str,
) -> bool
    requires differ { LabelsDiffer all.now }
    requires same { targets.now ≡ all.now }
    ensures { (redacts : List (List ℕ)) → AreNamed redacts before.now
        → result ≡ still_there all.now redacts manifest.now label.now }
{
    let Some(i) = place_of(all, manifest) else {
        return false;
    };
    if is_reached(all, i) {
        return has_target(&targets[i], before, manifest, label);
    }
    false
}
