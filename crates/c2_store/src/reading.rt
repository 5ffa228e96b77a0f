// Reading a tree as a store.
ghost use Rattle.std.specs.Prelude.{◌≡◌, ◌⊎◌, ◌<◌, ◌==◌, All, IfOk, MatchResult, Some, None, map};
ghost use Rattle.std.specs.Prelude.{length};
ghost use Rattle.std.specs.List.{flat_map, list_any};
ghost use Rattle.std.specs.Option.{option_or};
ghost use Rattle.c2_spec.specs.Jumbf.Boxes.{tree_count, box_at, any_label};
ghost use Rattle.c2_spec.specs.C2pa.Manifest as form;
ghost use Rattle.c2_spec.specs.C2pa.Manifest.{first_refusal, manifest_tests, manifest_boxes};
ghost use Rattle.c2_spec.specs.C2pa.Manifest.{store_refusal, store_of};

use crate::boxes::{has_label, has_uuid, superboxes};
use crate::manifests::manifest;
use crate::store::Store;
use c2_base::NoMemory;
use c2_base::limits::MAX_MANIFESTS;
use c2_jumbf::{Tree, count, label_of, place};
use c2_spec::kinds::{MANIFEST_TYPE, STORE_TYPE, UPDATE_TYPE};
use c2_spec::{ManifestBoxes, StoreError};
use std::alloc::Global;

fn is_store(tree: &Tree<'_>) -> bool
    requires { 0 < tree_count tree.now }
    ensures { result ≡ form.is_store tree.now }
{
    has_uuid(tree, 0, &STORE_TYPE) && has_label(tree, 0, "c2pa")
}

fn is_manifest(tree: &Tree<'_>, i: usize) -> bool
    requires { i < tree_count tree.now }
    ensures { result ≡ form.is_manifest (box_at tree.now i).box }
{
    has_uuid(tree, i, &MANIFEST_TYPE) || has_uuid(tree, i, &UPDATE_TYPE)
}

fn has_slash(bytes: &[u8]) -> bool
    ensures { result ≡ list_any (λ b. b == 0x2F) bytes.now }
{
    bytes.iter().any(|b| *b == b'/')
}

fn has_manifest_label(tree: &Tree<'_>, i: usize) -> bool
    requires { i < tree_count tree.now }
    ensures { result ≡ form.is_manifest_label (any_label (box_at tree.now i).box) }
{
    match label_of(tree, i) {
        Some(label) => !label.is_empty() && !has_slash(label.as_bytes()),
        None => false,
    }
}

/// The first test that a box fails as a manifest.
fn bad_manifest(tree: &Tree<'_>, i: usize) -> Option<StoreError>
    requires { i < tree_count tree.now }
    ensures { result ≡ first_refusal (manifest_tests tree.now i) }
{
    if !is_manifest(tree, i) {
        return Some(StoreError::ManifestType(place(tree, i)));
    }
    if !has_manifest_label(tree, i) {
        return Some(StoreError::ManifestLabel(place(tree, i)));
    }
    None
}

/// The first test that one of these boxes fails as a manifest.
fn first_bad(tree: &Tree<'_>, boxes: &[usize]) -> Option<StoreError>
    requires { All (λ i. i < tree_count tree.now) boxes.now }
    ensures { result ≡ first_refusal (flat_map (manifest_tests tree.now) boxes.now) }
{
    for i in boxes {
        match bad_manifest(tree, *i) {
            Some(found) => return Some(found),
            None => {}
        }
    }
    None
}

fn bad_count(manifests: usize) -> Option<StoreError>
    ensures { result ≡ first_refusal (form.count_tests manifests) }
{
    if manifests == 0 {
        return Some(StoreError::NoManifest);
    }
    if manifests > MAX_MANIFESTS {
        return Some(StoreError::TooMany(manifests));
    }
    None
}

/// The first test that fails of a store with these child superboxes of its root.
fn bad_inside(tree: &Tree<'_>, boxes: &[usize]) -> Option<StoreError>
    requires { All (λ i. i < tree_count tree.now) boxes.now }
    ensures { result ≡ option_or (first_refusal (flat_map (manifest_tests tree.now) boxes.now))
        (first_refusal (form.count_tests (length boxes.now))) }
{
    match first_bad(tree, boxes) {
        Some(found) => Some(found),
        None => bad_count(boxes.len()),
    }
}

/// The first test that fails of a tree whose root has these child superboxes.
fn refusal(tree: &Tree<'_>, boxes: &[usize]) -> Option<StoreError>
    requires some { 0 < tree_count tree.now }
    requires are { boxes.now ≡ form.superboxes tree.now 0 }
    requires within { All (λ i. i < tree_count tree.now) boxes.now }
    ensures { result ≡ store_refusal tree.now }
{
    if is_store(tree) {
        return bad_inside(tree, boxes);
    }
    Some(StoreError::NotStore)
}

/// The boxes of each of these manifests.
fn manifests_of(
    alloc: Global,
    tree: &Tree<'_>,
    boxes: &[usize],
) -> Result<Vec<ManifestBoxes>, NoMemory>
    requires { All (λ i. i < tree_count tree.now) boxes.now }
    ensures { IfOk result (λ v. v.items ≡ map (manifest_boxes tree.now) boxes.now) }
{
    let mut found = Vec::new(alloc);
    for i in boxes {
        found.push(manifest(alloc, tree, *i)?)?;
    }
    Ok(found)
}

/// The store that a tree is.
///
/// The first of these refuses it. `NotStore`: its root isn't the superbox of type and label `c2pa`. Then the superboxes in it are gone
/// through in their order, each named by its place: `ManifestType`, it is neither a `c2ma` nor a `c2um`; `ManifestLabel`, it has
/// no label, an empty one, or one with a slash. At last `NoManifest` where there was none, and `TooMany` with their number where
/// it is above 1,024. Boxes that hold no others may stand among them, whatever they are.
pub fn of_tree(alloc: Global, tree: &Tree<'_>) -> Result<Store, StoreError>
    ensures { MatchResult result (λ s. (store_refusal tree.now ≡ None) × (s ≡ store_of tree.now))
        (λ e. (e ≡ StoreError.NoMemory) ⊎ (store_refusal tree.now ≡ Some e)) }
{
    // Only the prover needs this: it takes from here that a tree has a box.
    let _count = count(tree);
    let boxes = superboxes(alloc, tree, 0)?;
    match refusal(tree, &boxes) {
        Some(found) => return Err(found),
        None => {}
    }
    let manifests = manifests_of(alloc, tree, &boxes)?;
    Ok(Store::from_list(manifests))
}
