// What is kept of a manifest, read from its boxes.
ghost use Rattle.std.specs.Prelude.{◌≡◌, ◌<◌, All, IfOk, IfSome, Some, length, map, slice_get};
ghost use Rattle.std.specs.Prelude.{option_map, option_and_then};
ghost use Rattle.std.specs.List.{AllZip};
ghost use Rattle.c2_spec.specs.Cbor.View.{view};
ghost use Rattle.c2_spec.specs.C2pa.Claim.{claim_of};
ghost use Rattle.c2_spec.specs.Jumbf.Boxes.{tree_count};
ghost use Rattle.c2_spec.specs.C2pa.Manifest as form;
ghost use Rattle.c2_spec.specs.C2pa.Manifest.{Superbox, IsStoreOf, superbox_at};
ghost use Rattle.c2_spec.specs.C2pa.Sign1.{IsHeader, parts_of};
ghost use Rattle.c2_rules.specs.Readings.{IsParsed, IsMessageOf, IsReadBox, IsReading, AreReadings};
ghost use Rattle.c2_read_manifests.specs.Signed.{IsSigned};

use crate::kept::{AssertionBox, ReadManifest, StoreBox};
use crate::reading::{read_boxes, read_claim, read_message, store_box};
use c2_base::NoMemory;
use c2_claim::claim_version;
use c2_jumbf::{Tree, contents, label_of};
use c2_rules::Parsed;
use c2_spec::{Claim, ClaimVersion, ManifestBoxes, Sign1};
use c2_store::{Store, manifest_boxes, manifest_count};
use std::alloc::Global;

/// The boxes with these indices.
fn store_boxes<'t>(
    alloc: Global,
    tree: &'t Tree<'_>,
    boxes: &[usize],
) -> Result<Vec<StoreBox<'t>>, NoMemory>
    requires { All (λ k. k < tree_count tree.now) boxes.now }
    ensures { IfOk result (λ v. v.items ≡ map (superbox_at tree.now) boxes.now) }
{
    let mut found = Vec::new(alloc);
    for i in 0..boxes.len() {
        let own = store_box(tree, boxes[i]);
        found.push(own)?;
    }
    Ok(found)
}

/// The version of a claim box, where it is one that is read.
fn version_in(own: &StoreBox<'_>) -> Option<ClaimVersion>
    ensures { result ≡ form.claim_version_in own.now }
{
    match own.label {
        Some(label) => claim_version(label),
        None => None,
    }
}

/// The item of a claim box of a version that is read.
fn claim_item<'c>(own: &'c StoreBox<'_>) -> Option<&'c [u8]>
    ensures { option_map (λ b. b.now) result ≡ form.claim_bytes_in own.now }
{
    match version_in(own) {
        Some(_) => own.item,
        None => None,
    }
}

/// The claim bytes in these claim boxes.
fn claim_payload<'c>(claims: &'c [StoreBox<'_>]) -> Option<&'c [u8]>
    ensures { option_map (λ b. b.now) result ≡ form.claim_bytes claims.now }
{
    match claims {
        [one] => claim_item(one),
        _ => None,
    }
}

/// The claim bytes of a manifest.
pub fn claim_bytes<'c>(own: &'c ReadManifest<'_>) -> Option<&'c [u8]>
    ensures { option_map (λ b. b.now) result ≡ form.claim_bytes own.now.manifest.claims }
{
    claim_payload(own.claims.as_slice())
}

/// The version that these claim bytes are read under.
fn version_of(claims: &[StoreBox<'_>]) -> ClaimVersion
    ensures { result ≡ form.claim_version_of claims.now }
{
    match claims {
        [one, ..] => version_in(one).unwrap_or(ClaimVersion::V2),
        [] => ClaimVersion::V2,
    }
}

/// What the claim of these claim boxes is read as.
fn read_claims(alloc: Global, claims: &[StoreBox<'_>]) -> Result<Parsed<Claim>, NoMemory>
    ensures { IfOk result (λ p.
        IsParsed (claim_of (form.claim_version_of claims.now)) (form.claim_bytes claims.now) p) }
{
    match claim_payload(claims) {
        Some(bytes) => read_claim(alloc, version_of(claims), bytes),
        None => Ok(Parsed::NoItem),
    }
}

/// The item of a box that may be missing.
fn item_of<'c>(found: &'c Option<StoreBox<'_>>) -> Option<&'c [u8]>
    ensures { option_map (λ b. b.now) result ≡ option_and_then (λ (b : Superbox). b.item)
        found.now }
{
    match found {
        Some(b) => b.item,
        None => None,
    }
}

/// The signed message of a signature box.
fn read_signature(alloc: Global, found: &Option<StoreBox<'_>>) -> Result<Option<Sign1>, NoMemory>
    ensures message { IfOk result
        (λ m. IsMessageOf (option_and_then (λ (b : Superbox). b.item) found.now)
        (option_map parts_of m)) }
    ensures header { IfOk result (λ m. IfSome m (λ s. IsHeader (view s.unprotected))) }
{
    match item_of(found) {
        Some(bytes) => read_message(alloc, bytes),
        None => Ok(None),
    }
}

/// The box with this index, where there is one.
fn some_box<'t>(tree: &'t Tree<'_>, k: Option<usize>) -> Option<StoreBox<'t>>
    requires { IfSome k (λ i. i < tree_count tree.now) }
    ensures { result ≡ option_map (superbox_at tree.now) k }
{
    match k {
        Some(i) => Some(store_box(tree, i)),
        None => None,
    }
}

/// What is read of the claim and of the signature of a manifest.
#[derive(Drop)]
struct Signed<'t> {
    claims: Vec<StoreBox<'t>>,
    signature: Option<StoreBox<'t>>,
    claim: Parsed<Claim>,
    message: Option<Sign1>,
}

/// What is read of the claim and of the signature of the manifest that has these boxes in the tree.
fn read_signed<'t>(
    alloc: Global,
    tree: &'t Tree<'_>,
    own: &ManifestBoxes,
) -> Result<Signed<'t>, NoMemory>
    requires claims { All (λ k. k < tree_count tree.now) own.now.claims }
    requires signature { IfSome own.now.signature (λ k. k < tree_count tree.now) }
    ensures { IfOk result (IsSigned tree.now own.now) }
{
    let claims = store_boxes(alloc, tree, own.claims.as_slice())?;
    let signature = some_box(tree, own.signature);
    let claim = read_claims(alloc, &claims)?;
    let message = read_signature(alloc, &signature)?;
    Ok(Signed {
        claims,
        signature,
        claim,
        message,
    })
}

/// A manifest of what is read of its claim and its signature, and of its assertion boxes.
fn kept_of<'t>(
    tree: &'t Tree<'_>,
    own: &ManifestBoxes,
    signed: Signed<'t>,
    boxes: Vec<AssertionBox<'t>>,
) -> ReadManifest<'t>
    requires whole { own.now.whole < tree_count tree.now }
    requires signed { IsSigned tree.now own.now signed }
    requires boxes { AllZip IsReadBox (map (superbox_at tree.now) own.now.assertions) boxes.items }
    ensures { IsReading (form.manifest_at tree.now own.now) result }
{
    ReadManifest {
        label: label_of(tree, own.whole),
        contents: contents(tree, own.whole),
        is_update: own.is_update,
        claims: signed.claims,
        signature: signed.signature,
        claim: signed.claim,
        message: signed.message,
        boxes,
    }
}

/// What is kept of the manifest that has these boxes in the tree.
fn keep<'t>(
    alloc: Global,
    tree: &'t Tree<'_>,
    own: &ManifestBoxes,
) -> Result<ReadManifest<'t>, NoMemory>
    requires whole { own.now.whole < tree_count tree.now }
    requires claims { All (λ k. k < tree_count tree.now) own.now.claims }
    requires signature { IfSome own.now.signature (λ k. k < tree_count tree.now) }
    requires assertions { All (λ k. k < tree_count tree.now) own.now.assertions }
    ensures { IfOk result (λ r. IsReading (form.manifest_at tree.now own.now) r) }
{
    let signed = read_signed(alloc, tree, own)?;
    let boxes = read_boxes(alloc, tree, own.assertions.as_slice())?;
    Ok(kept_of(tree, own, signed, boxes))
}

/// What is kept of a manifest of a store.
fn keep_at<'t>(
    alloc: Global,
    tree: &'t Tree<'_>,
    store: &Store,
    i: usize,
) -> Result<ReadManifest<'t>, NoMemory>
    requires inside { i < length store.now }
    requires same { IsStoreOf tree.now store.now }
    ensures { IfOk result
        (λ r. IfSome (slice_get store.now i)
        (λ m. IsReading (form.manifest_at tree.now m) r)) }
{
    let boxes = manifest_boxes(store, i);
    let own = keep(alloc, tree, boxes)?;
    Ok(own)
}

/// What is kept of the manifests of a store.
pub fn keep_store<'t>(
    alloc: Global,
    tree: &'t Tree<'_>,
    store: &Store,
) -> Result<Vec<ReadManifest<'t>>, NoMemory>
    requires { IsStoreOf tree.now store.now }
    ensures { IfOk result (λ v. AreReadings (form.manifests_of tree.now) v.items) }
{
    let mut kept = Vec::new(alloc);
    for i in 0..manifest_count(store) {
        let own = keep_at(alloc, tree, store, i)?;
        kept.push(own)?;
    }
    Ok(kept)
}
