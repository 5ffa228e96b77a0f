// The boxes of one manifest.
ghost use Rattle.std.specs.Prelude.{◌≡◌, ◌<◌, All, IfOk, IfSome, codes};
ghost use Rattle.c2_spec.specs.Jumbf.Boxes.{tree_count, box_at};
ghost use Rattle.c2_spec.specs.C2pa.Manifest as form;

use crate::boxes::{has_label, has_uuid, push_if, superboxes};
use c2_base::NoMemory;
use c2_jumbf::Tree;
use c2_spec::kinds::{ASSERTIONS_TYPE, CLAIM_TYPE, SIGNATURE_TYPE, UPDATE_TYPE};
use c2_spec::{Indices, ManifestBoxes};
use std::alloc::Global;

fn is_claim(tree: &Tree<'_>, i: usize) -> bool
    requires { i < tree_count tree.now }
    ensures { result ≡ form.has_type (codes "c2cl") (box_at tree.now i).box }
{
    has_uuid(tree, i, &CLAIM_TYPE)
}

fn is_signature(tree: &Tree<'_>, i: usize) -> bool
    requires { i < tree_count tree.now }
    ensures { result
        ≡ form.is_named (codes "c2cs") (codes "c2pa.signature") (box_at tree.now i).box }
{
    has_uuid(tree, i, &SIGNATURE_TYPE) && has_label(tree, i, "c2pa.signature")
}

fn is_assertion_store(tree: &Tree<'_>, i: usize) -> bool
    requires { i < tree_count tree.now }
    ensures { result
        ≡ form.is_named (codes "c2as") (codes "c2pa.assertions") (box_at tree.now i).box }
{
    has_uuid(tree, i, &ASSERTIONS_TYPE) && has_label(tree, i, "c2pa.assertions")
}

/// The boxes of type `c2cl` among these.
#[tactic(auto, using(crate::proofs::Picking::filter_step, crate::proofs::Picking::filter_all))]
fn claims_in(alloc: Global, tree: &Tree<'_>, boxes: &[usize]) -> Result<Indices, NoMemory>
    requires { All (λ i. i < tree_count tree.now) boxes.now }
    ensures { IfOk result (λ found. found ≡ form.claims_in tree.now boxes.now) }
{
    let mut found = Vec::new(alloc);
    for i in boxes {
        let wanted = is_claim(tree, *i);
        push_if(&mut found, *i, wanted)?;
    }
    Ok(Indices::from_list(found))
}

/// The signature box among these.
#[tactic(auto, using(crate::proofs::Picking::find_here, crate::proofs::Picking::find_next, crate::proofs::Picking::find_none))]
fn signature_in(tree: &Tree<'_>, boxes: &[usize]) -> Option<usize>
    requires { All (λ i. i < tree_count tree.now) boxes.now }
    ensures { result ≡ form.signature_in tree.now boxes.now }
{
    for i in boxes {
        if is_signature(tree, *i) {
            return Some(*i);
        }
    }
    None
}

/// The assertion store among these boxes.
#[tactic(auto, using(crate::proofs::Picking::find_here, crate::proofs::Picking::find_next, crate::proofs::Picking::find_none))]
fn assertion_store_in(tree: &Tree<'_>, boxes: &[usize]) -> Option<usize>
    requires { All (λ i. i < tree_count tree.now) boxes.now }
    ensures found { result ≡ form.assertion_store_in tree.now boxes.now }
    ensures within { IfSome result (λ i. i < tree_count tree.now) }
{
    for i in boxes {
        if is_assertion_store(tree, *i) {
            return Some(*i);
        }
    }
    None
}

/// The superboxes of the assertion store among these boxes.
fn assertions_in(alloc: Global, tree: &Tree<'_>, boxes: &[usize]) -> Result<Indices, NoMemory>
    requires { All (λ i. i < tree_count tree.now) boxes.now }
    ensures { IfOk result (λ found.
        found ≡ form.inside tree.now (form.assertion_store_in tree.now boxes.now)) }
{
    match assertion_store_in(tree, boxes) {
        Some(i) => {
            let found = superboxes(alloc, tree, i)?;
            Ok(Indices::from_list(found))
        }
        None => Ok(Indices::from_list(Vec::new(alloc))),
    }
}

/// The boxes of the manifest at this index.
pub fn manifest(alloc: Global, tree: &Tree<'_>, i: usize) -> Result<ManifestBoxes, NoMemory>
    requires { i < tree_count tree.now }
    ensures { IfOk result (λ m. m ≡ form.manifest_boxes tree.now i) }
{
    let boxes = superboxes(alloc, tree, i)?;
    let claims = claims_in(alloc, tree, &boxes)?;
    let signature = signature_in(tree, &boxes);
    let assertions = assertions_in(alloc, tree, &boxes)?;
    Ok(ManifestBoxes {
        whole: i,
        is_update: has_uuid(tree, i, &UPDATE_TYPE),
        claims,
        signature,
        assertions,
    })
}
