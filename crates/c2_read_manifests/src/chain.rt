// The manifests of a store, and what is reached, redacted and touched.
ghost use Rattle.std.specs.Prelude.{◌≡◌, ◌<◌, IfOk, Some, slice_get, length, map, option_map};
ghost use Rattle.c2_spec.specs.C2pa.Manifest.{IsStoreOf, manifests_of};
ghost use Rattle.c2_rules.specs.Chains as form;
ghost use Rattle.c2_rules.specs.Readings.{AreReadings, claim_in as claim_of};

use crate::kept::{AssertionBox, ReadManifest, claim_in};
use crate::labelled::{Manifests, kept, place_among};
use crate::places::{child_among, children_among};
use crate::redacted::{Redacting, fill_touched, is_redacted_at, reaching_of, redacting_manifests};
use crate::rows::{is_below_of, is_in_reach, is_last, named_of};
use c2_base::NoMemory;
use c2_jumbf::Tree;
use c2_spec::Claim;
use c2_store::Store;
use std::alloc::Global;
use std::marker::Model;

/// The manifests of a store in box order, as they were read; where each label stands first; which are reached from which;
/// which labels are redacted in each; and which are touched.
#[derive(Drop)]
pub struct ReadManifests<'t> {
    redacting: Redacting<'t>,
    touched: Vec<bool>,
}

impl<'t> Model for ReadManifests<'t> {
    ghost use Rattle.std.specs.Prelude.{List};
    ghost use Rattle.std.specs.Coded.{codes};
    ghost use Rattle.c2_rules.proofs.ItemCode.{item_code};
    ghost use Rattle.c2_rules.specs.Readings.{Reading};
    ghost use Rattle.c2_read_manifests.specs.Redacted.{AreTouched};

    ghost Value = { List Reading };

    ghost coded = { Prim.hlevel (codes, item_code) };

    ghost view = { λ c. c.redacting };

    ghost invariant = { λ c. AreTouched c.redacting c.touched.items };
}

/// What is read of the manifests of a store.
pub fn read_manifests<'t>(
    alloc: Global,
    tree: &'t Tree<'_>,
    store: &Store,
) -> Result<ReadManifests<'t>, NoMemory>
    requires { IsStoreOf tree.now store.now }
    ensures { IfOk result (λ all. AreReadings (manifests_of tree.now) all) }
{
    let redacting = redacting_manifests(alloc, tree, store)?;
    let touched = fill_touched(alloc, &redacting)?;
    Ok(ReadManifests { redacting, touched })
}

/// The manifests, found by their labels.
fn labelled<'c, 't>(all: &'c ReadManifests<'t>) -> &'c Manifests<'t>
    ensures { result.now ≡ all.now }
{
    named_of(reaching_of(&all.redacting))
}

/// The manifests. Takes no memory.
pub fn manifests<'c, 't>(all: &'c ReadManifests<'t>) -> &'c [ReadManifest<'t>]
    ensures { result.now ≡ all.now }
{
    kept(labelled(all))
}

/// The claim of a manifest, where it has one. Takes no memory.
#[tactic(auto, using(crate::proofs::RowLemmas::claim_at))]
pub fn read_claim_at<'c>(all: &'c ReadManifests<'_>, i: usize) -> Option<&'c Claim>
    requires { i < length all.now }
    ensures { slice_get (map claim_of all.now) i ≡ Some (option_map (λ c. c.now) result) }
{
    claim_in(&manifests(all)[i])
}

/// The place of the manifest with this label. Takes no memory.
pub fn place_of(all: &ReadManifests<'_>, name: &str) -> Option<usize>
    ensures { result ≡ form.place_of all.now name.now }
{
    place_among(labelled(all), name)
}

/// The place of the child that this box of the manifest at `n` names. Takes no memory.
pub fn child_of(all: &ReadManifests<'_>, n: usize, b: &AssertionBox<'_>) -> Option<usize>
    ensures { result ≡ form.child_of all.now n b.now }
{
    child_among(labelled(all), n, b)
}

/// The places of the children of the manifest at `n`, box by box.
pub fn children(alloc: Global, all: &ReadManifests<'_>, n: usize) -> Result<Vec<usize>, NoMemory>
    requires { n < length all.now }
    ensures { IfOk result (λ v. v.items ≡ form.children all.now n) }
{
    children_among(alloc, labelled(all), n)
}

/// Whether a manifest is reached from another by one or more child steps. Takes no memory.
pub fn reaches(all: &ReadManifests<'_>, n: usize, m: usize) -> bool
    requires n { n < length all.now }
    requires m { m < length all.now }
    ensures { result ≡ form.reaches all.now n m }
{
    is_below_of(reaching_of(&all.redacting), n, m)
}

/// Whether a manifest is the active one.
pub fn is_active(all: &ReadManifests<'_>, n: usize) -> bool
    requires { n < length all.now }
    ensures { result ≡ form.is_active all.now n }
{
    is_last(reaching_of(&all.redacting), n)
}

/// Whether a manifest is reached from the active one, or is it. Takes no memory.
pub fn is_reached(all: &ReadManifests<'_>, n: usize) -> bool
    requires { n < length all.now }
    ensures { result ≡ form.is_reached all.now n }
{
    is_in_reach(reaching_of(&all.redacting), n)
}

/// Whether a label is redacted in a manifest. Takes no memory.
pub fn is_redacted(all: &ReadManifests<'_>, m: usize, name: &str) -> bool
    requires { m < length all.now }
    ensures { result ≡ form.is_redacted all.now m name.now }
{
    is_redacted_at(&all.redacting, m, name)
}

/// Whether a manifest's claim lists a label that is redacted in it. Takes no memory.
pub fn is_touched(all: &ReadManifests<'_>, m: usize) -> bool
    requires { m < length all.now }
    ensures { result ≡ form.is_touched all.now m }
{
    match all.touched.get(m) {
        Some(touched) => *touched,
        None => false,
    }
}
