// The manifests of a store, found by their labels.
ghost use Rattle.std.specs.Prelude.{◌≡◌, IfOk, Some};
ghost use Rattle.c2_spec.specs.C2pa.Manifest.{IsStoreOf, manifests_of};
ghost use Rattle.c2_rules.specs.Chains as form;
ghost use Rattle.c2_rules.specs.Chains.{label_in};
ghost use Rattle.c2_rules.specs.Readings.{AreReadings};
ghost use Rattle.c2_read_manifests.specs.Named.{FindsPlaces};

use crate::keeping::keep_store;
use crate::kept::ReadManifest;
use c2_base::NoMemory;
use c2_jumbf::Tree;
use c2_label_index::{Places, add_place, first_place, no_places};
use c2_store::Store;
use std::alloc::Global;
use std::marker::Model;

/// The manifests of a store in box order, as they were read, and where each label stands first.
#[derive(Drop)]
pub struct Manifests<'t> {
    kept: Vec<ReadManifest<'t>>,
    places: Places<'t>,
}

impl<'t> Model for Manifests<'t> {
    ghost use Rattle.std.specs.Prelude.{List};
    ghost use Rattle.std.specs.Coded.{codes};
    ghost use Rattle.c2_rules.proofs.ItemCode.{item_code};
    ghost use Rattle.c2_rules.specs.Readings.{Reading};
    ghost use Rattle.c2_read_manifests.specs.Named.{FindsPlaces};

    ghost Value = { List Reading };

    ghost coded = { Prim.hlevel (codes, item_code) };

    ghost view = { λ c. c.kept.items };

    ghost invariant = { λ c. FindsPlaces c.kept.items c.places };
}

/// The manifest's label, as it stands in the tree.
fn tree_label<'t>(own: &ReadManifest<'t>) -> &'t str
    ensures { result.now ≡ label_in own.now }
{
    match own.label {
        Some(label) => label,
        None => "",
    }
}

/// Where the labels of these manifests stand first.
fn places_of<'t>(alloc: Global, kept: &[ReadManifest<'t>]) -> Result<Places<'t>, NoMemory>
    ensures { IfOk result (λ places. FindsPlaces kept.now places) }
{
    let mut places = no_places(alloc);
    for i in 0..kept.len() {
        let label = tree_label(&kept[i]);
        add_place(&mut places, Some(label), i)?;
    }
    Ok(places)
}

/// What is read of the manifests of a store.
pub fn named_manifests<'t>(
    alloc: Global,
    tree: &'t Tree<'_>,
    store: &Store,
) -> Result<Manifests<'t>, NoMemory>
    requires { IsStoreOf tree.now store.now }
    ensures { IfOk result (λ all. AreReadings (manifests_of tree.now) all) }
{
    let kept = keep_store(alloc, tree, store)?;
    let places = places_of(alloc, kept.as_slice())?;
    Ok(Manifests { kept, places })
}

/// The manifests.
pub fn kept<'c, 't>(all: &'c Manifests<'t>) -> &'c [ReadManifest<'t>]
    ensures { result.now ≡ all.now }
{
    all.kept.as_slice()
}

/// The place of the manifest with this label.
pub fn place_among(all: &Manifests<'_>, name: &str) -> Option<usize>
    ensures { result ≡ form.place_of all.now name.now }
{
    first_place(&all.places, name)
}
