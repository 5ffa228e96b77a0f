// What a store keeps.
ghost use Rattle.std.specs.Prelude.{◌≡◌, ◌<◌, Some, length, slice_get, option_map, option_and_then};
ghost use Rattle.c2_spec.specs.Jumbf.Boxes.{box_at, any_label};
ghost use Rattle.c2_spec.specs.C2pa.Manifest.{IsStoreOf};
ghost use Rattle.c2_spec.specs.declared.store.ManifestBoxes.{ManifestBoxes as Boxes};

use c2_jumbf::{Tree, label_of};
use c2_spec::ManifestBoxes;
use std::marker::Model;

/// The manifests of a store in box order, the last one active: indices of boxes in the tree that it was read from.
#[derive(Debug, Drop)]
pub struct Store {
    manifests: Vec<ManifestBoxes>,
}

impl Model for Store {
    ghost use Rattle.std.specs.Prelude.{List};
    ghost use Rattle.c2_spec.specs.declared.store.ManifestBoxes.{ManifestBoxes};

    ghost Value = { List ManifestBoxes };

    ghost view = { λ s. s.manifests.items };
}

impl Store {
    ghost use Rattle.std.specs.Prelude.{◌≡◌};

    pub(crate) fn from_list(manifests: Vec<ManifestBoxes>) -> Store
        ensures { result ≡ manifests.items }
    {
        Store { manifests }
    }

    fn at(&self, i: usize) -> &ManifestBoxes
        requires { i < length self.now }
        ensures { Some result.now ≡ slice_get self.now i }
    {
        &self.manifests[i]
    }
}

/// The number of manifests. Takes no memory.
pub fn manifest_count(store: &Store) -> usize
    ensures { result ≡ length store.now }
{
    store.manifests.len()
}

/// The boxes of a manifest, by their indices. Takes no memory.
pub fn manifest_boxes(store: &Store, i: usize) -> &ManifestBoxes
    requires { i < length store.now }
    ensures { Some result.now ≡ slice_get store.now i }
{
    store.at(i)
}

/// The index of a manifest's own box. Takes no memory.
pub fn whole(store: &Store, i: usize) -> usize
    requires { i < length store.now }
    ensures { Some result ≡ option_map (λ (m : Boxes). m.whole) (slice_get store.now i) }
{
    store.at(i).whole
}

/// A manifest's label, from the tree that the store was read from. Takes no memory.
pub fn label<'t>(tree: &'t Tree<'_>, store: &Store, i: usize) -> &'t str
    requires inside { i < length store.now }
    requires same { IsStoreOf tree.now store.now }
    ensures { Some result.now ≡ option_and_then
        (λ (m : Boxes). any_label (box_at tree.now m.whole).box) (slice_get store.now i) }
{
    match label_of(tree, whole(store, i)) {
        Some(label) => label,
        None => "",
    }
}

/// Whether a manifest is an update. Takes no memory.
pub fn is_update(store: &Store, i: usize) -> bool
    requires { i < length store.now }
    ensures { Some result ≡ option_map (λ (m : Boxes). m.is_update) (slice_get store.now i) }
{
    store.at(i).is_update
}

/// The indices of a manifest's claim boxes, in order. Takes no memory.
pub fn claims(store: &Store, i: usize) -> &[usize]
    requires { i < length store.now }
    ensures { Some result.now ≡ option_map (λ (m : Boxes). m.claims) (slice_get store.now i) }
{
    store.at(i).claims.as_slice()
}

/// The index of a manifest's signature box; none where it has none. Takes no memory.
pub fn signature(store: &Store, i: usize) -> Option<usize>
    requires { i < length store.now }
    ensures { Some result ≡ option_map (λ (m : Boxes). m.signature) (slice_get store.now i) }
{
    store.at(i).signature
}

/// The indices of the superboxes in a manifest's assertion store, in order; none where it has no such store. Takes no
/// memory.
pub fn assertions(store: &Store, i: usize) -> &[usize]
    requires { i < length store.now }
    ensures { Some result.now ≡ option_map (λ (m : Boxes). m.assertions) (slice_get store.now i) }
{
    store.at(i).assertions.as_slice()
}
