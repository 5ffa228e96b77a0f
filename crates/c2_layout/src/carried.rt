// What a new store takes over of older ones.
ghost use Rattle.std.specs.Prelude.{◌≡◌, []};

use c2_base::{Blob, Text};
use c2_definition::NewAssertion;
use c2_hash::Digest;
use std::alloc::Global;

/// A manifest that is an ingredient of a new one: how the new manifest refers to it.
#[derive(Debug, Drop)]
pub struct ManifestRefs {
    /// The label of that manifest.
    pub label: Text,

    /// The digest of its contents, as they stand in the new store, by the algorithm of the new manifest.
    pub contents: Digest,

    /// The digest of the contents of its signature box by the same algorithm.
    pub signed: Digest,
}

/// What a new store takes over of older ones.
#[derive(Debug, Drop)]
pub struct Carried {
    /// The boxes that are carried, one after the other.
    pub boxes: Blob,

    /// The assertions of the new manifest's ingredients, which are manifests of those boxes.
    pub ingredients: Vec<NewAssertion>,
}

impl Carried {
    /// What is taken over where there is no older store. Takes no memory.
    pub fn nothing(alloc: Global) -> Carried
        ensures boxes { result.boxes ≡ [] }
        ensures ingredients { result.ingredients.items ≡ [] }
    {
        Carried {
            boxes: Blob::from_vec(Vec::new(alloc)),
            ingredients: Vec::new(alloc),
        }
    }
}
