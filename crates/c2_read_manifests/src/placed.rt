// A manifest's place among the manifests of its store.
ghost use Rattle.std.specs.Prelude.{◌<◌, length};

use crate::chain::ReadManifests;

/// The manifests of a store, and the place of one among them.
#[derive(Clone, Copy)]
pub struct Placed<'c, 't> {
    /// The manifests.
    pub all: &'c ReadManifests<'t>,

    /// The place of the one.
    pub place: usize,

    /// It is a place among them.
    pub ghost inside: { place < length all.now },
}
