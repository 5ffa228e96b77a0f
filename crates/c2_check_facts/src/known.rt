// What was found out before of the manifests of a store.

use crate::facts::Facts;
use c2_read_manifests::Placed;

/// A manifest's place in its store, and what was found out before of those manifests that are children.
#[derive(Clone, Copy)]
pub struct KnownStore<'c, 't> {
    /// The place.
    pub at: Placed<'c, 't>,

    /// What was found out.
    pub facts: &'c Facts,
}
