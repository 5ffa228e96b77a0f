// A manifest of a store, as it is compared.

use c2_check_claim::Labelled;
use c2_read_manifests::Placed;

/// A manifest of a store: its place there, and the manifest with its boxes and entries by their labels.
#[derive(Clone, Copy)]
pub struct Side<'s, 'c, 't> {
    /// The place.
    pub at: &'s Placed<'c, 't>,

    /// The manifest.
    pub own: &'s Labelled<'c, 't>,
}
