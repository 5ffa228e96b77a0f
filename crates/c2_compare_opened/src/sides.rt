// An accepted media file, as it is compared.

use c2_hard_binding::BoundText;
use c2_read_manifests::ReadManifests;
use c2_rules::Summary;

/// An accepted media file, as it is compared with another.
#[derive(Clone, Copy)]
pub struct Sided<'s, 't> {
    /// What was read of the manifests of its store.
    pub readings: &'s ReadManifests<'t>,

    /// What the binding of its active manifest covers.
    pub text: &'s BoundText,

    /// What its check counted.
    pub summary: Summary,
}
