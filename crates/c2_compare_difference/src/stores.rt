// Two stores, and two manifests of them with one label, as they are compared.
ghost use Rattle.std.specs.Prelude.{◌≡◌, option_map};
ghost use Rattle.c2_compare_content.specs.Targets.{equalities, equality_of};

use c2_compare_content::Equality;
use c2_read_manifests::{ReadManifest, ReadManifests};

/// Two stores, and what is known of the manifests that they have in common.
#[derive(Clone, Copy)]
pub struct Stores<'a, 't, 'u, 'k> {
    /// The manifests of the first.
    pub first: &'a ReadManifests<'t>,

    /// The manifests of the second.
    pub second: &'a ReadManifests<'u>,

    /// Which lists are equal, of each manifest of the first and that of the second with its label.
    pub known: &'k [Equality],

    /// These stores were compared for it.
    pub ghost compared: { known.now ≡ equalities first.now second.now },
}

/// The manifests of two stores that have the label which an ingredient names.
#[derive(Clone, Copy)]
pub struct Target<'a, 't, 'u> {
    /// The label.
    pub name: &'a str,

    /// The manifest of the first store.
    pub left: Option<&'a ReadManifest<'t>>,

    /// The manifest of the second.
    pub right: Option<&'a ReadManifest<'u>>,

    /// Which of their lists are equal.
    pub known: Equality,

    /// These manifests were compared for it.
    pub ghost compared: { known
        ≡ equality_of (option_map (λ k. k.now) left) (option_map (λ k. k.now) right) },
}
