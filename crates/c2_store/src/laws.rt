//! Laws of the bytes of a store's boxes.
ghost use Rattle.std.specs.Prelude.{◌<◌, ℕ, List, IfSome, slice_get};
ghost use Rattle.c2_spec.specs.Jumbf.Tree.{Tree, SpellsTree};
ghost use Rattle.c2_spec.specs.Jumbf.Boxes.{IsPart, tree_count};
ghost use Rattle.c2_spec.specs.C2pa.Manifest.{Manifest, ArePartsOf, item_at, manifests_of};
ghost use Rattle.c2_spec.specs.C2pa.Manifest.{claim_bytes};

/// The item of a box, and the bytes of each manifest, are parts of the bytes that the store's tree was read from.
pub fn items_are_parts()
    ensures item { (s : List ℕ) (t : Tree) (i : ℕ) → SpellsTree s t → i < tree_count t
        → IfSome (item_at t i) (IsPart s) }
    ensures manifests { (s : List ℕ) (t : Tree) (i : ℕ) → SpellsTree s t
        → IfSome (slice_get (manifests_of t) i) (ArePartsOf s) }
    ensures claim { (s : List ℕ) (m : Manifest) → ArePartsOf s m
        → IfSome (claim_bytes m.claims) (IsPart s) }
{}
