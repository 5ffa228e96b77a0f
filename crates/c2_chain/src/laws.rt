//! Laws of the children that assertion boxes name, and of how the manifests stand that ingredients name.
ghost use Rattle.std.specs.Prelude.{◌≡◌, ◌↔◌, ℕ, List, Some, Contains};
ghost use Rattle.c2_rules.specs.BoxPlaces.{child_at};
ghost use Rattle.c2_rules.specs.Chains.{IsChild, LabelsDiffer, boxes_at, child_of};
ghost use Rattle.c2_rules.specs.Claims.{Chained};
ghost use Rattle.c2_rules.specs.Readings.{ReadBox, Reading};
ghost use Rattle.c2_rules.specs.Seen.{Standing, standing_of};
ghost use Rattle.c2_chain.specs.Children.{HasBoxAt, NamesChild, Stands};

/// Where manifests have different labels, the child that one assertion box names is the manifest with the label that the box names, if that
/// stands earlier. The children of a manifest are those that its boxes name; and what a box with an index in the box tree names is a child
/// of the manifest that has this box.
pub fn a_box_names_one_child()
    ensures names { (rs : List Reading) (n m : ℕ) (box : ReadBox) → LabelsDiffer rs
        → (child_of rs n box ≡ Some m) ↔ NamesChild rs n box m }
    ensures children { (rs : List Reading) (n m : ℕ)
        → IsChild rs n m
        ↔ ((box : ReadBox) × Contains (boxes_at rs n) box × NamesChild rs n box m) }
    ensures indexed { (s : Chained) (index m : ℕ) → child_at s index ≡ Some m
        → (n : ℕ) × HasBoxAt s.boxes n index × IsChild s.readings n m }
{}

/// Where manifests have different labels, the one that has a label stands to another as one of four relations says: it isn't there, it
/// stands no earlier, or it is a child, which is touched or isn't.
pub fn a_label_stands_one_way()
    ensures { (rs : List Reading) (i : ℕ) (label : List ℕ) (s : Standing) → LabelsDiffer rs
        → (standing_of rs i label ≡ s) ↔ Stands rs i label s }
{}
