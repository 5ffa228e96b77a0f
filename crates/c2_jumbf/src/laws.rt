//! Laws of bytes as a box tree, and of the bytes of its boxes.

ghost use Rattle.std.specs.Prelude.{◌≡◌, ◌⊎◌, ◌^◌, ◌<◌, ◌≤◌, ℕ, List, length};
ghost use Rattle.std.specs.List.{All};
ghost use Rattle.c2_spec.specs.Jumbf.Tree.{Tree, SpellsTree};
ghost use Rattle.c2_spec.specs.Jumbf.Faults.{JumbfFault};
ghost use Rattle.c2_spec.specs.Jumbf.Boxes.{IsPart, tree_count, box_at, any_bytes, any_contents};
ghost use Rattle.c2_spec.specs.declared.jumbf.JumbfError.{JumbfError};

/// Whatever the bytes are, they spell one legal tree, or one test is the first that fails; never both.
pub fn each_list_is_a_tree_or_not()
    ensures some { (bytes : List ℕ) → All (λ b. b < 2 ^ 8) bytes
        → ((t : Tree) × SpellsTree bytes t) ⊎ ((e : JumbfError) × JumbfFault bytes e) }
    ensures apart { (bytes : List ℕ) (t : Tree) (e : JumbfError) → SpellsTree bytes t
        → JumbfFault bytes e → ⊥ }
    ensures one_tree { (bytes : List ℕ) (t u : Tree) → SpellsTree bytes t → SpellsTree bytes u
        → t ≡ u }
    ensures one_fault { (bytes : List ℕ) (e f : JumbfError) → JumbfFault bytes e
        → JumbfFault bytes f → e ≡ f }
{}

/// The bytes of a box, and its contents, are parts of the bytes that its tree was read from.
pub fn boxes_are_parts()
    ensures whole { (s : List ℕ) (t : Tree) (i : ℕ) → SpellsTree s t → i < tree_count t
        → IsPart s (any_bytes (box_at t i).box) }
    ensures contents { (s : List ℕ) (t : Tree) (i : ℕ) → SpellsTree s t → i < tree_count t
        → IsPart s (any_contents (box_at t i).box) }
{}

/// A part of a list of bytes is one, and no longer.
pub fn parts_are_bytes()
    ensures bytes { (s x : List ℕ) → IsPart s x → All (λ b. b < 2 ^ 8) s → All (λ b. b < 2 ^ 8) x }
    ensures shorter { (s x : List ℕ) → IsPart s x → length x ≤ length s }
{}
