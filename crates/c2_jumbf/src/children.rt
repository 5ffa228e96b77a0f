// The children of a box, and where labels lead.
ghost use Rattle.std.specs.Prelude.{◌≡◌, ◌+◌, ◌<◌, ℕ, Option, Some, None, IfSome, IfNone};
ghost use Rattle.std.specs.List.{slice_get, Contains};
ghost use Rattle.c2_spec.specs.Jumbf.Tree.{IsLegalTree};
ghost use Rattle.c2_spec.specs.Jumbf.Boxes.{tree_count, box_at, any_label, child_indices};
ghost use Rattle.c2_spec.specs.Jumbf.Boxes.{path_labels, LabelsLead};
ghost use Rattle.c2_jumbf.specs.Labels.{is_label};

use crate::borrowed::Tree;
use crate::boxes::{after, label_of};

/// The index of a box's child `k`, counted from 0, and none where it has not so many; a superbox's description box is its
/// child 0.
pub fn child(tree: &Tree<'_>, i: usize, k: usize) -> Option<usize>
    requires { i < tree_count tree.now }
    ensures { result ≡ slice_get (child_indices tree.now i) k }
{
    let end = after(tree, i);
    let mut at = i + 1;
    for _turn in 0..k {
        if at >= end {
            return None;
        }
        at = after(tree, at);
    }
    if at < end { Some(at) } else { None }
}

/// Whether a box is a superbox with this label.
fn is_labelled(tree: &Tree<'_>, i: usize, label: &str) -> bool
    requires { i < tree_count tree.now }
    ensures { result ≡ is_label label.now (any_label (box_at tree.now i).box) }
{
    match label_of(tree, i) {
        Some(own) => own == label,
        None => false,
    }
}

/// The child superbox with a label.
fn labelled_child(tree: &Tree<'_>, i: usize, label: &str) -> Option<usize>
    requires { i < tree_count tree.now }
    ensures legal { IsLegalTree 1 tree.now }
    ensures found { IfSome result (λ k. Contains (child_indices tree.now i) k
        × (any_label (box_at tree.now k).box ≡ Some label.now)) }
    ensures none { IfNone result ((k : ℕ) → Contains (child_indices tree.now i) k
        → any_label (box_at tree.now k).box ≡ Some label.now → ⊥) }
{
    let end = after(tree, i);
    let mut at = i + 1;
    while at < end {
        if is_labelled(tree, at, label) {
            return Some(at);
        }
        at = after(tree, at);
    }
    None
}

/// The box that a path leads to from a box: its labels, separated by `/`, are those of child superboxes, one inside the
/// other. None where one of them isn't there. The empty path is one empty label.
pub fn find(tree: &Tree<'_>, start: usize, path: &str) -> Option<usize>
    requires { start < tree_count tree.now }
    ensures within { IfSome result (λ i. i < tree_count tree.now) }
    ensures found { IfSome result (LabelsLead tree.now start (path_labels path.now)) }
    ensures none { IfNone result ((i : ℕ)
        → LabelsLead tree.now start (path_labels path.now) i → ⊥) }
    ensures only { (i : ℕ) → LabelsLead tree.now start (path_labels path.now) i → result ≡ Some i }
{
    // Only the prover needs this: it takes from here that the tree is legal.
    let _rows = &tree.rows;
    let mut at = start;
    for label in path.split('/') {
        match labelled_child(tree, at, label) {
            Some(next) => at = next,
            None => return None,
        }
    }
    Some(at)
}
