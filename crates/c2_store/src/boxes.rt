// Boxes by type and label, and the superboxes in a box.
ghost use Rattle.std.specs.Prelude.{◌≡◌, ◌<◌, [], ◌∷◌, ◌++◌, if◌then◌else◌, All, IfOk, OnOk};
ghost use Rattle.c2_spec.specs.Jumbf.Boxes.{tree_count, box_at, any_uuid};
ghost use Rattle.c2_spec.specs.C2pa.Manifest as form;

use c2_base::NoMemory;
use c2_jumbf::{Tree, after, label_of, uuid_of};
use std::alloc::Global;

/// Whether a box is a superbox with this type UUID.
pub fn has_uuid(tree: &Tree<'_>, i: usize, uuid: &[u8; 16]) -> bool
    requires { i < tree_count tree.now }
    ensures { result ≡ form.is_given (any_uuid (box_at tree.now i).box) uuid.now }
{
    match uuid_of(tree, i) {
        Some(own) => own.as_slice() == uuid.as_slice(),
        None => false,
    }
}

/// Whether a box is a superbox with this label.
pub fn has_label(tree: &Tree<'_>, i: usize, label: &str) -> bool
    requires { i < tree_count tree.now }
    ensures { result ≡ form.has_label label.now (box_at tree.now i).box }
{
    match label_of(tree, i) {
        Some(own) => own == label,
        None => false,
    }
}

fn is_superbox(tree: &Tree<'_>, i: usize) -> bool
    requires { i < tree_count tree.now }
    ensures { result ≡ form.is_superbox tree.now i }
{
    uuid_of(tree, i).is_some()
}

/// One more index at the end, where it is wanted.
pub fn push_if(found: &mut Vec<usize>, i: usize, wanted: bool) -> Result<(), NoMemory>
    ensures { OnOk result (found.new.items
        ≡ (if wanted then found.old.items ++ i ∷ [] else found.old.items)) }
{
    if wanted {
        found.push(i)?;
    }
    Ok(())
}

/// The child superboxes of a box, in order.
pub fn superboxes(alloc: Global, tree: &Tree<'_>, i: usize) -> Result<Vec<usize>, NoMemory>
    requires { i < tree_count tree.now }
    ensures found { IfOk result (λ v. v.items ≡ form.superboxes tree.now i) }
    ensures within { IfOk result (λ v. All (λ j. j < tree_count tree.now) v.items) }
{
    let end = after(tree, i);
    let mut found = Vec::new(alloc);
    let mut at = i + 1;
    while at < end {
        let next = after(tree, at);
        let wanted = is_superbox(tree, at);
        push_if(&mut found, at, wanted)?;
        at = next;
    }
    Ok(found)
}
