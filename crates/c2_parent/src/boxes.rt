// Boxes of a tree, appended as they stand or with other boxes in them.
ghost use Rattle.std.specs.Prelude.{◌≡◌, ◌++◌, ◌<◌, ◌≤◌, OnOk, length};
ghost use Rattle.c2_spec.specs.Jumbf.Tree.{head_bytes, trees_bytes};
ghost use Rattle.c2_spec.specs.Jumbf.Boxes.{tree_count, box_at, index_after, any_bytes};
ghost use Rattle.c2_spec.specs.Jumbf.Boxes.{any_contents, any_kind, any_wide};
ghost use Rattle.c2_parent.specs.Boxes.{AreFrom, any_boxes, front_bytes};
ghost use Rattle.c2_new_file_spec.specs.Redacting.{boxes_in};

use c2_base::NoMemory;
use c2_jumbf::{Tree, after, contents, count, kind, total, uuid_of};

/// The index of the first box of a box behind its description, or of what comes after it where it has none.
pub fn first_box(tree: &Tree<'_>, i: usize) -> usize
    requires { i < tree_count tree.now }
    ensures { AreFrom tree.now result (index_after tree.now i) (any_boxes (box_at tree.now i).box) }
{
    let end = after(tree, i);
    if end == i + 1 { end } else { i + 2 }
}

/// Whether a box's length stands in XLBox.
fn is_wide(tree: &Tree<'_>, i: usize) -> bool
    requires { i < tree_count tree.now }
    ensures { result ≡ any_wide (box_at tree.now i).box }
{
    total(tree, i) - contents(tree, i).len() == 16
}

/// Appends the header of a box, of which so many bytes are left behind it.
pub fn append_head(out: &mut Vec<u8>, tree: &Tree<'_>, i: usize, len: usize) -> Result<(), NoMemory>
    requires inside { i < tree_count tree.now }
    requires fits { len ≤ length (any_contents (box_at tree.now i).box) }
    ensures { let b = (box_at tree.now i).box in
        OnOk result (out.new.items ≡ out.old.items ++ head_bytes (any_kind b) (any_wide b) len) }
{
    // Only the prover needs this: it takes from here that the tree is legal.
    let _count = count(tree);
    let behind = contents(tree, i).len();
    let name = kind(tree, i);
    if is_wide(tree, i) {
        let long = 16 + len as u64;
        out.extend_from_slice(&1u32.to_be_bytes())?;
        out.extend_from_slice(&name)?;
        out.extend_from_slice(&long.to_be_bytes())?;
    } else {
        let short = (8 + len) as u32;
        out.extend_from_slice(&short.to_be_bytes())?;
        out.extend_from_slice(&name)?;
    }
    Ok(())
}

/// Appends a box as it stands.
pub fn append_box(out: &mut Vec<u8>, tree: &Tree<'_>, i: usize) -> Result<(), NoMemory>
    requires { i < tree_count tree.now }
    ensures { OnOk result (out.new.items ≡ out.old.items ++ any_bytes (box_at tree.now i).box) }
{
    let behind = contents(tree, i);
    append_head(out, tree, i, behind.len())?;
    out.extend_from_slice(behind)?;
    Ok(())
}

/// Appends what stands before the boxes of a box, behind its header: its description, or all that it has.
pub fn append_front(out: &mut Vec<u8>, tree: &Tree<'_>, i: usize) -> Result<(), NoMemory>
    requires { i < tree_count tree.now }
    ensures { OnOk result (out.new.items ≡ out.old.items ++ front_bytes (box_at tree.now i).box) }
{
    // Only the prover needs this: it takes from here that the tree's boxes can be counted.
    let _count = count(tree);
    if uuid_of(tree, i).is_some() {
        return append_box(out, tree, i + 1);
    }
    out.extend_from_slice(contents(tree, i))?;
    Ok(())
}

/// The boxes of the root behind its description, as they stand.
pub fn whole_boxes<'t>(tree: &'t Tree<'_>) -> &'t [u8]
    ensures { result.now ≡ trees_bytes (boxes_in tree.now) }
{
    // Only the prover needs this: it takes from here that a tree has a box.
    let _count = count(tree);
    let all = contents(tree, 0);
    if uuid_of(tree, 0).is_some() {
        return all.split_at(total(tree, 1)).1;
    }
    &all[all.len()..]
}
