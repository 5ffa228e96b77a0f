// Manifests of an older store, each less what redactions name of it.
ghost use Rattle.std.specs.Prelude.{◌≡◌, ◌++◌, ◌||◌, ◌<◌, ◌≤◌, [], IfOk, OnOk, if◌then◌else◌};
ghost use Rattle.std.specs.Prelude.{length, codes};
ghost use Rattle.c2_spec.specs.C2pa.Manifest as form;
ghost use Rattle.c2_spec.specs.Jumbf.Tree.{trees_bytes};
ghost use Rattle.c2_spec.specs.Jumbf.Boxes.{tree_count, box_at, any_bytes, any_contents, any_label};
ghost use Rattle.c2_rules.specs.Chains.{passes_some};
ghost use Rattle.c2_parent.specs.Boxes.{any_boxes, changed, child_of, is_any_store, lost};
ghost use Rattle.c2_parent.specs.Boxes.{lost_in_store, name_in};
ghost use Rattle.c2_parent.specs.Named.{is_among};
ghost use Rattle.c2_new_file_spec.specs.Redacting.{without, thin_boxes};

use crate::boxes::{append_box, append_front, append_head, first_box};
use crate::named::{Named, has_named};
use c2_base::NoMemory;
use c2_jumbf::{Tree, after, contents, label_of, total, uuid_of};
use c2_spec::kinds::ASSERTIONS_TYPE;

/// Whether a box has the label of an assertion store.
fn has_store_label(tree: &Tree<'_>, i: usize) -> bool
    requires { i < tree_count tree.now }
    ensures { result ≡ form.has_label (codes "c2pa.assertions") (box_at tree.now i).box }
{
    match label_of(tree, i) {
        Some(label) => label == "c2pa.assertions",
        None => false,
    }
}

/// Whether a box is an assertion store.
fn is_assertion_store(tree: &Tree<'_>, i: usize) -> bool
    requires { i < tree_count tree.now }
    ensures { result ≡ is_any_store (box_at tree.now i).box }
{
    match uuid_of(tree, i) {
        Some(uuid) => uuid.as_slice() == ASSERTIONS_TYPE.as_slice() && has_store_label(tree, i),
        None => false,
    }
}

/// The label of a box, or an empty one where it has none.
pub fn name_of<'t>(tree: &'t Tree<'_>, i: usize) -> &'t str
    requires { i < tree_count tree.now }
    ensures { result.now ≡ name_in (box_at tree.now i).box }
{
    match label_of(tree, i) {
        Some(label) => label,
        None => "",
    }
}

/// Whether an assertion box of the manifest with this label is named.
fn is_lost<'u>(tree: &'u Tree<'_>, i: usize, named: &Named<'u>, manifest: &'u str) -> bool
    requires { i < tree_count tree.now }
    ensures { result
        ≡ passes_some (is_among named.now manifest.now) (any_label (box_at tree.now i).box) }
{
    match label_of(tree, i) {
        Some(label) => has_named(named, manifest, label),
        None => false,
    }
}

/// How many bytes an assertion box has, if it is named.
fn len_if_lost<'u>(tree: &'u Tree<'_>, i: usize, named: &Named<'u>, manifest: &'u str) -> usize
    requires { i < tree_count tree.now }
    ensures { let b = (box_at tree.now i).box in
        result ≡ (if passes_some (is_among named.now manifest.now) (any_label b)
        then length (any_bytes b) else 0) }
{
    if is_lost(tree, i, named, manifest) {
        return total(tree, i);
    }
    0
}

/// How many bytes the boxes in a box have that are named.
fn lost_len<'u>(tree: &'u Tree<'_>, i: usize, named: &Named<'u>, manifest: &'u str) -> usize
    requires { i < tree_count tree.now }
    ensures { result
        ≡ lost (is_among named.now manifest.now) (any_boxes (box_at tree.now i).box) }
{
    // Only the prover needs this: all boxes together are no longer.
    let most = total(tree, i);
    let end = after(tree, i);
    let mut at = first_box(tree, i);
    let mut len = 0;
    while at < end {
        let more = len_if_lost(tree, at, named, manifest);
        let next = after(tree, at);
        len += more;
        at = next;
    }
    len
}

/// How many bytes the boxes in a manifest's first assertion store have that are named.
fn lost_in_manifest<'u>(tree: &'u Tree<'_>, i: usize, named: &Named<'u>, manifest: &'u str) -> usize
    requires { i < tree_count tree.now }
    ensures { result
        ≡ lost_in_store (is_among named.now manifest.now) (any_boxes (box_at tree.now i).box) }
{
    let end = after(tree, i);
    let mut at = first_box(tree, i);
    while at < end {
        if is_assertion_store(tree, at) {
            return lost_len(tree, at, named, manifest);
        }
        let next = after(tree, at);
        at = next;
    }
    0
}

/// Appends an assertion box, unless it is named.
fn append_unless_lost<'u>(
    out: &mut Vec<u8>,
    tree: &'u Tree<'_>,
    i: usize,
    named: &Named<'u>,
    manifest: &'u str,
) -> Result<(), NoMemory>
    requires { i < tree_count tree.now }
    ensures { let b = (box_at tree.now i).box in
        let gone = passes_some (is_among named.now manifest.now) (any_label b) in
        OnOk result (out.new.items
        ≡ out.old.items ++ (if gone then [] else any_bytes b)) }
{
    if is_lost(tree, i, named, manifest) {
        return Ok(());
    }
    append_box(out, tree, i)
}

/// Appends the boxes in a box, but for those that are named.
fn append_kept<'u>(
    out: &mut Vec<u8>,
    tree: &'u Tree<'_>,
    i: usize,
    named: &Named<'u>,
    manifest: &'u str,
) -> Result<(), NoMemory>
    requires { i < tree_count tree.now }
    ensures { OnOk result (out.new.items ≡ out.old.items
        ++ trees_bytes (without (is_among named.now manifest.now)
        (any_boxes (box_at tree.now i).box))) }
{
    let end = after(tree, i);
    let mut at = first_box(tree, i);
    while at < end {
        append_unless_lost(out, tree, at, named, manifest)?;
        let next = after(tree, at);
        at = next;
    }
    Ok(())
}

/// Appends a box less the boxes in it that are named.
fn append_store<'u>(
    out: &mut Vec<u8>,
    tree: &'u Tree<'_>,
    i: usize,
    named: &Named<'u>,
    manifest: &'u str,
) -> Result<(), NoMemory>
    requires { i < tree_count tree.now }
    ensures { OnOk result (out.new.items ≡ out.old.items
        ++ any_bytes (changed (without (is_among named.now manifest.now))
        (box_at tree.now i).box)) }
{
    let len = contents(tree, i).len() - lost_len(tree, i, named, manifest);
    append_head(out, tree, i, len)?;
    append_front(out, tree, i)?;
    append_kept(out, tree, i, named, manifest)
}

/// Appends a box in a manifest, of which the assertion store was met or wasn't, and tells whether it is met then.
fn append_child<'u>(
    out: &mut Vec<u8>,
    tree: &'u Tree<'_>,
    i: usize,
    named: &Named<'u>,
    manifest: &'u str,
    met: bool,
) -> Result<bool, NoMemory>
    requires { i < tree_count tree.now }
    ensures bytes { OnOk result (out.new.items ≡ out.old.items
        ++ any_bytes (child_of met (is_among named.now manifest.now) (box_at tree.now i).box)) }
    ensures met { IfOk result (λ now. now ≡ (met || is_any_store (box_at tree.now i).box)) }
{
    if met {
        append_box(out, tree, i)?;
        return Ok(true);
    }
    if is_assertion_store(tree, i) {
        append_store(out, tree, i, named, manifest)?;
        return Ok(true);
    }
    append_box(out, tree, i)?;
    Ok(false)
}

/// Appends the boxes in a manifest, of which the first assertion store is less the boxes that are named.
fn append_thinned<'u>(
    out: &mut Vec<u8>,
    tree: &'u Tree<'_>,
    i: usize,
    named: &Named<'u>,
    manifest: &'u str,
) -> Result<(), NoMemory>
    requires { i < tree_count tree.now }
    ensures { OnOk result (out.new.items ≡ out.old.items
        ++ trees_bytes (thin_boxes (is_among named.now manifest.now)
        (any_boxes (box_at tree.now i).box))) }
{
    let end = after(tree, i);
    let mut at = first_box(tree, i);
    let mut met = false;
    while at < end {
        let now = append_child(out, tree, at, named, manifest, met)?;
        let next = after(tree, at);
        met = now;
        at = next;
    }
    Ok(())
}

/// How many bytes a manifest has less what is named of it.
pub fn thinned_len<'u>(tree: &'u Tree<'_>, i: usize, named: &Named<'u>) -> usize
    requires { i < tree_count tree.now }
    ensures { let b = (box_at tree.now i).box in
        result ≡ length (any_bytes (changed (thin_boxes (is_among named.now (name_in b))) b)) }
{
    total(tree, i) - lost_in_manifest(tree, i, named, name_of(tree, i))
}

/// How many bytes there are behind the header of a manifest less what is named of it.
pub fn thinned_contents_len<'u>(tree: &'u Tree<'_>, i: usize, named: &Named<'u>) -> usize
    requires { i < tree_count tree.now }
    ensures size { let b = (box_at tree.now i).box in
        result ≡ length (any_contents (changed (thin_boxes (is_among named.now (name_in b))) b)) }
    ensures fits { result ≤ length (any_contents (box_at tree.now i).box) }
{
    contents(tree, i).len() - lost_in_manifest(tree, i, named, name_of(tree, i))
}

/// Appends what is behind the header of a manifest less what is named of it.
pub fn append_contents<'u>(
    out: &mut Vec<u8>,
    tree: &'u Tree<'_>,
    i: usize,
    named: &Named<'u>,
) -> Result<(), NoMemory>
    requires { i < tree_count tree.now }
    ensures { let b = (box_at tree.now i).box in
        OnOk result (out.new.items ≡ out.old.items
        ++ any_contents (changed (thin_boxes (is_among named.now (name_in b))) b)) }
{
    append_front(out, tree, i)?;
    append_thinned(out, tree, i, named, name_of(tree, i))
}

/// Appends a manifest less what is named of it.
pub fn append_manifest<'u>(
    out: &mut Vec<u8>,
    tree: &'u Tree<'_>,
    i: usize,
    named: &Named<'u>,
) -> Result<(), NoMemory>
    requires { i < tree_count tree.now }
    ensures { let b = (box_at tree.now i).box in
        OnOk result (out.new.items ≡ out.old.items
        ++ any_bytes (changed (thin_boxes (is_among named.now (name_in b))) b)) }
{
    let len = thinned_contents_len(tree, i, named);
    append_head(out, tree, i, len)?;
    append_contents(out, tree, i, named)
}
