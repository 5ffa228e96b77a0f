// The boxes that are carried of an older store.
ghost use Rattle.std.specs.Prelude.{◌≡◌, ◌++◌, ◌<◌, IfOk, OnOk, length};
ghost use Rattle.c2_spec.specs.Jumbf.Boxes.{tree_count, box_at, any_bytes, any_contents, node};
ghost use Rattle.c2_spec.specs.Jumbf.Tree.{Tree as AnyTree, tree_bytes, trees_bytes};
ghost use Rattle.c2_new_file_spec.specs.Redacting.{boxes_in, redacted_box, redacted_boxes};
ghost use Rattle.c2_parent.specs.Boxes.{redacted_any};
ghost use Rattle.c2_parent.specs.Named.{AreNamed};

use crate::boxes::{first_box, whole_boxes};
use crate::manifests::{append_contents, append_manifest, thinned_len};
use crate::named::{Named, add_named, no_names};
use c2_base::{Blob, NoMemory, Text};
use c2_jumbf::{Tree, after, count, total};
use std::alloc::Global;
use std::marker::Model;

/// Redactions, which are seen as their texts, and the assertions that they name.
#[derive(Drop)]
pub struct Redactions<'u> {
    texts: &'u [Text],
    named: Named<'u>,
}

impl<'u> Model for Redactions<'u> {
    ghost use Rattle.std.specs.Prelude.{List, ℕ};
    ghost use Rattle.c2_parent.specs.Named.{AreNamed};

    ghost Value = { List (List ℕ) };

    ghost view = { λ r. r.texts.now };

    ghost invariant = { λ r. AreNamed r.texts.now r.named };
}

/// The assertions that texts name.
fn names_of<'u>(alloc: Global, texts: &'u [Text]) -> Result<Named<'u>, NoMemory>
    ensures { IfOk result (λ named. AreNamed texts.now named) }
{
    let mut named = no_names(alloc);
    for (k, text) in texts.iter().enumerate() {
        add_named(&mut named, text.as_str())?;
    }
    Ok(named)
}

/// These redactions, each read once.
pub fn redactions_of<'u>(alloc: Global, texts: &'u [Text]) -> Result<Redactions<'u>, NoMemory>
    ensures { IfOk result (λ r. r ≡ texts.now) }
{
    let named = names_of(alloc, texts)?;
    Ok(Redactions { texts, named })
}

/// How many bytes a manifest has less what is redacted of it.
fn redacted_len<'u>(tree: &'u Tree<'_>, i: usize, redactions: &Redactions<'u>) -> usize
    requires { i < tree_count tree.now }
    ensures { result ≡ length (any_bytes (redacted_any redactions.now (box_at tree.now i).box)) }
{
    thinned_len(tree, i, &redactions.named)
}

/// Appends a manifest less what is redacted of it.
fn append_redacted<'u>(
    out: &mut Vec<u8>,
    tree: &'u Tree<'_>,
    i: usize,
    redactions: &Redactions<'u>,
) -> Result<(), NoMemory>
    requires { i < tree_count tree.now }
    ensures { OnOk result (out.new.items ≡ out.old.items
        ++ any_bytes (redacted_any redactions.now (box_at tree.now i).box)) }
{
    append_manifest(out, tree, i, &redactions.named)
}

/// Appends what is behind the header of a manifest less what is redacted of it.
pub fn append_redacted_contents<'u>(
    out: &mut Vec<u8>,
    tree: &'u Tree<'_>,
    i: usize,
    redactions: &Redactions<'u>,
) -> Result<(), NoMemory>
    requires { i < tree_count tree.now }
    ensures { OnOk result (out.new.items ≡ out.old.items
        ++ any_contents (redacted_any redactions.now (box_at tree.now i).box)) }
{
    append_contents(out, tree, i, &redactions.named)
}

/// Appends a manifest of the store with this tree, less what is redacted of it: the box with this index.
pub fn append_less<'u>(
    out: &mut Vec<u8>,
    tree: &'u Tree<'_>,
    i: usize,
    redactions: &Redactions<'u>,
) -> Result<(), NoMemory>
    requires { i < tree_count tree.now }
    ensures { OnOk result ((manifest : AnyTree) → (box_at tree.now i).box ≡ node manifest
        → out.new.items ≡ out.old.items ++ tree_bytes (redacted_box redactions.now manifest)) }
{
    append_redacted(out, tree, i, redactions)
}

/// How many bytes the boxes have that are carried of the store with this tree. Takes no memory.
pub fn carried_len<'u>(tree: &'u Tree<'_>, redactions: &Redactions<'u>) -> usize
    ensures { result
        ≡ length (trees_bytes (redacted_boxes redactions.now (boxes_in tree.now))) }
{
    // Only the prover needs these two: a tree has a box, and all boxes together are no longer.
    let _count = count(tree);
    let most = total(tree, 0);
    let end = after(tree, 0);
    let mut at = first_box(tree, 0);
    let mut len = 0;
    while at < end {
        let more = redacted_len(tree, at, redactions);
        let next = after(tree, at);
        len += more;
        at = next;
    }
    len
}

/// Appends the boxes that are carried, where something may be redacted.
fn append_each<'u>(
    out: &mut Vec<u8>,
    tree: &'u Tree<'_>,
    redactions: &Redactions<'u>,
) -> Result<(), NoMemory>
    ensures { OnOk result (out.new.items ≡ out.old.items
        ++ trees_bytes (redacted_boxes redactions.now (boxes_in tree.now))) }
{
    // Only the prover needs this: a tree has a box.
    let _count = count(tree);
    let end = after(tree, 0);
    let mut at = first_box(tree, 0);
    while at < end {
        append_redacted(out, tree, at, redactions)?;
        let next = after(tree, at);
        at = next;
    }
    Ok(())
}

/// Appends the boxes that are carried of the store with this tree: those behind its description, one after the other, each
/// manifest less what is redacted of it. Without redactions they are one piece of the store's bytes.
pub fn append_carried<'u>(
    out: &mut Vec<u8>,
    tree: &'u Tree<'_>,
    redactions: &Redactions<'u>,
) -> Result<(), NoMemory>
    ensures { OnOk result (out.new.items ≡ out.old.items
        ++ trees_bytes (redacted_boxes redactions.now (boxes_in tree.now))) }
{
    if redactions.texts.is_empty() {
        out.extend_from_slice(whole_boxes(tree))?;
        return Ok(());
    }
    append_each(out, tree, redactions)
}

/// The boxes that are carried of the store with this tree.
pub fn carried_boxes<'u>(
    alloc: Global,
    tree: &'u Tree<'_>,
    redactions: &Redactions<'u>,
) -> Result<Blob, NoMemory>
    ensures { IfOk result
        (λ b. b ≡ trees_bytes (redacted_boxes redactions.now (boxes_in tree.now))) }
{
    let mut out = Vec::with_capacity(alloc, carried_len(tree, redactions))?;
    append_carried(&mut out, tree, redactions)?;
    Ok(Blob::from_vec(out))
}
