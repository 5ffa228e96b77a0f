// What `show` says of manifests.
ghost use Rattle.std.specs.Prelude.{◌≡◌, ◌<◌, ◌++◌, All, IfOk, List, OnOk, Some, codes, false};
ghost use Rattle.std.specs.Prelude.{length, map, slice_get, string_bytes};
ghost use Rattle.std.specs.List.{cons_option, filter_map};
ghost use Rattle.std.specs.Option.{option_map};
ghost use Rattle.serde_json.specs.Data.{Data, array, boolean};
ghost use Rattle.serde_json.specs.View.{items_of};
ghost use Rattle.serde_json.specs.Written.{comma_if, compact_text};
ghost use Rattle.c2_spec.specs.Jumbf.Boxes.{tree_count};
ghost use Rattle.c2_spec.specs.C2pa.Manifest.{IsStoreOf, superbox_at, manifest_at};
ghost use Rattle.c2_texts.specs.Items.{Appends, items_inside};
ghost use Rattle.c2_texts.specs.Show as form;

use crate::claims::push_claim_or_null;
use crate::json::{comma, push_text, push_value};
use c2_jumbf::{Tree, contents, label_of};
use c2_spec::Claim;
use c2_store::{Store, assertions, is_update, label};
use serde_json::Value;
use std::alloc::{AllocError, Global};

// Appends a box with this label and so many bytes of contents, behind a comma where one stands
// before.
fn push_sized(
    alloc: Global,
    out: &mut String,
    before: bool,
    label: &str,
    size: usize,
) -> Result<(), AllocError>
    ensures { let text = comma_if before ++ compact_text (form.sized_data size label.now) in
        OnOk result (Appends out.old out.new text) }
{
    out.push_str(comma(before))?;
    push_text(alloc, out, "{\"label\":", label)?;
    write!(out, ",\"size\":{size}}}")?;
    Ok(())
}

// Appends a box, where it has a label, and says whether the array has a box now.
fn push_box(
    alloc: Global,
    out: &mut String,
    before: bool,
    tree: &Tree<'_>,
    i: usize,
) -> Result<bool, AllocError>
    requires { i < tree_count tree.now }
    ensures { let box = form.box_data (superbox_at tree.now i) in
        IfOk result (λ later. (rest : List Data) → string_bytes out.new ++ items_inside later rest
        ≡ string_bytes out.old ++ items_inside before (cons_option box rest)) }
{
    let Some(label) = label_of(tree, i) else {
        return Ok(before);
    };
    push_sized(alloc, out, before, label, contents(tree, i).len())?;
    Ok(true)
}

// Appends those of these boxes that have labels.
fn push_boxes(
    alloc: Global,
    out: &mut String,
    tree: &Tree<'_>,
    boxes: &[usize],
) -> Result<(), AllocError>
    requires { All (λ i. i < tree_count tree.now) boxes.now }
    ensures { let items = filter_map form.box_data (map (superbox_at tree.now) boxes.now) in
        OnOk result (Appends out.old out.new (items_inside false items)) }
{
    let mut later = false;
    for i in boxes {
        later = push_box(alloc, out, later, tree, *i)?;
    }
    Ok(())
}

// Appends the array of those of these boxes that have labels.
fn push_labelled(
    alloc: Global,
    out: &mut String,
    tree: &Tree<'_>,
    boxes: &[usize],
) -> Result<(), AllocError>
    requires { All (λ i. i < tree_count tree.now) boxes.now }
    ensures { let items = filter_map form.box_data (map (superbox_at tree.now) boxes.now) in
        let text = codes "{\"boxes\":" ++ compact_text (array (items_of items)) in
        OnOk result (Appends out.old out.new text) }
{
    out.push_str("{\"boxes\":[")?;
    push_boxes(alloc, out, tree, boxes)?;
    out.push(']')?;
    Ok(())
}

// Appends the member that is a manifest's claim.
fn push_claim_member(
    alloc: Global,
    out: &mut String,
    claim: Option<&Claim>,
) -> Result<(), AllocError>
    ensures { let value = form.claim_or_null (option_map (λ c. c.now) claim.entry) in
        OnOk result (Appends out.old out.new (codes ",\"claim\":" ++ compact_text value)) }
{
    out.push_str(",\"claim\":")?;
    push_claim_or_null(alloc, out, claim)?;
    Ok(())
}

// Appends the member that says whether a manifest is an update.
fn push_update(alloc: Global, out: &mut String, update: bool) -> Result<(), AllocError>
    ensures { let text = codes ",\"update\":" ++ compact_text (boolean update) in
        OnOk result (Appends out.old out.new text) }
{
    let flag = Value::from(update);
    push_value(alloc, out, ",\"update\":", &flag)
}

/// Appends the manifest with this index, which has this claim.
pub fn push_manifest(
    alloc: Global,
    out: &mut String,
    tree: &Tree<'_>,
    store: &Store,
    i: usize,
    claim: Option<&Claim>,
) -> Result<(), AllocError>
    requires inside { i < length store.now }
    requires same { IsStoreOf tree.now store.now }
    ensures { let claim = option_map (λ c. c.now) claim.entry in
        OnOk result (Some (string_bytes out.new) ≡ option_map (λ m. string_bytes out.old
        ++ compact_text (form.manifest_data (manifest_at tree.now m) claim))
        (slice_get store.now i)) }
{
    push_labelled(alloc, out, tree, assertions(store, i))?;
    push_claim_member(alloc, out, claim)?;
    push_text(alloc, out, ",\"label\":", label(tree, store, i))?;
    push_update(alloc, out, is_update(store, i))?;
    out.push('}')?;
    Ok(())
}
