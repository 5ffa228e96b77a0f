// The line of `show`.
ghost use Rattle.std.specs.Prelude.{◌≡◌, ◌++◌, IfOk, OnOk, codes, false, string_bytes};
ghost use Rattle.serde_json.specs.View.{view};
ghost use Rattle.serde_json.specs.Written.{compact_text};
ghost use Rattle.c2_spec.specs.C2pa.Manifest.{IsStoreOf, manifests_of};
ghost use Rattle.c2_rules.specs.Claims.{active_of};
ghost use Rattle.c2_texts.specs.Items.{Appends, items_inside};
ghost use Rattle.c2_texts.specs.Show as form;

use crate::json::{comma, push_value};
use crate::manifests::push_manifest;
use c2_chain::{Chain, claim_of};
use c2_jumbf::Tree;
use c2_store::{Store, label, manifest_count};
use serde_json::Value;
use std::alloc::{AllocError, Global};

// Appends all manifests, each with its claim, in box order.
fn push_manifests(
    alloc: Global,
    out: &mut String,
    tree: &Tree<'_>,
    store: &Store,
    chain: &Chain<'_>,
) -> Result<(), AllocError>
    requires same { IsStoreOf tree.now store.now }
    requires manifests { chain.now.manifests ≡ manifests_of tree.now }
    ensures { let items = form.manifests_data chain.now.manifests chain.now.claims in
        OnOk result (Appends out.old out.new (items_inside false items)) }
{
    let mut later = false;
    for i in 0..manifest_count(store) {
        out.push_str(comma(later))?;
        push_manifest(alloc, out, tree, store, i, claim_of(chain, i))?;
        later = true;
    }
    Ok(())
}

// The label of the active manifest, which is the last.
fn active_value(alloc: Global, tree: &Tree<'_>, store: &Store) -> Result<Value, AllocError>
    requires { IsStoreOf tree.now store.now }
    ensures { let active = active_of (manifests_of tree.now) in
        IfOk result (λ value. view value ≡ form.active_data active) }
{
    let Some(last) = manifest_count(store).checked_sub(1) else {
        return Ok(Value::Null);
    };
    Value::try_from_str(alloc, label(tree, store, last))
}

// Appends the member that is the label of the active manifest, with the brace before it.
fn push_active(
    alloc: Global,
    out: &mut String,
    tree: &Tree<'_>,
    store: &Store,
) -> Result<(), AllocError>
    requires { IsStoreOf tree.now store.now }
    ensures { let active = form.active_data (active_of (manifests_of tree.now)) in
        OnOk result (Appends out.old out.new (codes "{\"active\":" ++ compact_text active)) }
{
    let active = active_value(alloc, tree, store)?;
    push_value(alloc, out, "{\"active\":", &active)
}

// Appends the line of `show`.
fn push_line(
    alloc: Global,
    out: &mut String,
    tree: &Tree<'_>,
    store: &Store,
    chain: &Chain<'_>,
) -> Result<(), AllocError>
    requires same { IsStoreOf tree.now store.now }
    requires manifests { chain.now.manifests ≡ manifests_of tree.now }
    ensures { let line = form.show_line chain.now.manifests chain.now.claims in
        OnOk result (Appends out.old out.new line) }
{
    push_active(alloc, out, tree, store)?;
    out.push_str(",\"manifests\":[")?;
    push_manifests(alloc, out, tree, store, chain)?;
    out.push_str("]}\n")?;
    Ok(())
}

/// The line of `show`: the manifests of a store with their claims as JSON, and which is active.
///
/// The JSON is written item by item: beside the line, no more than one entry of a claim or one box stands in memory.
pub fn show_line(
    alloc: Global,
    tree: &Tree<'_>,
    store: &Store,
    chain: &Chain<'_>,
) -> Result<String, AllocError>
    requires same { IsStoreOf tree.now store.now }
    requires manifests { chain.now.manifests ≡ manifests_of tree.now }
    ensures { let line = form.show_line chain.now.manifests chain.now.claims in
        IfOk result (λ text. string_bytes text ≡ line) }
{
    let mut text = String::new(alloc);
    push_line(alloc, &mut text, tree, store, chain)?;
    Ok(text)
}
