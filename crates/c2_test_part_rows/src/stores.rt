// Stores, manifest by manifest.
use crate::line::Line;
use c2_jumbf::{Tree, parse};
use c2_store::{
    Store, assertions, claims, is_update, label, manifest_count, of_tree, signature, whole,
};
use c2_test_tables::Trouble;
use std::alloc::Global;

fn show_indices(out: &mut Line, indices: &[usize]) {
    out.text("[");
    let mut gap = "";
    for i in indices {
        out.text(gap);
        gap = ", ";
        out.number(*i as u64);
    }
    out.text("]");
}

/// The manifests of a store: label, index, kind, claim boxes, signature box, boxes of the assertion store; or the refusal.
pub fn shown(alloc: Global, bytes: &[u8]) -> Result<String, Trouble> {
    let mut out = Line::new(alloc);
    match parse(alloc, bytes) {
        Ok(tree) => show_tree(alloc, &mut out, &tree),
        Err(_) => out.text("no tree"),
    }
    out.whole()
}

fn show_tree(alloc: Global, out: &mut Line, tree: &Tree<'_>) {
    match of_tree(alloc, tree) {
        Ok(store) => {
            for i in 0..manifest_count(&store) {
                out.between(i == 0, "; ");
                out.text(label(tree, &store, i));
                show_manifest(out, &store, i);
            }
        }
        Err(error) => out.debug(&error),
    }
}

// A manifest but for its label.
fn show_manifest(out: &mut Line, store: &Store, i: usize) {
    if i >= manifest_count(store) {
        return;
    }
    out.text(" ");
    out.number(whole(store, i) as u64);
    out.text(if is_update(store, i) {
        " update "
    } else {
        " manifest "
    });
    show_indices(out, claims(store, i));
    match signature(store, i) {
        Some(index) => {
            out.text(" ");
            out.number(index as u64);
            out.text(" ");
        }
        None => out.text(" - "),
    }
    show_indices(out, assertions(store, i));
}
