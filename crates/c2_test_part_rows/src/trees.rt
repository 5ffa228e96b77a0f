// Trees of boxes.
use crate::line::{Line, shown};
use crate::settings::Settings;
use c2_base::NoMemory;
use c2_jumbf::{
    Tree, child, contents, count, depth, find, head, kind, label_of, parse, place, total, uuid_of,
    write,
};
use c2_test_tables::Trouble;
use std::alloc::Global;

/// Depth, place, length, kind and label of each box; the tree is written as it was read.
pub fn listed(alloc: Global, bytes: &[u8]) -> Result<String, Trouble> {
    let mut out = Line::new(alloc);
    match parse(alloc, bytes) {
        Ok(tree) => {
            show_boxes(&mut out, &tree);
            show_written(alloc, &mut out, &tree, bytes);
        }
        Err(error) => out.debug(&error),
    }
    out.whole()
}

fn show_boxes(out: &mut Line, tree: &Tree<'_>) {
    let mut gap = "";
    for i in 0..count(tree) {
        out.text(gap);
        gap = " / ";
        show_box(out, tree, i);
    }
}

// What is written of a tree, where it isn't what was read.
fn show_written(alloc: Global, out: &mut Line, tree: &Tree<'_>, bytes: &[u8]) {
    match write(alloc, tree) {
        Ok(written) => {
            if written.as_slice() != bytes {
                out.text(", written in other bytes");
            }
        }
        Err(NoMemory) => out.cut(),
    }
}

// A box in a line; `''` is an empty label.
fn show_box(out: &mut Line, tree: &Tree<'_>, i: usize) {
    if i >= count(tree) {
        return;
    }
    out.number(depth(tree, i) as u64);
    out.text(" ");
    out.number(place(tree, i) as u64);
    out.text(" ");
    out.number(total(tree, i) as u64);
    out.text(" ");
    out.text(str::from_utf8(&kind(tree, i)).unwrap_or("?"));
    out.text(" ");
    match label_of(tree, i) {
        Some("") => out.text("''"),
        Some(label) => out.text(label),
        None => out.text("-"),
    }
}

/// The header, the type, the children and the contents of the box whose index is set.
pub fn one(alloc: Global, settings: &Settings, bytes: &[u8]) -> Result<String, Trouble> {
    let i = settings.number("box")? as usize;
    let mut out = Line::new(alloc);
    let Ok(tree) = parse(alloc, bytes) else {
        return Err(Trouble::BadLine);
    };
    if i >= count(&tree) {
        return Err(Trouble::BadLine);
    }
    if let Ok(front) = head(bytes, place(&tree, i).min(bytes.len())) {
        out.debug(&front.header);
        out.text(" ");
        out.debug(&front.total);
        out.text(" ");
    }
    match uuid_of(&tree, i) {
        Some(uuid) => out.hex(uuid.as_slice()),
        None => out.text("-"),
    }
    show_children(&mut out, &tree, i);
    out.hex(contents(&tree, i));
    out.whole()
}

// The indices of the children of a box.
fn show_children(out: &mut Line, tree: &Tree<'_>, i: usize) {
    if i >= count(tree) {
        return;
    }
    out.text(" [");
    let mut gap = "";
    for k in 0..count(tree) {
        if let Some(index) = child(tree, i, k) {
            out.text(gap);
            gap = " ";
            out.number(index as u64);
        }
    }
    out.text("] ");
}

/// The index of the box to which the path that is set leads from the box whose index is set.
pub fn found(alloc: Global, settings: &Settings, bytes: &[u8]) -> Result<String, Trouble> {
    let i = settings.number("box")? as usize;
    let Ok(tree) = parse(alloc, bytes) else {
        return Err(Trouble::BadLine);
    };
    if i >= count(&tree) {
        return Err(Trouble::BadLine);
    }
    shown(alloc, &find(&tree, i, settings.text("path")))
}
