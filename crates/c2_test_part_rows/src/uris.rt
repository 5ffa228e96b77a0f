// JUMBF URIs and labels.
use crate::line::Line;
use c2_test_tables::Trouble;
use c2_uri::{Target, base_label, parse};
use std::alloc::Global;

fn show_target(out: &mut Line, target: Target<'_>) {
    match target {
        Target::Whole => out.text(" whole"),
        Target::Signature => out.text(" signature"),
        Target::Assertion(label) => {
            out.text(" assertion ");
            out.text(label);
        }
        Target::Other(path) => {
            out.text(" other ");
            out.text(path);
        }
    }
}

/// The manifest of the URI that a text spells, `-` where it is relative, and what it names.
pub fn shown(alloc: Global, spelled: &str) -> Result<String, Trouble> {
    let mut out = Line::new(alloc);
    match parse(spelled) {
        Some(uri) => {
            out.text(uri.manifest.unwrap_or("-"));
            show_target(&mut out, uri.target);
        }
        None => out.text("none"),
    }
    out.whole()
}

/// A label's base.
pub fn base(alloc: Global, label: &str) -> Result<String, Trouble> {
    Ok(String::from_str(alloc, base_label(label))?)
}
