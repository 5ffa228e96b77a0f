// The lines of `list`.
ghost use Rattle.std.specs.Prelude.{◌≡◌, ◌<◌, IfOk, OnOk, slice_index, string_bytes};
ghost use Rattle.std.specs.Option.{option_map};
ghost use Rattle.hex.specs.Hex.{encode_lower, lower_digits};
ghost use Rattle.c2_spec.specs.Jumbf.Boxes.{box_at, tree_count};
ghost use Rattle.c2_texts.specs.Items.{Appends};
ghost use Rattle.c2_texts.specs.Texts as form;

use crate::control::push_printable;
use c2_jumbf::{Tree, count, depth, kind, label_of, place, total};
use std::alloc::{AllocError, Global};

// No line has fewer bytes: three digits, eight of the type, a dash, four spaces and the line feed.
const LEAST_LINE: usize = 17;

// The hex digits.
const DIGITS: &[u8; 16] = b"0123456789abcdef";

/// The boxes of a tree in preorder, a line each: depth, place, length, type in hex, and the label, with `?` for control
/// bytes, or a dash where it is missing or empty.
pub fn listing(alloc: Global, tree: &Tree<'_>) -> Result<String, AllocError>
    ensures { IfOk result (λ text. string_bytes text ≡ form.listing tree.now) }
{
    let mut text = String::with_capacity(alloc, count(tree).saturating_mul(LEAST_LINE))?;
    'boxes: for i in 0..count(tree) {
        push_line(&mut text, tree, i)?;
    }
    Ok(text)
}

// Appends the line of a box.
fn push_line(text: &mut String, tree: &Tree<'_>, i: usize) -> Result<(), AllocError>
    requires { i < tree_count tree.now }
    ensures { OnOk result (Appends text.old text.new (form.box_line (box_at tree.now i))) }
{
    push_numbers(text, depth(tree, i), place(tree, i), total(tree, i))?;
    text.push(' ')?;
    push_hex(text, &kind(tree, i))?;
    text.push(' ')?;
    push_label(text, label_of(tree, i))?;
    text.push('\n')?;
    Ok(())
}

// Appends the depth, the place and the length of a box.
fn push_numbers(
    text: &mut String,
    depth: usize,
    place: usize,
    total: usize,
) -> Result<(), AllocError>
    ensures { OnOk result (Appends text.old text.new (form.box_numbers depth place total)) }
{
    write!(text, "{depth} {place} {total}")
}

// The hex digit of a number below 16.
fn digit(n: u8) -> char
    requires { n < 16 }
    ensures value { result ≡ slice_index lower_digits n }
    ensures ascii { result < 128 }
{
    char::from(DIGITS[usize::from(n)])
}

// Appends bytes in hex.
fn push_hex(text: &mut String, bytes: &[u8]) -> Result<(), AllocError>
    ensures { OnOk result (Appends text.old text.new (encode_lower bytes.now)) }
{
    for byte in bytes {
        text.push(digit(*byte / 16))?;
        text.push(digit(*byte % 16))?;
    }
    Ok(())
}

// Appends a label with `?` for control bytes, and a dash where it is missing or empty.
fn push_label(text: &mut String, label: Option<&str>) -> Result<(), AllocError>
    ensures { let column = form.label_column (option_map (λ text. text.now) label.entry) in
        OnOk result (Appends text.old text.new column) }
{
    match label {
        Some(label) if !label.is_empty() => push_printable(text, label),
        _ => text.push('-'),
    }
}
