// Texts without control bytes.
ghost use Rattle.std.specs.Prelude.{◌≡◌, IfOk, OnOk, string_bytes};
ghost use Rattle.c2_compare_spec.specs.EvidenceText as form;
ghost use Rattle.c2_texts.specs.Items.{Appends};

use std::alloc::{AllocError, Global};

/// A copy of a text in which `?` stands for each control byte: those below 0x20, and 0x7F.
pub fn printable(alloc: Global, text: &str) -> Result<String, AllocError>
    ensures { IfOk result (λ copy. string_bytes copy ≡ form.printed text.now) }
{
    let mut copy = String::with_capacity(alloc, text.len())?;
    push_printable(&mut copy, text)?;
    Ok(copy)
}

/// Appends a text, with `?` for each control byte.
pub fn push_printable(out: &mut String, text: &str) -> Result<(), AllocError>
    ensures { OnOk result (Appends out.old out.new (form.printed text.now)) }
{
    for c in text.chars() {
        out.push(printable_char(c))?;
    }
    Ok(())
}

// A control byte is a character of its own.
fn printable_char(c: char) -> char
    ensures { result ≡ form.printed_byte c }
{
    if c < ' ' || c == '\x7F' { '?' } else { c }
}
