// JSON that is written piece by piece, so that no more than one small value of it stands in memory.
ghost use Rattle.std.specs.Prelude.{◌≡◌, ◌++◌, false, OnOk, codes};
ghost use Rattle.std.specs.List.{list_all};
ghost use Rattle.serde_json.specs.Data.{string};
ghost use Rattle.serde_json.specs.View.{view};
ghost use Rattle.serde_json.specs.Written.{comma_if, compact_text, has_float};
ghost use Rattle.c2_texts.specs.Items.{Appends};
ghost use Rattle.c2_texts.specs.Items as form;

use serde_json::Value;
use std::alloc::{AllocError, Global};

/// A comma, where something stands before.
pub fn comma(later: bool) -> &'static str
    ensures { result.now ≡ comma_if later }
{
    if later { "," } else { "" }
}

/// Appends this text and a value.
pub fn push_value(
    alloc: Global,
    out: &mut String,
    before: &str,
    value: &Value,
) -> Result<(), AllocError>
    requires { has_float (view value.now) ≡ false }
    ensures { let text = before.now ++ compact_text (view value.now) in
        OnOk result (Appends out.old out.new text) }
{
    let text = value.to_string(alloc)?;
    out.push_str(before)?;
    out.push_str(text.as_str())?;
    Ok(())
}

// Whether each byte of a text stands in a string of JSON as it is.
fn is_plain(text: &str) -> bool
    ensures { result ≡ list_all form.is_plain text.now }
{
    text.bytes().all(|b| !(b < b' ' || b == b'"' || b == b'\\'))
}

// Appends a text between quotes.
fn push_quoted(out: &mut String, text: &str) -> Result<(), AllocError>
    ensures { OnOk result (Appends out.old out.new (codes "\"" ++ text.now ++ codes "\"")) }
{
    out.push('"')?;
    out.push_str(text)?;
    out.push('"')?;
    Ok(())
}

/// Appends this text and a string. Where nothing of it is escaped, it is written into the text as it is.
pub fn push_text(
    alloc: Global,
    out: &mut String,
    before: &str,
    text: &str,
) -> Result<(), AllocError>
    ensures { let text = before.now ++ compact_text (string text.now) in
        OnOk result (Appends out.old out.new text) }
{
    if !is_plain(text) {
        let value = Value::try_from_str(alloc, text)?;
        return push_value(alloc, out, before, &value);
    }
    out.push_str(before)?;
    push_quoted(out, text)?;
    Ok(())
}
