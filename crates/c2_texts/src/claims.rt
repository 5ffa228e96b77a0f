// What `show` says of claims.
ghost use Rattle.std.specs.Prelude.{◌≡◌, ◌++◌, IfOk, OnOk, codes, false, map};
ghost use Rattle.std.specs.Option.{option_map};
ghost use Rattle.hex.specs.Hex.{encode_lower};
ghost use Rattle.serde_json.specs.Data.{array, string};
ghost use Rattle.serde_json.specs.View.{items_of, view};
ghost use Rattle.serde_json.specs.Written.{comma_if, compact_text};
ghost use Rattle.c2_texts.specs.Items.{Appends, AppendsItems, items_inside};
ghost use Rattle.c2_texts.specs.Show as form;

use crate::json::{comma, push_text, push_value};
use c2_base::Text;
use c2_spec::{Claim, Ref};
use serde_json::Value;
use std::alloc::{AllocError, Global};

// A text that may be missing.
fn text_or_null(alloc: Global, text: &Option<Text>) -> Result<Value, AllocError>
    ensures { IfOk result (λ value. view value ≡ form.text_or_null text.now) }
{
    match text {
        Some(text) => Value::try_from_str(alloc, text.as_str()),
        None => Ok(Value::Null),
    }
}

// Appends this text and a text that may be missing.
fn push_text_or_null(
    alloc: Global,
    out: &mut String,
    before: &str,
    text: &Option<Text>,
) -> Result<(), AllocError>
    ensures { let text = before.now ++ compact_text (form.text_or_null text.now) in
        OnOk result (Appends out.old out.new text) }
{
    let value = text_or_null(alloc, text)?;
    push_value(alloc, out, before, &value)
}

// Appends the member that is an entry's digest, in hex.
fn push_hash(alloc: Global, out: &mut String, hash: &[u8]) -> Result<(), AllocError>
    ensures { let text = codes ",\"hash\":" ++ compact_text (string (encode_lower hash.now)) in
        OnOk result (Appends out.old out.new text) }
{
    let hex = hex::encode(alloc, hash)?;
    push_text(alloc, out, ",\"hash\":", hex.as_str())
}

// Appends an entry, behind a comma where one stands before.
fn push_entry(alloc: Global, out: &mut String, later: bool, entry: &Ref) -> Result<(), AllocError>
    ensures { let text = comma_if later ++ compact_text (form.entry_data entry.now) in
        OnOk result (Appends out.old out.new text) }
{
    out.push_str(comma(later))?;
    push_text_or_null(alloc, out, "{\"alg\":", &entry.alg)?;
    push_hash(alloc, out, entry.hash.as_slice())?;
    push_text(alloc, out, ",\"url\":", entry.url.as_str())?;
    out.push('}')?;
    Ok(())
}

// Appends these entries, and says whether the array has an entry now.
fn push_entries(
    alloc: Global,
    out: &mut String,
    before: bool,
    entries: &[Ref],
) -> Result<bool, AllocError>
    ensures { let items = map form.entry_data entries.now in
        IfOk result (λ later. AppendsItems before later out.old out.new items) }
{
    let mut later = before;
    for entry in entries {
        push_entry(alloc, out, later, entry)?;
        later = true;
    }
    Ok(later)
}

// Appends a claim's entries, the created ones first.
fn push_assertions(alloc: Global, out: &mut String, claim: &Claim) -> Result<(), AllocError>
    ensures { let entries = map form.entry_data (claim.now.created ++ claim.now.gathered) in
        let text = codes ",\"assertions\":" ++ compact_text (array (items_of entries)) in
        OnOk result (Appends out.old out.new text) }
{
    out.push_str(",\"assertions\":[")?;
    let later = push_entries(alloc, out, false, claim.created.as_slice())?;
    push_entries(alloc, out, later, claim.gathered.as_slice())?;
    out.push(']')?;
    Ok(())
}

// Appends these texts.
fn push_texts(alloc: Global, out: &mut String, texts: &[Text]) -> Result<(), AllocError>
    ensures { OnOk result (Appends out.old out.new (items_inside false (map string texts.now))) }
{
    let mut later = false;
    for text in texts {
        push_text(alloc, out, comma(later), text.as_str())?;
        later = true;
    }
    Ok(())
}

// Appends the URIs of what is redacted.
fn push_redacted(alloc: Global, out: &mut String, texts: &[Text]) -> Result<(), AllocError>
    ensures { let uris = map string texts.now in
        let text = codes ",\"redacted\":" ++ compact_text (array (items_of uris)) in
        OnOk result (Appends out.old out.new text) }
{
    out.push_str(",\"redacted\":[")?;
    push_texts(alloc, out, texts)?;
    out.push(']')?;
    Ok(())
}

// Appends a claim.
fn push_claim(alloc: Global, out: &mut String, claim: &Claim) -> Result<(), AllocError>
    ensures { OnOk result (Appends out.old out.new (compact_text (form.claim_data claim.now))) }
{
    push_text_or_null(alloc, out, "{\"alg\":", &claim.alg)?;
    push_assertions(alloc, out, claim)?;
    push_text_or_null(alloc, out, ",\"instanceID\":", &claim.instance)?;
    push_redacted(alloc, out, claim.redacted.as_slice())?;
    out.push('}')?;
    Ok(())
}

/// Appends a manifest's claim, or null where it has none.
pub fn push_claim_or_null(
    alloc: Global,
    out: &mut String,
    claim: Option<&Claim>,
) -> Result<(), AllocError>
    ensures { let value = form.claim_or_null (option_map (λ c. c.now) claim.entry) in
        OnOk result (Appends out.old out.new (compact_text value)) }
{
    let Some(claim) = claim else {
        out.push_str("null")?;
        return Ok(());
    };
    push_claim(alloc, out, claim)?;
    Ok(())
}
