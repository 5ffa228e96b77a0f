// New assertions.
ghost use Rattle.std.specs.Prelude.{◌≡◌, codes, option_map, option_and_then, IfOk};
ghost use Rattle.serde_json.specs.View.{view, items_view};
ghost use Rattle.c2_definition.specs.Json as json;
ghost use Rattle.c2_definition.specs.DefinitionFile as file;

use crate::differing::labels_differ;
use crate::keys::has_assertion_fields;
use crate::labels::is_new_label;
use crate::members::{hex_at, text_at};
use crate::types::{NewAssertion, NewAssertions, Payload};
use c2_base::{NoMemory, Text};
use serde_json::Value;
use std::alloc::Global;

// The label of a new assertion.
fn label_in(value: &Value) -> Option<&str>
    ensures { option_map (λ t. t.now) result
        ≡ json.kept file.is_new_label (json.text_at (codes "label") (view value.now)) }
{
    let label = text_at(value, "label")?;
    if !is_new_label(label) {
        return None;
    }
    Some(label)
}

// The content box that a word names.
fn payload_of(word: &str) -> Option<Payload>
    ensures { result ≡ file.payload_of word.now }
{
    if word == "cbor" {
        return Some(Payload::Cbor);
    }
    if word == "json" {
        return Some(Payload::Json);
    }
    None
}

// The content box of a new assertion.
fn payload_in(value: &Value) -> Option<Payload>
    ensures { result
        ≡ option_and_then file.payload_of (json.text_at (codes "kind") (view value.now)) }
{
    let word = text_at(value, "kind")?;
    payload_of(word)
}

// The new assertion that a value is, apart from what its bytes are.
fn assertion_of(alloc: Global, value: &Value) -> Result<Option<NewAssertion>, NoMemory>
    ensures { IfOk result (λ found. found ≡ file.assertion_of (view value.now)) }
{
    if !has_assertion_fields(value) {
        return Ok(None);
    }
    let Some(label) = label_in(value) else {
        return Ok(None);
    };
    let Some(kind) = payload_in(value) else {
        return Ok(None);
    };
    let Some(bytes) = hex_at(alloc, value, "hex")? else {
        return Ok(None);
    };
    let label = Text::copied(alloc, label)?;
    Ok(Some(NewAssertion { label, kind, bytes }))
}

// The new assertions that items are, where all are.
fn assertions_of(alloc: Global, items: &[Value]) -> Result<Option<NewAssertions>, NoMemory>
    ensures { IfOk result (λ found. found
        ≡ json.each_of file.assertion_of (items_view items.now)) }
{
    let mut assertions = Vec::new(alloc);
    for item in items {
        let Some(assertion) = assertion_of(alloc, item)? else {
            return Ok(None);
        };
        assertions.push(assertion)?;
    }
    Ok(Some(NewAssertions::from_list(assertions)))
}

// The new assertions of an object, whatever their labels.
fn assertion_list(alloc: Global, value: &Value) -> Result<Option<NewAssertions>, NoMemory>
    ensures { IfOk result (λ found. found
        ≡ json.optional_list_at file.assertion_of (codes "assertions") (view value.now)) }
{
    let Some(member) = value.get("assertions") else {
        return Ok(Some(NewAssertions::from_list(Vec::new(alloc))));
    };
    let Some(items) = member.as_array() else {
        return Ok(None);
    };
    assertions_of(alloc, items.as_slice())
}

/// The new assertions of an object, apart from what their bytes are.
pub fn assertions_in(alloc: Global, value: &Value) -> Result<Option<NewAssertions>, NoMemory>
    ensures { IfOk result (λ found. found ≡ file.assertions_in (view value.now)) }
{
    let Some(list) = assertion_list(alloc, value)? else {
        return Ok(None);
    };
    if !labels_differ(alloc, list.as_slice())? {
        return Ok(None);
    }
    Ok(Some(list))
}
