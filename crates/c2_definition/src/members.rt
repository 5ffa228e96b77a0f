// The members of an object.
ghost use Rattle.std.specs.Prelude.{◌≡◌, option_map, IfOk};
ghost use Rattle.std.specs.Result.{result_ok};
ghost use Rattle.hex.specs.Hex.{decode_of};
ghost use Rattle.serde_json.specs.Find.{as_str};
ghost use Rattle.serde_json.specs.View.{view, items_view};
ghost use Rattle.c2_definition.specs.Json as json;
ghost use Rattle.c2_definition.specs.DefinitionFile as file;

use c2_base::{Blob, NoMemory, Text, Texts};
use hex::FromHexError;
use serde_json::Value;
use std::alloc::Global;

/// The text under a key.
pub fn text_at<'v>(value: &'v Value, key: &str) -> Option<&'v str>
    ensures { option_map (λ t. t.now) result ≡ json.text_at key.now (view value.now) }
{
    let member = value.get(key)?;
    member.as_str()
}

/// The whole number under a key.
pub fn number_at(value: &Value, key: &str) -> Option<u64>
    ensures { result ≡ json.number_at key.now (view value.now) }
{
    let member = value.get(key)?;
    member.as_u64()
}

/// The text under a key, where it isn't empty.
pub fn filled_at<'v>(value: &'v Value, key: &str) -> Option<&'v str>
    ensures { option_map (λ t. t.now) result ≡ file.filled_at key.now (view value.now) }
{
    let text = text_at(value, key)?;
    if text.is_empty() {
        return None;
    }
    Some(text)
}

/// The text under a key, or that nothing is there; None where something else is.
pub fn optional_text_at(
    alloc: Global,
    value: &Value,
    key: &str,
) -> Result<Option<Option<Text>>, NoMemory>
    ensures { IfOk result (λ found. found ≡ json.optional_text_at key.now (view value.now)) }
{
    let Some(member) = value.get(key) else {
        return Ok(Some(None));
    };
    let Some(text) = member.as_str() else {
        return Ok(None);
    };
    let text = Text::copied(alloc, text)?;
    Ok(Some(Some(text)))
}

// The bytes that hex digits stand for; None where they are no hex.
fn decoded(alloc: Global, digits: &str) -> Result<Option<Blob>, NoMemory>
    ensures { IfOk result (λ found. found ≡ result_ok (decode_of digits.now)) }
{
    match hex::decode(alloc, digits) {
        Ok(bytes) => Ok(Some(Blob::from_vec(bytes))),
        Err(FromHexError::OutOfMemory) => Err(NoMemory),
        Err(_) => Ok(None),
    }
}

/// The bytes that the hex digits under a key stand for.
pub fn hex_at(alloc: Global, value: &Value, key: &str) -> Result<Option<Blob>, NoMemory>
    ensures { IfOk result (λ found. found ≡ file.hex_at key.now (view value.now)) }
{
    let Some(digits) = text_at(value, key) else {
        return Ok(None);
    };
    decoded(alloc, digits)
}

// The texts that items are, where all are.
fn texts_of(alloc: Global, items: &[Value]) -> Result<Option<Texts>, NoMemory>
    ensures { IfOk result (λ found. found ≡ json.each_of as_str (items_view items.now)) }
{
    let mut texts = Vec::new(alloc);
    for item in items {
        let Some(text) = item.as_str() else {
            return Ok(None);
        };
        let text = Text::copied(alloc, text)?;
        texts.push(text)?;
    }
    Ok(Some(Texts::from_list(texts)))
}

/// The texts under a key, none where nothing is there; None where something else is.
pub fn optional_texts_at(alloc: Global, value: &Value, key: &str) -> Result<Option<Texts>, NoMemory>
    ensures { IfOk result (λ found. found
        ≡ json.optional_list_at as_str key.now (view value.now)) }
{
    let Some(member) = value.get(key) else {
        return Ok(Some(Texts::from_list(Vec::new(alloc))));
    };
    let Some(items) = member.as_array() else {
        return Ok(None);
    };
    texts_of(alloc, items.as_slice())
}
