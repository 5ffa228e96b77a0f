// Fields that are one value.
ghost use Rattle.std.specs.Prelude.{◌≡◌, IfOk, Some};
ghost use Rattle.c2_spec.specs.Cbor.View.{view};
ghost use Rattle.c2_spec.specs.Cbor.Lookup.{field_of};
ghost use Rattle.c2_spec.specs.Cbor.Fields as form;

use crate::lookup::{field, read_ref};
use c2_base::{Blob, NoMemory, Text};
use c2_spec::{Cbor, Ref};
use std::alloc::Global;

/// Whether the item is a map. Takes no memory.
pub fn is_map(item: &Cbor) -> bool
    ensures { result ≡ form.is_map (view item.now) }
{
    match item {
        Cbor::Map(_) => true,
        _ => false,
    }
}

/// A copy of the text that the item is.
pub fn text_in(alloc: Global, item: &Cbor) -> Result<Option<Text>, NoMemory>
    ensures { IfOk result (λ found. found ≡ form.text_item (view item.now)) }
{
    match item {
        Cbor::Text(text) => {
            let copy = Text::copied(alloc, text.as_str())?;
            Ok(Some(copy))
        }
        _ => Ok(None),
    }
}

/// A copy of the byte string that the item is.
fn bytes_in(alloc: Global, item: &Cbor) -> Result<Option<Blob>, NoMemory>
    ensures { IfOk result (λ found. found ≡ form.bytes_of (Some (view item.now))) }
{
    match item {
        Cbor::Bytes(bytes) => {
            let copy = Blob::copied(alloc, bytes.as_slice())?;
            Ok(Some(copy))
        }
        _ => Ok(None),
    }
}

/// The number from 0 on that the item is.
fn number_in(item: &Cbor) -> Option<u64>
    ensures { result ≡ form.number_of (Some (view item.now)) }
{
    match item {
        Cbor::Uint(n) => Some(*n),
        _ => None,
    }
}

/// A copy of the text under this key; None where it is absent or no text.
pub fn text(alloc: Global, item: &Cbor, key: &str) -> Result<Option<Text>, NoMemory>
    ensures { IfOk result (λ found. found ≡ form.text_of (field_of key.now (view item.now))) }
{
    match field(item, key) {
        Some(value) => text_in(alloc, value),
        None => Ok(None),
    }
}

/// A copy of the byte string under this key; None where it is absent or no byte string.
pub fn byte_string(alloc: Global, item: &Cbor, key: &str) -> Result<Option<Blob>, NoMemory>
    ensures { IfOk result (λ found. found ≡ form.bytes_of (field_of key.now (view item.now))) }
{
    match field(item, key) {
        Some(value) => bytes_in(alloc, value),
        None => Ok(None),
    }
}

/// The number from 0 on under this key; None where it is absent or no such number. Takes no memory.
pub fn number(item: &Cbor, key: &str) -> Option<u64>
    ensures { result ≡ form.number_of (field_of key.now (view item.now)) }
{
    match field(item, key) {
        Some(value) => number_in(value),
        None => None,
    }
}

/// A copy of the text under this key, or that it is absent; None where it is no text.
pub fn optional_text(
    alloc: Global,
    item: &Cbor,
    key: &str,
) -> Result<Option<Option<Text>>, NoMemory>
    ensures { IfOk result (λ found. found ≡ form.optional_text (field_of key.now (view item.now))) }
{
    match field(item, key) {
        Some(value) => match text_in(alloc, value)? {
            Some(text) => Ok(Some(Some(text))),
            None => Ok(None),
        },
        None => Ok(Some(None)),
    }
}

/// The reference under this key, or that it is absent; None where it is no reference.
pub fn optional_reference(
    alloc: Global,
    item: &Cbor,
    key: &str,
) -> Result<Option<Option<Ref>>, NoMemory>
    ensures { IfOk result (λ found. found ≡ form.optional_ref (field_of key.now (view item.now))) }
{
    match field(item, key) {
        Some(value) => match read_ref(alloc, value)? {
            Some(found) => Ok(Some(Some(found))),
            None => Ok(None),
        },
        None => Ok(Some(None)),
    }
}
