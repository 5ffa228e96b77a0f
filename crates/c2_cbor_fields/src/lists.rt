// Fields that are lists.
ghost use Rattle.std.specs.Prelude.{◌≡◌, IfOk, Some};
ghost use Rattle.c2_spec.specs.Cbor.View.{view, items_view};
ghost use Rattle.c2_spec.specs.Cbor.Lookup.{field_of, ref_of};
ghost use Rattle.c2_spec.specs.Cbor.Fields as form;

use crate::lookup::{field, read_ref};
use crate::single::text_in;
use c2_base::{NoMemory, Texts};
use c2_spec::{Cbor, Refs};
use std::alloc::Global;

#[tactic(auto, using(c2_spec::proofs::CborEach::each_next, c2_spec::proofs::CborEach::each_none, c2_spec::proofs::CborEach::each_all))]
/// The references that the items are, where all of them are.
fn references_in(alloc: Global, items: &[Cbor]) -> Result<Option<Refs>, NoMemory>
    ensures { IfOk result (λ found. found ≡ form.each_of ref_of (items_view items.now)) }
{
    let mut found = Vec::new(alloc);
    for item in items {
        let Some(reference) = read_ref(alloc, item)? else {
            return Ok(None);
        };
        found.push(reference)?;
    }
    Ok(Some(Refs::from_list(found)))
}

#[tactic(auto, using(c2_spec::proofs::CborEach::each_next, c2_spec::proofs::CborEach::each_none, c2_spec::proofs::CborEach::each_all))]
/// The texts that the items are, where all of them are.
fn texts_in(alloc: Global, items: &[Cbor]) -> Result<Option<Texts>, NoMemory>
    ensures { IfOk result (λ found. found ≡ form.each_of form.text_item (items_view items.now)) }
{
    let mut found = Vec::new(alloc);
    for item in items {
        let Some(text) = text_in(alloc, item)? else {
            return Ok(None);
        };
        found.push(text)?;
    }
    Ok(Some(Texts::from_list(found)))
}

/// The list of references that the item is.
fn reference_list(alloc: Global, item: &Cbor) -> Result<Option<Refs>, NoMemory>
    ensures { IfOk result (λ found. found ≡ form.list_of ref_of (Some (view item.now))) }
{
    match item {
        Cbor::List(items) => references_in(alloc, items),
        _ => Ok(None),
    }
}

/// The list of texts that the item is.
fn text_list(alloc: Global, item: &Cbor) -> Result<Option<Texts>, NoMemory>
    ensures { IfOk result (λ found. found ≡ form.list_of form.text_item (Some (view item.now))) }
{
    match item {
        Cbor::List(items) => texts_in(alloc, items),
        _ => Ok(None),
    }
}

/// The references under this key, in order; None where it is absent or no list of references.
pub fn references(alloc: Global, item: &Cbor, key: &str) -> Result<Option<Refs>, NoMemory>
    ensures { IfOk result (λ found.
        found ≡ form.list_of ref_of (field_of key.now (view item.now))) }
{
    match field(item, key) {
        Some(value) => reference_list(alloc, value),
        None => Ok(None),
    }
}

/// The references under this key, in order, and none where it is absent; None where it is no list of references.
pub fn optional_references(alloc: Global, item: &Cbor, key: &str) -> Result<Option<Refs>, NoMemory>
    ensures { IfOk result (λ found.
        found ≡ form.optional_list ref_of (field_of key.now (view item.now))) }
{
    match field(item, key) {
        Some(value) => reference_list(alloc, value),
        None => Ok(Some(Refs::from_list(Vec::new(alloc)))),
    }
}

/// Copies of the texts under this key, in order, and none where it is absent; None where it is no list of texts.
pub fn optional_texts(alloc: Global, item: &Cbor, key: &str) -> Result<Option<Texts>, NoMemory>
    ensures { IfOk result (λ found.
        found ≡ form.optional_list form.text_item (field_of key.now (view item.now))) }
{
    match field(item, key) {
        Some(value) => text_list(alloc, value),
        None => Ok(Some(Texts::from_list(Vec::new(alloc)))),
    }
}
