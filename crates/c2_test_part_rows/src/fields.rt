// Items of assertions, field by field.
use crate::claims::show_ref;
use crate::line::Line;
use crate::settings::Settings;
use c2_assertion::{
    BmffHash, DataHash, Ingredient, IngredientVersion, ingredient_version, read_bmff_hash,
    read_data_hash, read_ingredient, write_bmff_hash, write_data_hash, write_ingredient,
};
use c2_base::{Blob, Text};
use c2_bmff::Exclusion;
use c2_cbor::decode_whole;
use c2_cbor_write::encode;
use c2_spec::{Cbor, Ref};
use c2_test_tables::Trouble;
use std::alloc::Global;

// The item of these bytes.
fn item_of(alloc: Global, bytes: &[u8]) -> Result<Cbor, Trouble> {
    match decode_whole(alloc, bytes) {
        Ok(item) => Ok(item),
        Err(_) => Err(Trouble::BadLine),
    }
}

// Algorithm and digest, behind exclusions.
fn show_digest(out: &mut Line, alg: &Option<Text>, hash: &Blob) {
    out.text("] ");
    out.name(alg);
    out.text(" ");
    out.hex(hash.as_slice());
}

fn show_data_hash(out: &mut Line, value: &DataHash) {
    out.text("[");
    let mut gap = "";
    for range in value.exclusions.as_slice() {
        out.text(gap);
        gap = ",";
        out.range(range.start, range.length);
    }
    show_digest(out, &value.alg, &value.hash);
}

/// A data hash: exclusions as start and length, algorithm and digest; or the refusal.
pub fn data_hash(alloc: Global, bytes: &[u8]) -> Result<String, Trouble> {
    let item = item_of(alloc, bytes)?;
    let mut out = Line::new(alloc);
    match read_data_hash(alloc, &item) {
        Ok(value) => show_data_hash(&mut out, &value),
        Err(error) => out.debug(&error),
    }
    out.whole()
}

// The steps of its path, its length, how many byte tests and how many parts.
fn show_exclusion(out: &mut Line, exclusion: &Exclusion) {
    out.number(exclusion.path.segments().len() as u64);
    out.text("/");
    match exclusion.length {
        Some(length) => out.number(length),
        None => out.text("-"),
    }
    out.text("/");
    out.number(exclusion.tests.as_slice().len() as u64);
    out.text("/");
    match &exclusion.subset {
        Some(parts) => out.number(parts.as_slice().len() as u64),
        None => out.text("-"),
    }
}

fn show_bmff_hash(out: &mut Line, value: &BmffHash) {
    out.text("[");
    let mut gap = "";
    for exclusion in value.exclusions.as_slice() {
        out.text(gap);
        gap = ",";
        show_exclusion(out, exclusion);
    }
    show_digest(out, &value.alg, &value.hash);
}

/// A BMFF hash: of each exclusion the steps of its path, its length, how many byte tests and how many parts; algorithm and digest; or
/// the refusal.
pub fn bmff_hash(alloc: Global, bytes: &[u8]) -> Result<String, Trouble> {
    let item = item_of(alloc, bytes)?;
    let mut out = Line::new(alloc);
    match read_bmff_hash(alloc, &item) {
        Ok(value) => show_bmff_hash(&mut out, &value),
        Err(error) => out.debug(&error),
    }
    out.whole()
}

// A reference, where there is one.
fn show_option(out: &mut Line, found: &Option<Ref>) {
    match found {
        Some(found) => show_ref(out, found),
        None => out.text("none"),
    }
}

fn show_ingredient(out: &mut Line, value: &Ingredient) {
    out.debug(&value.relationship);
    out.text(" ");
    show_option(out, &value.manifest);
    out.text(" ");
    show_option(out, &value.signature);
}

// An ingredient of this version that is read, or the refusal.
fn show_read(alloc: Global, out: &mut Line, version: IngredientVersion, item: &Cbor) {
    match read_ingredient(alloc, version, item) {
        Ok(value) => show_ingredient(out, &value),
        Err(error) => out.debug(&error),
    }
}

/// An ingredient whose box has the label that is set: relationship, manifest and signature; or the refusal.
pub fn ingredient(alloc: Global, settings: &Settings, bytes: &[u8]) -> Result<String, Trouble> {
    let item = item_of(alloc, bytes)?;
    let mut out = Line::new(alloc);
    match ingredient_version(settings.text("label")) {
        Some(version) => show_read(alloc, &mut out, version, &item),
        None => out.text("no version"),
    }
    out.whole()
}

/// What an item is of.
#[derive(Clone, Copy)]
pub enum Field {
    BmffHash,
    DataHash,
    Ingredient,
}

// The item that is written of the BMFF hash of an item.
fn bmff_hash_again(alloc: Global, item: &Cbor) -> Option<Cbor> {
    match read_bmff_hash(alloc, item) {
        Ok(value) => write_bmff_hash(alloc, &value).ok(),
        Err(_) => None,
    }
}

// The item that is written of the data hash of an item.
fn data_hash_again(alloc: Global, item: &Cbor) -> Option<Cbor> {
    match read_data_hash(alloc, item) {
        Ok(value) => write_data_hash(alloc, &value).ok(),
        Err(_) => None,
    }
}

// The item that is written of the ingredient of version 3 of an item.
fn ingredient_again(alloc: Global, item: &Cbor) -> Option<Cbor> {
    match read_ingredient(alloc, IngredientVersion::V3, item) {
        Ok(value) => write_ingredient(alloc, &value).ok(),
        Err(_) => None,
    }
}

// What is written of the value that is read.
fn written(alloc: Global, what: Field, item: &Cbor) -> Option<Cbor> {
    match what {
        Field::BmffHash => bmff_hash_again(alloc, item),
        Field::DataHash => data_hash_again(alloc, item),
        Field::Ingredient => ingredient_again(alloc, item),
    }
}

/// The bytes of the item that is written of the value of these.
pub fn rewritten(alloc: Global, what: Field, bytes: &[u8]) -> Result<String, Trouble> {
    let item = item_of(alloc, bytes)?;
    let mut out = Line::new(alloc);
    if let Some(again) = written(alloc, what, &item) {
        if let Ok(bytes) = encode(alloc, &again) {
            out.hex(bytes.as_slice());
        }
    }
    out.whole()
}
