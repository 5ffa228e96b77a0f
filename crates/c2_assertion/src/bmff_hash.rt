// Reading a BMFF hash.
ghost use Rattle.std.specs.Prelude.{◌≡◌, codes, IfOk, Some, option_map, option_and_then};
ghost use Rattle.c2_spec.specs.Cbor.View.{view, items_view};
ghost use Rattle.c2_spec.specs.Cbor.Lookup.{field_of};
ghost use Rattle.c2_spec.specs.Cbor.Fields.{IsAnswer, each_of, list_of, optional_list, text_of};
ghost use Rattle.std.specs.List.{list_any};
ghost use Rattle.c2_spec.specs.Bmff.Paths.{enters_other, path_of};
ghost use Rattle.c2_spec.specs.Bmff.Hash as form;
ghost use Rattle.c2_bmff_paths.specs.Exclusions.{byte_test};
ghost use Rattle.c2_assertion.specs.Reading.{bmff_hash_from, exclusions_fault};

use crate::digest::{Digest, digest_in};
use c2_base::limits::MAX_EXCLUSIONS;
use c2_base::{Blob, NoMemory, Range, Ranges, Text};
use c2_bmff_paths::{ByteTests, Exclusion, Exclusions, Path, read_path};
use c2_cbor_fields::field;
use c2_spec::{Cbor, FieldError};
use std::alloc::Global;
use std::marker::Model;

/// A binding to the bytes of a BMFF file: their digest without what these exclusions exclude.
#[derive(Debug, Drop)]
pub struct BmffHash {
    /// What the digest leaves out.
    pub exclusions: Exclusions,

    /// The digest's algorithm, where the binding names one.
    pub alg: Option<Text>,

    /// The digest.
    pub hash: Blob,
}

impl Model for BmffHash {
    ghost use Rattle.c2_spec.specs.Bmff.Hash as form;

    ghost Value = { form.BmffHash };

    ghost view = { λ h. record { exclusions = h.exclusions; alg = h.alg; hash = h.hash } };
}

// The byte test that an item is.
fn byte_test_in(alloc: Global, item: &Cbor) -> Result<Option<(u64, Blob)>, NoMemory>
    ensures { IfOk result (λ found. option_map byte_test found ≡ form.test_of (view item.now)) }
{
    let Some(offset) = c2_cbor_fields::number(item, "offset") else {
        return Ok(None);
    };
    match c2_cbor_fields::byte_string(alloc, item, "value")? {
        Some(value) => Ok(Some((offset, value))),
        None => Ok(None),
    }
}

/// The byte tests that the items are, where all of them are.
fn byte_tests_in(alloc: Global, items: &[Cbor]) -> Result<Option<ByteTests>, NoMemory>
    ensures { IfOk result (λ found. found ≡ each_of form.test_of (items_view items.now)) }
{
    let mut found = Vec::new(alloc);
    for item in items {
        let Some(test) = byte_test_in(alloc, item)? else {
            return Ok(None);
        };
        found.push(test)?;
    }
    Ok(Some(ByteTests::from_list(found)))
}

// The list of byte tests that the item is.
fn byte_test_list(alloc: Global, item: &Cbor) -> Result<Option<ByteTests>, NoMemory>
    ensures { IfOk result (λ found. found ≡ list_of form.test_of (Some (view item.now))) }
{
    match item {
        Cbor::List(items) => byte_tests_in(alloc, items),
        _ => Ok(None),
    }
}

// The byte tests of an exclusion, none where they are absent; None where the field is no list of byte tests.
fn byte_tests_of(alloc: Global, item: &Cbor) -> Result<Option<ByteTests>, NoMemory>
    ensures { IfOk result (λ found.
        found ≡ optional_list form.test_of (field_of (codes "data") (view item.now))) }
{
    match field(item, "data") {
        Some(value) => byte_test_list(alloc, value),
        None => Ok(Some(ByteTests::from_list(Vec::new(alloc)))),
    }
}

// The part of a box that an item is.
fn part_in(item: &Cbor) -> Option<Range>
    ensures { result ≡ form.part_of (view item.now) }
{
    let start = c2_cbor_fields::number(item, "offset")?;
    let length = c2_cbor_fields::number(item, "length")?;
    Some(Range { start, length })
}

/// The parts that the items are, where all of them are.
fn parts_in(alloc: Global, items: &[Cbor]) -> Result<Option<Vec<Range>>, NoMemory>
    ensures { IfOk result (λ found.
        option_map (λ v. v.items) found ≡ each_of form.part_of (items_view items.now)) }
{
    let mut found = Vec::new(alloc);
    for item in items {
        let Some(part) = part_in(item) else {
            return Ok(None);
        };
        found.push(part)?;
    }
    Ok(Some(found))
}

// The parts that the item is a list of, one or more.
fn part_list(alloc: Global, item: &Cbor) -> Result<Option<Option<Ranges>>, NoMemory>
    ensures { IfOk result (λ found. found ≡ form.subset_of (Some (view item.now))) }
{
    let Cbor::List(items) = item else {
        return Ok(None);
    };
    let Some(parts) = parts_in(alloc, items)? else {
        return Ok(None);
    };
    if parts.is_empty() {
        return Ok(None);
    }
    Ok(Some(Some(Ranges::from_list(parts))))
}

// The subset of an exclusion, or that it is absent; None where the field is no list of one or more parts.
fn subset_in(alloc: Global, item: &Cbor) -> Result<Option<Option<Ranges>>, NoMemory>
    ensures { IfOk result (λ found.
        found ≡ form.subset_of (field_of (codes "subset") (view item.now))) }
{
    match field(item, "subset") {
        Some(value) => part_list(alloc, value),
        None => Ok(Some(None)),
    }
}

// The length of an exclusion, or that it is absent; None where the field is no number.
fn length_in(item: &Cbor) -> Option<Option<u64>>
    ensures { result ≡ form.optional_number (field_of (codes "length") (view item.now)) }
{
    match field(item, "length") {
        Some(Cbor::Uint(n)) => Some(Some(*n)),
        Some(_) => None,
        None => Some(None),
    }
}

// The path of an exclusion.
fn path_in(alloc: Global, item: &Cbor) -> Result<Option<Path>, NoMemory>
    ensures { IfOk result (λ found.
        found ≡ option_and_then path_of (text_of (field_of (codes "xpath") (view item.now)))) }
{
    match c2_cbor_fields::text(alloc, item, "xpath")? {
        Some(text) => read_path(alloc, text.as_str()),
        None => Ok(None),
    }
}

// The exclusion that an item is.
fn exclusion_in(alloc: Global, item: &Cbor) -> Result<Option<Exclusion>, NoMemory>
    ensures { IfOk result (λ found. found ≡ form.exclusion_of (view item.now)) }
{
    let Some(path) = path_in(alloc, item)? else {
        return Ok(None);
    };
    let Some(length) = length_in(item) else {
        return Ok(None);
    };
    let Some(tests) = byte_tests_of(alloc, item)? else {
        return Ok(None);
    };
    let Some(subset) = subset_in(alloc, item)? else {
        return Ok(None);
    };
    Ok(Some(Exclusion {
        path,
        length,
        tests,
        subset,
    }))
}

/// The exclusions that the items are, where all of them are.
fn exclusions_in(alloc: Global, items: &[Cbor]) -> Result<Option<Exclusions>, NoMemory>
    ensures { IfOk result (λ found. found ≡ each_of form.exclusion_of (items_view items.now)) }
{
    let mut found = Vec::new(alloc);
    for item in items {
        let Some(exclusion) = exclusion_in(alloc, item)? else {
            return Ok(None);
        };
        found.push(exclusion)?;
    }
    Ok(Some(Exclusions::from_list(found)))
}

// The exclusions; None where they are absent or no list of exclusions.
fn exclusions_of(alloc: Global, item: &Cbor) -> Result<Option<Exclusions>, NoMemory>
    ensures { IfOk result (λ found.
        found ≡ list_of form.exclusion_of (field_of (codes "exclusions") (view item.now))) }
{
    match field(item, "exclusions") {
        Some(Cbor::List(items)) => exclusions_in(alloc, items),
        _ => Ok(None),
    }
}

// Whether an exclusion has a test that isn't known.
fn has_other_test(item: &Cbor) -> bool
    ensures { result ≡ form.has_other_test (view item.now) }
{
    field(item, "version").is_some()
        || field(item, "flags").is_some()
        || field(item, "exact").is_some()
}

// Whether one of the items has such a test.
fn any_other_test(items: &[Cbor]) -> bool
    ensures { result ≡ form.any_item form.has_other_test (items_view items.now) }
{
    for item in items {
        if has_other_test(item) {
            return true;
        }
    }
    false
}

// Whether one of the exclusions has such a test.
fn tests_otherwise(item: &Cbor) -> bool
    ensures { result
        ≡ form.any_of form.has_other_test (field_of (codes "exclusions") (view item.now)) }
{
    match field(item, "exclusions") {
        Some(Cbor::List(items)) => any_other_test(items),
        _ => false,
    }
}

// Whether one of the exclusions has a path that enters a box which no path enters.
fn enters_otherwise(exclusions: &[Exclusion]) -> bool
    ensures { result ≡ list_any (λ e. enters_other e.path) exclusions.now }
{
    for exclusion in exclusions {
        if exclusion.path.enters_other() {
            return true;
        }
    }
    false
}

// The first fault of the exclusions of a BMFF hash, in the order in which `read_bmff_hash` names them.
fn fault_of(item: &Cbor, exclusions: &[Exclusion]) -> Option<FieldError>
    ensures { result ≡ exclusions_fault (view item.now) exclusions.now }
{
    let count = exclusions.len();
    if count > MAX_EXCLUSIONS {
        return Some(FieldError::TooMany(count));
    }
    if tests_otherwise(item) {
        return Some(FieldError::Test);
    }
    if enters_otherwise(exclusions) {
        return Some(FieldError::Path);
    }
    None
}

// The BMFF hash of an item with these exclusions, where they have no fault.
fn hash_of(item: &Cbor, exclusions: Exclusions, digest: Digest) -> Result<BmffHash, FieldError>
    ensures { result ≡ bmff_hash_from (view item.now) exclusions digest }
{
    match fault_of(item, exclusions.as_slice()) {
        Some(fault) => Err(fault),
        None => Ok(BmffHash {
            exclusions,
            alg: digest.alg,
            hash: digest.hash,
        }),
    }
}

/// The BMFF hash that an item is (C2PA Technical Specification 2.x, "BMFF-based hash", version 2).
///
/// Merkle: the item is a map with `merkle`. Form: it is no map, or `exclusions` is no list of exclusions, or `alg` is there and no
/// text, or `hash` is no byte string. Then TooMany: more than 1,024 exclusions; Test: one of them has `version`, `flags` or `exact`;
/// Path: one of them has a path that enters a box which no path enters. A null field counts as absent, and other fields pass
/// unread. An exclusion is a map with `xpath` a path; `length` absent or a number; `data` absent or a list of maps with a number
/// `offset` and a byte string `value`; `subset` absent or a list of one or more maps with numbers `offset` and `length`.
pub fn read_bmff_hash(alloc: Global, item: &Cbor) -> Result<BmffHash, FieldError>
    ensures { IsAnswer FieldError.NoMemory (form.bmff_hash_of (view item.now)) result }
{
    if field(item, "merkle").is_some() {
        return Err(FieldError::Merkle);
    }
    if !c2_cbor_fields::is_map(item) {
        return Err(FieldError::Form);
    }
    let Some(exclusions) = exclusions_of(alloc, item)? else {
        return Err(FieldError::Form);
    };
    let Some(digest) = digest_in(alloc, item)? else {
        return Err(FieldError::Form);
    };
    hash_of(item, exclusions, digest)
}
