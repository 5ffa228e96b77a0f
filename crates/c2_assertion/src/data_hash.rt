// Reading a data hash.
ghost use Rattle.std.specs.Prelude.{◌≡◌, codes, IfOk, Some};
ghost use Rattle.c2_spec.specs.Cbor.View.{view, items_view};
ghost use Rattle.c2_spec.specs.Cbor.Lookup.{field_of};
ghost use Rattle.c2_spec.specs.Cbor.Fields.{IsAnswer, each_of, list_of, optional_list};
ghost use Rattle.c2_spec.specs.C2pa.Assertion.{range_of, data_hash_of};
ghost use Rattle.c2_assertion.specs.Reading.{data_hash_from};

use crate::digest::{Digest, digest_in};
use c2_base::limits::MAX_EXCLUSIONS;
use c2_base::{NoMemory, Range, Ranges};
use c2_cbor_fields::field;
use c2_spec::{Cbor, DataHash, FieldError};
use std::alloc::Global;

// The range that an item is.
fn range_in(item: &Cbor) -> Option<Range>
    ensures { result ≡ range_of (view item.now) }
{
    let start = c2_cbor_fields::number(item, "start")?;
    let length = c2_cbor_fields::number(item, "length")?;
    Some(Range { start, length })
}

/// The ranges that the items are, where all of them are.
fn ranges_in(alloc: Global, items: &[Cbor]) -> Result<Option<Ranges>, NoMemory>
    ensures { IfOk result (λ found. found ≡ each_of range_of (items_view items.now)) }
{
    let mut found = Vec::new(alloc);
    for item in items {
        let Some(range) = range_in(item) else {
            return Ok(None);
        };
        found.push(range)?;
    }
    Ok(Some(Ranges::from_list(found)))
}

/// The list of ranges that the item is.
fn range_list(alloc: Global, item: &Cbor) -> Result<Option<Ranges>, NoMemory>
    ensures { IfOk result (λ found. found ≡ list_of range_of (Some (view item.now))) }
{
    match item {
        Cbor::List(items) => ranges_in(alloc, items),
        _ => Ok(None),
    }
}

/// The exclusions, none where they are absent; None where the field is no list of ranges.
fn exclusions_of(alloc: Global, item: &Cbor) -> Result<Option<Ranges>, NoMemory>
    ensures { IfOk result (λ found.
        found ≡ optional_list range_of (field_of (codes "exclusions") (view item.now))) }
{
    match field(item, "exclusions") {
        Some(value) => range_list(alloc, value),
        None => Ok(Some(Ranges::from_list(Vec::new(alloc)))),
    }
}

// The data hash with these exclusions, where there aren't too many.
fn hash_of(exclusions: Ranges, digest: Digest) -> Result<DataHash, FieldError>
    ensures { result ≡ data_hash_from exclusions digest }
{
    let count = exclusions.as_slice().len();
    if count > MAX_EXCLUSIONS {
        return Err(FieldError::TooMany(count));
    }
    Ok(DataHash {
        exclusions,
        alg: digest.alg,
        hash: digest.hash,
    })
}

/// The data hash that an item is (C2PA Technical Specification 2.x, "Data hash").
///
/// Form: the item is no map, or `exclusions` is there and no list of maps with `start` and `length` numbers from 0 on, or
/// `alg` is there and no text, or `hash` is no byte string. TooMany: it has that form and more than 1,024 exclusions. A
/// null field counts as absent, and other fields pass unread.
pub fn read_data_hash(alloc: Global, item: &Cbor) -> Result<DataHash, FieldError>
    ensures { IsAnswer FieldError.NoMemory (data_hash_of (view item.now)) result }
{
    if !c2_cbor_fields::is_map(item) {
        return Err(FieldError::Form);
    }
    let Some(exclusions) = exclusions_of(alloc, item)? else {
        return Err(FieldError::Form);
    };
    let Some(digest) = digest_in(alloc, item)? else {
        return Err(FieldError::Form);
    };
    hash_of(exclusions, digest)
}
