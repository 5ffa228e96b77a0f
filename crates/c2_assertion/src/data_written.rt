// Writing a data hash.
ghost use Rattle.std.specs.Prelude.{◌≡◌, ◌++◌, [], ◌∷◌, codes, IfOk, OnOk, length, map, replicate};
ghost use Rattle.c2_spec.specs.Cbor.Deterministic.{preferred};
ghost use Rattle.c2_spec.specs.Cbor.Item as item;
ghost use Rattle.c2_spec.specs.Cbor.View.{view};
ghost use Rattle.c2_spec.specs.Cbor.Writing.{field, pair_view};
ghost use Rattle.c2_assertion.specs.Written.{data_hash_item, pad_len, range_item, ranges_item};

use crate::fields_written::{add_alg, add_bytes, add_field};
use c2_base::{Blob, NoMemory, Range};
use c2_spec::{Cbor, DataHash};
use std::alloc::Global;

// What the two numbers of a range are written in at most.
const WIDEST: u64 = 18;

/// How many bytes a number is written in.
#[tactic(auto, unfolding(c2_spec::specs::Cbor::Deterministic::shortest_head))]
fn number_width(n: u64) -> u64
    ensures { result ≡ length (preferred (item.uint n)) }
{
    if n < 24 {
        1
    } else if n < 256 {
        2
    } else if n < 65536 {
        3
    } else if n < 4294967296 {
        5
    } else {
        9
    }
}

// How many zero bytes make up for the numbers of these ranges.
fn padding(ranges: &[Range]) -> u64
    ensures { result ≡ pad_len ranges.now }
{
    let mut left = WIDEST;
    for range in ranges {
        left = left.saturating_sub(number_width(range.start));
        left = left.saturating_sub(number_width(range.length));
    }
    left
}

// So many zero bytes.
fn zeros(alloc: Global, count: u64) -> Result<Cbor, NoMemory>
    ensures { IfOk result (λ v. view v ≡ item.bytes (replicate count 0)) }
{
    let zeros = vec![in alloc; 0; count as usize]?;
    Ok(Cbor::Bytes(Blob::from_vec(zeros)))
}

// The item of a range.
fn range_written(alloc: Global, range: Range) -> Result<Cbor, NoMemory>
    ensures { IfOk result (λ v. view v ≡ range_item range) }
{
    let mut fields = Vec::new(alloc);
    add_field(alloc, &mut fields, "start", Cbor::Uint(range.start))?;
    add_field(alloc, &mut fields, "length", Cbor::Uint(range.length))?;
    Ok(Cbor::Map(fields))
}

// The items of these ranges.
fn ranges_written(alloc: Global, ranges: &[Range]) -> Result<Vec<Cbor>, NoMemory>
    ensures { IfOk result (λ vs. map view vs.items ≡ map range_item ranges.now) }
{
    let mut items = Vec::new(alloc);
    for range in ranges {
        items.push(range_written(alloc, *range)?)?;
    }
    Ok(items)
}

// Adds the zero bytes that make up for the numbers of these ranges.
fn add_padding(
    alloc: Global,
    fields: &mut Vec<(Cbor, Cbor)>,
    ranges: &[Range],
) -> Result<(), NoMemory>
    ensures { OnOk result (map pair_view fields.new.items ≡ map pair_view fields.old.items
        ++ field (codes "pad") (item.bytes (replicate (pad_len ranges.now) 0)) ∷ []) }
{
    let pad = zeros(alloc, padding(ranges))?;
    add_field(alloc, fields, "pad", pad)
}

// Adds the exclusions.
fn add_exclusions(
    alloc: Global,
    fields: &mut Vec<(Cbor, Cbor)>,
    ranges: &[Range],
) -> Result<(), NoMemory>
    ensures { OnOk result (map pair_view fields.new.items ≡ map pair_view fields.old.items
        ++ field (codes "exclusions") (ranges_item ranges.now) ∷ []) }
{
    let items = ranges_written(alloc, ranges)?;
    add_field(alloc, fields, "exclusions", Cbor::List(items))
}

/// The item of a data hash (C2PA Technical Specification 2.x, "Data hash"): `alg` where one is named, `pad`, `hash` and `exclusions`,
/// each of them `start` and `length`. With `w` the bytes that all these numbers are written in (1, 2, 3, 5 or 9 each), `pad` has
/// 18 - `w` zero bytes, none where `w` is above 18: so the item of a hash with one exclusion has one length for all its numbers.
///
/// It is read as the same hash where that has at most 1,024 exclusions.
pub fn write_data_hash(alloc: Global, value: &DataHash) -> Result<Cbor, NoMemory>
    ensures { IfOk result (λ v. view v ≡ data_hash_item value.now) }
{
    let ranges = value.exclusions.as_slice();
    let mut fields = Vec::new(alloc);
    add_alg(alloc, &mut fields, &value.alg)?;
    add_padding(alloc, &mut fields, ranges)?;
    add_bytes(alloc, &mut fields, "hash", &value.hash)?;
    add_exclusions(alloc, &mut fields, ranges)?;
    Ok(Cbor::Map(fields))
}
