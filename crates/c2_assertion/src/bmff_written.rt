// Writing a BMFF hash.
ghost use Rattle.std.specs.Prelude.{◌≡◌, ◌++◌, [], ◌∷◌, codes, OnOk, IfOk, map};
ghost use Rattle.c2_spec.specs.Cbor.Item as item;
ghost use Rattle.c2_spec.specs.Cbor.View.{view};
ghost use Rattle.c2_bmff_paths.specs.Exclusions.{byte_test};
ghost use Rattle.c2_spec.specs.Cbor.Writing.{field, field_if, pair_view};
ghost use Rattle.c2_assertion.specs.Written.{bmff_hash_item, exclusion_item, exclusions_item};
ghost use Rattle.c2_assertion.specs.Written.{part_item, parts_item, test_item, tests_field};

use crate::bmff_hash::BmffHash;
use crate::fields_written::{add_alg, add_bytes, add_field, add_text};
use c2_base::{Blob, NoMemory, Range, Ranges};
use c2_bmff_paths::{ByteTests, Exclusion};
use c2_spec::Cbor;
use std::alloc::Global;

// The item of a byte test.
fn test_written(alloc: Global, test: &(u64, Blob)) -> Result<Cbor, NoMemory>
    ensures { IfOk result (λ v. view v ≡ test_item (byte_test test.now)) }
{
    let mut fields = Vec::new(alloc);
    add_bytes(alloc, &mut fields, "value", &test.1)?;
    add_field(alloc, &mut fields, "offset", Cbor::Uint(test.0))?;
    Ok(Cbor::Map(fields))
}

// The item of a part of a box.
fn part_written(alloc: Global, part: Range) -> Result<Cbor, NoMemory>
    ensures { IfOk result (λ v. view v ≡ part_item part) }
{
    let mut fields = Vec::new(alloc);
    add_field(alloc, &mut fields, "length", Cbor::Uint(part.length))?;
    add_field(alloc, &mut fields, "offset", Cbor::Uint(part.start))?;
    Ok(Cbor::Map(fields))
}

// The items of these byte tests.
fn tests_written(alloc: Global, tests: &[(u64, Blob)]) -> Result<Vec<Cbor>, NoMemory>
    ensures { IfOk result
        (λ vs. map view vs.items ≡ map test_item (map byte_test tests.now)) }
{
    let mut items = Vec::new(alloc);
    for test in tests {
        items.push(test_written(alloc, test)?)?;
    }
    Ok(items)
}

// The items of these parts.
fn parts_written(alloc: Global, parts: &[Range]) -> Result<Vec<Cbor>, NoMemory>
    ensures { IfOk result (λ vs. map view vs.items ≡ map part_item parts.now) }
{
    let mut items = Vec::new(alloc);
    for part in parts {
        items.push(part_written(alloc, *part)?)?;
    }
    Ok(items)
}

// Adds the byte tests, where there are some.
fn add_tests(
    alloc: Global,
    fields: &mut Vec<(Cbor, Cbor)>,
    tests: &ByteTests,
) -> Result<(), NoMemory>
    ensures { OnOk result (map pair_view fields.new.items
        ≡ map pair_view fields.old.items ++ tests_field tests.now) }
{
    let tests = tests.as_slice();
    if tests.is_empty() {
        return Ok(());
    }
    let items = tests_written(alloc, tests)?;
    add_field(alloc, fields, "data", Cbor::List(items))
}

// Adds the length, where one is stated.
fn add_length(
    alloc: Global,
    fields: &mut Vec<(Cbor, Cbor)>,
    length: Option<u64>,
) -> Result<(), NoMemory>
    ensures { OnOk result (map pair_view fields.new.items
        ≡ map pair_view fields.old.items ++ field_if (codes "length") item.uint length) }
{
    match length {
        Some(n) => add_field(alloc, fields, "length", Cbor::Uint(n)),
        None => Ok(()),
    }
}

// Adds the subset, where there is one.
fn add_subset(
    alloc: Global,
    fields: &mut Vec<(Cbor, Cbor)>,
    subset: &Option<Ranges>,
) -> Result<(), NoMemory>
    ensures { OnOk result (map pair_view fields.new.items
        ≡ map pair_view fields.old.items ++ field_if (codes "subset") parts_item subset.now) }
{
    let Some(parts) = subset else {
        return Ok(());
    };
    let items = parts_written(alloc, parts.as_slice())?;
    add_field(alloc, fields, "subset", Cbor::List(items))
}

// The item of an exclusion.
fn exclusion_written(alloc: Global, exclusion: &Exclusion) -> Result<Cbor, NoMemory>
    ensures { IfOk result (λ v. view v ≡ exclusion_item exclusion.now) }
{
    let mut fields = Vec::new(alloc);
    add_tests(alloc, &mut fields, &exclusion.tests)?;
    add_text(alloc, &mut fields, "xpath", exclusion.path.text())?;
    add_length(alloc, &mut fields, exclusion.length)?;
    add_subset(alloc, &mut fields, &exclusion.subset)?;
    Ok(Cbor::Map(fields))
}

// The items of these exclusions.
fn exclusions_written(alloc: Global, exclusions: &[Exclusion]) -> Result<Vec<Cbor>, NoMemory>
    ensures { IfOk result (λ vs. map view vs.items ≡ map exclusion_item exclusions.now) }
{
    let mut items = Vec::new(alloc);
    for exclusion in exclusions {
        items.push(exclusion_written(alloc, exclusion)?)?;
    }
    Ok(items)
}

// Adds the exclusions.
fn add_exclusions(
    alloc: Global,
    fields: &mut Vec<(Cbor, Cbor)>,
    exclusions: &[Exclusion],
) -> Result<(), NoMemory>
    ensures { OnOk result (map pair_view fields.new.items ≡ map pair_view fields.old.items
        ++ field (codes "exclusions") (exclusions_item exclusions.now) ∷ []) }
{
    let items = exclusions_written(alloc, exclusions)?;
    add_field(alloc, fields, "exclusions", Cbor::List(items))
}

/// The item of a BMFF hash (C2PA Technical Specification 2.x, "BMFF-based hash", version 2): `alg` where one is named, `hash`, and
/// `exclusions`, each of them `data` where it has byte tests, `xpath`, `length` where one is stated, and `subset` where there is one.
///
/// It is read as the same hash where that has at most 1,024 exclusions, no empty subset, and no path that enters a box which no path
/// enters.
pub fn write_bmff_hash(alloc: Global, value: &BmffHash) -> Result<Cbor, NoMemory>
    ensures { IfOk result (λ v. view v ≡ bmff_hash_item value.now) }
{
    let mut fields = Vec::new(alloc);
    add_alg(alloc, &mut fields, &value.alg)?;
    add_bytes(alloc, &mut fields, "hash", &value.hash)?;
    add_exclusions(alloc, &mut fields, value.exclusions.as_slice())?;
    Ok(Cbor::Map(fields))
}
