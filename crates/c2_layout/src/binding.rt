// The binding of a new file to what it has outside the new store.
ghost use Rattle.std.specs.Prelude.{◌≡◌, ◌∷◌, [], IfOk};
ghost use Rattle.c2_spec.specs.Cbor.Deterministic.{deterministic};
ghost use Rattle.c2_spec.specs.Cbor.Legal.{IsLegal};
ghost use Rattle.c2_spec.specs.Cbor.View.{view};
ghost use Rattle.c2_assertion.specs.Written.{data_hash_item};
ghost use Rattle.c2_layout.specs.Parts.{binding_hash};
ghost use Rattle.c2_new_file_spec.specs.Store as store;

use c2_assertion::{DataHash, write_data_hash};
use c2_base::{Blob, NoMemory, Range, Ranges, Text};
use c2_cbor_write::encode;
use c2_definition::{NewAssertion, Payload};
use c2_hash::{Alg, alg_name};
use c2_spec::{Cbor, EncodeError};
use std::alloc::Global;

/// The bytes of a legal item.
pub(crate) fn item_bytes(alloc: Global, item: &Cbor) -> Result<Blob, NoMemory>
    requires { IsLegal (view item.now) }
    ensures { IfOk result (λ b. b ≡ deterministic (view item.now)) }
{
    match encode(alloc, item) {
        Ok(bytes) => Ok(bytes),
        Err(EncodeError::NoMemory) => Err(NoMemory),
        Err(_) => unreachable!(),
    }
}

// A list of this range alone.
fn one_range(alloc: Global, range: Range) -> Result<Ranges, NoMemory>
    ensures { IfOk result (λ ranges. ranges ≡ range ∷ []) }
{
    let mut ranges = Vec::new(alloc);
    ranges.push(range)?;
    Ok(Ranges::from_list(ranges))
}

// What is written of the binding by this digest of what a file has outside this range.
fn hash_fields(alloc: Global, alg: Alg, range: Range, digest: &[u8]) -> Result<DataHash, NoMemory>
    ensures { IfOk result (λ hash. hash ≡ binding_hash alg range digest.now) }
{
    let exclusions = one_range(alloc, range)?;
    let name = Text::copied(alloc, alg_name(alg))?;
    let hash = Blob::copied(alloc, digest)?;
    Ok(DataHash {
        exclusions,
        alg: Some(name),
        hash,
    })
}

// The item of the assertion that binds a file.
fn binding_item(alloc: Global, alg: Alg, range: Range, digest: &[u8]) -> Result<Cbor, NoMemory>
    ensures { IfOk result (λ item. view item
        ≡ data_hash_item (binding_hash alg range digest.now)) }
{
    let hash = hash_fields(alloc, alg, range, digest)?;
    write_data_hash(alloc, &hash)
}

// The bytes of the assertion that binds a file.
fn binding_bytes(alloc: Global, alg: Alg, range: Range, digest: &[u8]) -> Result<Blob, NoMemory>
    ensures { IfOk result (λ b. b
        ≡ deterministic (data_hash_item (binding_hash alg range digest.now))) }
{
    let item = binding_item(alloc, alg, range, digest)?;
    item_bytes(alloc, &item)
}

/// The assertion that binds a file by the digest by this algorithm of what it has outside this range.
pub fn data_binding(
    alloc: Global,
    alg: Alg,
    range: Range,
    digest: &[u8],
) -> Result<NewAssertion, NoMemory>
    ensures { IfOk result (λ a. a ≡ store.data_binding alg range.start range.length digest.now) }
{
    let bytes = binding_bytes(alloc, alg, range, digest)?;
    let label = Text::copied(alloc, "c2pa.hash.data")?;
    Ok(NewAssertion {
        label,
        kind: Payload::Cbor,
        bytes,
    })
}
