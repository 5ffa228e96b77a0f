// The binding of a new BMFF file.
ghost use Rattle.std.specs.Prelude.{◌≡◌, IfOk};
ghost use Rattle.c2_assertion.specs.Written.{bmff_hash_item};
ghost use Rattle.c2_new_file_spec.specs.Films as films;
ghost use Rattle.c2_spec.specs.Cbor.Deterministic.{deterministic};
ghost use Rattle.c2_spec.specs.Cbor.Legal.{IsLegal};
ghost use Rattle.c2_spec.specs.Cbor.View.{view};

use c2_assertion::{BmffHash, write_bmff_hash};
use c2_base::{Blob, NoMemory, Text};
use c2_bmff_binding_exclusions::new_exclusions;
use c2_cbor_write::encode;
use c2_definition::{NewAssertion, Payload};
use c2_hash::{Alg, alg_name};
use c2_spec::{Cbor, EncodeError};
use std::alloc::Global;

// The bytes of a legal item.
fn item_bytes(alloc: Global, item: &Cbor) -> Result<Blob, NoMemory>
    requires { IsLegal (view item.now) }
    ensures { IfOk result (λ b. b ≡ deterministic (view item.now)) }
{
    match encode(alloc, item) {
        Ok(bytes) => Ok(bytes),
        Err(EncodeError::NoMemory) => Err(NoMemory),
        Err(_) => unreachable!(),
    }
}

// The item of the BMFF hash of a new file with this digest by an algorithm.
fn new_bmff_item(alloc: Global, alg: Alg, digest: &[u8]) -> Result<Cbor, NoMemory>
    ensures { IfOk result (λ v. view v ≡ bmff_hash_item (films.new_bmff_hash alg digest.now)) }
{
    let hash = BmffHash {
        exclusions: new_exclusions(alloc)?,
        alg: Some(Text::copied(alloc, alg_name(alg))?),
        hash: Blob::copied(alloc, digest)?,
    };
    let item = write_bmff_hash(alloc, &hash)?;
    Ok(item)
}

/// The assertion that binds a BMFF file by this digest, by an algorithm, of what the exclusions of a new hash leave of it.
pub fn new_bmff_binding(alloc: Global, alg: Alg, digest: &[u8]) -> Result<NewAssertion, NoMemory>
    ensures { IfOk result (λ a. a ≡ films.new_bmff_binding alg digest.now) }
{
    let item = new_bmff_item(alloc, alg, digest)?;
    let bytes = item_bytes(alloc, &item)?;
    let label = Text::copied(alloc, "c2pa.hash.bmff.v2")?;
    Ok(NewAssertion {
        label,
        kind: Payload::Cbor,
        bytes,
    })
}
