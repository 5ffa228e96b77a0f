// Reading a claim of version 1.
ghost use Rattle.c2_claim.specs.Apart.{AgreesOn, v1_claim_apart, v1_own, redactions_of};
ghost use Rattle.c2_spec.specs.Cbor.View.{view};
ghost use Rattle.c2_spec.specs.C2pa.Claim.{Agrees};

use crate::last_fields::last_fields;
use c2_base::{Text, Texts};
use c2_spec::{Cbor, Claim, ClaimError, ClaimField, ClaimVersion, Refs};
use std::alloc::Global;

// The signature and the assertions of a claim of version 1, or the first field that is refused.
fn own_fields(alloc: Global, item: &Cbor) -> Result<(Text, Refs), ClaimError>
    ensures { AgreesOn (v1_own (view item.now)) result }
{
    let Some(signature) = c2_cbor_fields::text(alloc, item, "signature")? else {
        return Err(ClaimError::Fields(ClaimField::Signature));
    };
    let Some(created) = c2_cbor_fields::references(alloc, item, "assertions")? else {
        return Err(ClaimError::Fields(ClaimField::Assertions));
    };
    Ok((signature, created))
}

/// The claim of version 1 that an item is with these redactions, which may be held apart, or the first field that is refused (C2PA
/// Technical Specification 2.x, "Claims"). All its assertions count as created.
pub fn read_version_1(alloc: Global, item: &Cbor, texts: Option<Texts>) -> Result<Claim, ClaimError>
    ensures { Agrees (v1_claim_apart (view item.now) (redactions_of (view item.now) texts))
        result }
{
    if !c2_cbor_fields::is_map(item) {
        return Err(ClaimError::Fields(ClaimField::Whole));
    }
    let (signature, created) = own_fields(alloc, item)?;
    let (redacted, alg) = last_fields(
        alloc,
        item,
        texts,
        "created_assertions",
        ClaimField::Created,
    )?;
    let instance = c2_cbor_fields::text(alloc, item, "instanceID")?;
    Ok(Claim {
        version: ClaimVersion::V1,
        signature,
        instance,
        alg,
        created,
        gathered: Refs::from_list(Vec::new(alloc)),
        redacted,
    })
}
