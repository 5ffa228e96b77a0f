// Reading a claim of version 2.
ghost use Rattle.c2_claim.specs.Apart.{AgreesOn, v2_claim_apart, v2_lists, v2_names, redactions_of};
ghost use Rattle.c2_spec.specs.Cbor.View.{view};
ghost use Rattle.c2_spec.specs.C2pa.Claim.{Agrees};

use crate::last_fields::last_fields;
use c2_base::{Text, Texts};
use c2_spec::{Cbor, Claim, ClaimError, ClaimField, ClaimVersion, Refs};
use std::alloc::Global;

// The instance and the signature of a claim of version 2, or the first field that is refused.
fn names(alloc: Global, item: &Cbor) -> Result<(Text, Text), ClaimError>
    ensures { AgreesOn (v2_names (view item.now)) result }
{
    let Some(instance) = c2_cbor_fields::text(alloc, item, "instanceID")? else {
        return Err(ClaimError::Fields(ClaimField::InstanceId));
    };
    let Some(signature) = c2_cbor_fields::text(alloc, item, "signature")? else {
        return Err(ClaimError::Fields(ClaimField::Signature));
    };
    Ok((instance, signature))
}

// The created and the gathered assertions of a claim of version 2, or the first list that is refused.
fn lists(alloc: Global, item: &Cbor) -> Result<(Refs, Refs), ClaimError>
    ensures { AgreesOn (v2_lists (view item.now)) result }
{
    let Some(created) = c2_cbor_fields::references(alloc, item, "created_assertions")? else {
        return Err(ClaimError::Fields(ClaimField::Created));
    };
    let Some(gathered) = c2_cbor_fields::optional_references(alloc, item, "gathered_assertions")?
    else {
        return Err(ClaimError::Fields(ClaimField::Gathered));
    };
    Ok((created, gathered))
}

/// The claim of version 2 that an item is with these redactions, which may be held apart, or the first field that is refused (C2PA
/// Technical Specification 2.x, "Claims").
pub fn read_version_2(alloc: Global, item: &Cbor, texts: Option<Texts>) -> Result<Claim, ClaimError>
    ensures { Agrees (v2_claim_apart (view item.now) (redactions_of (view item.now) texts))
        result }
{
    if !c2_cbor_fields::is_map(item) {
        return Err(ClaimError::Fields(ClaimField::Whole));
    }
    let (instance, signature) = names(alloc, item)?;
    let (created, gathered) = lists(alloc, item)?;
    let (redacted, alg) = last_fields(alloc, item, texts, "assertions", ClaimField::Assertions)?;
    Ok(Claim {
        version: ClaimVersion::V2,
        signature,
        instance: Some(instance),
        alg,
        created,
        gathered,
        redacted,
    })
}
