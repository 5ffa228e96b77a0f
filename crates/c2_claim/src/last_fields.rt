// The last fields of a claim, which both versions have.
ghost use Rattle.c2_claim.specs.Apart as apart;
ghost use Rattle.c2_claim.specs.Apart.{AgreesOn, redactions_of};
ghost use Rattle.c2_spec.specs.Cbor.View.{view};

use crate::redactions::redactions;
use c2_base::{Text, Texts};
use c2_cbor_fields::field;
use c2_spec::{Cbor, ClaimError, ClaimField};
use std::alloc::Global;

/// The redactions, which may be held apart, and the algorithm of a claim that hasn't the list of assertions of the other version, which
/// stands under this key; or the first field that is refused.
pub fn last_fields(
    alloc: Global,
    item: &Cbor,
    texts: Option<Texts>,
    other: &str,
    refused: ClaimField,
) -> Result<(Texts, Option<Text>), ClaimError>
    ensures { AgreesOn (apart.last_fields refused other.now (view item.now)
        (redactions_of (view item.now) texts)) result }
{
    let Some(redacted) = redactions(alloc, item, texts)? else {
        return Err(ClaimError::Fields(ClaimField::Redacted));
    };
    let Some(alg) = c2_cbor_fields::optional_text(alloc, item, "alg")? else {
        return Err(ClaimError::Fields(ClaimField::Alg));
    };
    if field(item, other).is_some() {
        return Err(ClaimError::Fields(refused));
    }
    Ok((redacted, alg))
}
