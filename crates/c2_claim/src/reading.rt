// Reading a claim.
ghost use Rattle.std.specs.Prelude.{◌≡◌, codes};
ghost use Rattle.c2_cbor.specs.Apart.{with_texts};
ghost use Rattle.c2_claim.specs.Apart.{claim_apart, redactions_of};
ghost use Rattle.c2_spec.specs.Cbor.Item.{Item};
ghost use Rattle.c2_spec.specs.Cbor.View.{view};
ghost use Rattle.c2_spec.specs.Cbor.Fields.{HasItem, IsUnread};
ghost use Rattle.c2_spec.specs.C2pa.Claim.{claim_of, IsClaimRead, Agrees, RefusesItem};
ghost use Rattle.c2_spec.specs.declared.cbor.CborError.{CborError as AnyError};
ghost use Rattle.c2_claim.specs.Unread.{claim_error};

use crate::version_1::read_version_1;
use crate::version_2::read_version_2;
use c2_base::Texts;
use c2_cbor::decode_texts_apart;
use c2_spec::{Cbor, CborError, Claim, ClaimError, ClaimVersion};
use std::alloc::Global;

/// The claim of this version that an item is with these redactions, which are held apart, or the first field that is refused.
fn claim_of_parts(
    alloc: Global,
    version: ClaimVersion,
    item: &Cbor,
    texts: Option<Texts>,
) -> Result<Claim, ClaimError>
    ensures { Agrees (claim_apart version (view item.now) (redactions_of (view item.now) texts))
        result }
{
    match version {
        ClaimVersion::V1 => read_version_1(alloc, item, texts),
        ClaimVersion::V2 => read_version_2(alloc, item, texts),
    }
}

/// The claim of this version that an item is, with redactions that are held apart or stand in it, or the first field that is refused.
#[tactic(auto, using(crate::proofs::Apart::agrees_whole))]
fn claim_in(
    alloc: Global,
    version: ClaimVersion,
    item: &Cbor,
    texts: Option<Texts>,
) -> Result<Claim, ClaimError>
    ensures { Agrees (claim_of version
        (with_texts (codes "redacted_assertions") (view item.now) texts)) result }
{
    claim_of_parts(alloc, version, item, texts)
}

/// Why bytes that aren't one item aren't a claim.
fn unread(fault: CborError) -> ClaimError
    ensures { result ≡ claim_error fault }
{
    match fault {
        CborError::Short(at) => ClaimError::Cbor(CborError::Short(at)),
        CborError::Reserved(at) => ClaimError::Cbor(CborError::Reserved(at)),
        CborError::BadText(at) => ClaimError::Cbor(CborError::BadText(at)),
        CborError::DuplicateKey(at) => ClaimError::Cbor(CborError::DuplicateKey(at)),
        CborError::TooDeep(at) => ClaimError::Cbor(CborError::TooDeep(at)),
        CborError::Trailing(at) => ClaimError::Cbor(CborError::Trailing(at)),
        CborError::NoMemory => ClaimError::NoMemory,
    }
}

/// The claim of this version that the whole of the bytes is.
///
/// `Cbor` with the cause of c2_cbor's `decode_whole` exactly where the bytes aren't one item; `Fields` with the first field that is
/// refused: in version 2 in the order of `ClaimField`, in version 1 `Whole`, `Signature`, `Assertions`, `Redacted`, `Alg` and then
/// `Created`. In version 1 the instance may be missing, and one that is no text counts as none.
///
/// A null field counts as absent, and other fields pass unread. A claim of one version must not have the list of assertions of the
/// other, so bytes are a claim under one version alone.
pub fn read(alloc: Global, version: ClaimVersion, bytes: &[u8]) -> Result<Claim, ClaimError>
    // What is answered holds of the bytes.
    ensures holds { IsClaimRead version bytes.now result }

    // Where the bytes are an item, the claim that it is or its first refused field is answered, unless memory runs out.
    ensures only { (v : Item) → HasItem bytes.now v → Agrees (claim_of version v) result }

    // A fault of the bytes is answered, unless memory runs out.
    ensures refused { (e : AnyError) → IsUnread bytes.now e → RefusesItem e result }
{
    let (item, texts) = match decode_texts_apart(alloc, bytes, "redacted_assertions") {
        Ok(read) => read,
        Err(fault) => return Err(unread(fault)),
    };
    let claim = claim_in(alloc, version, &item, texts)?;
    Ok(claim)
}
