// What is signed over a claim, and a signed message in its reserve.
ghost use Rattle.std.specs.Prelude.{◌≡◌, IfErr, IfOk, ℕ};
ghost use Rattle.c2_spec.specs.C2pa.Message.{CanBePadded};
ghost use Rattle.c2_spec.specs.C2pa.Sign1.{IsHeader, parts_of, sig_structure};
ghost use Rattle.c2_spec.specs.Cbor.Deterministic.{deterministic};
ghost use Rattle.c2_spec.specs.Cbor.Item.{Pairs, dict, no_pairs};
ghost use Rattle.c2_spec.specs.Cbor.View.{view};
ghost use Rattle.c2_definition.specs.DefinitionFile.{IsWellFormed};
ghost use Rattle.c2_new_signature.specs.Signed.{IsSigned};
ghost use Rattle.c2_build_refusals.specs.Kinds.{IsMessageCause, WithoutFault};
ghost use Rattle.c2_build_refusals.specs.Refusals.{IsReserveRefusal};

use crate::BuildError;
use c2_base::{Blob, NoMemory};
use c2_definition::Definition;
use c2_new_signature::{MessageError, padded_message};
use c2_sigstruct::{Sign1, question};
use c2_spec::Cbor;
use std::alloc::Global;

// A map without entries.
fn empty_map(alloc: Global) -> Cbor
    ensures { view result ≡ dict no_pairs }
{
    Cbor::Map(Vec::new(alloc))
}

// A message that isn't signed, with the protected header of a definition.
fn unsigned(alloc: Global, definition: &Definition) -> Result<Sign1, NoMemory>
    ensures protected { IfOk result (λ sign. sign.protected ≡ definition.now.protected) }
    ensures header { IfOk result (λ sign. IsHeader (view sign.unprotected)) }
{
    let protected = Blob::copied(alloc, definition.protected.as_slice())?;
    let signature = Blob::copied(alloc, &[])?;
    Ok(Sign1 {
        protected,
        unprotected: empty_map(alloc),
        signature,
    })
}

// The bytes that are signed of a message over a claim.
fn signed_bytes(alloc: Global, sign: &Sign1, claim: &[u8]) -> Result<Blob, NoMemory>
    requires { IsHeader (view sign.now.unprotected) }
    ensures { IfOk result (λ b. b
        ≡ deterministic (sig_structure sign.now.protected claim.now)) }
{
    let asked = question(alloc, sign, claim)?;
    Ok(asked.tbs)
}

/// The bytes that are signed over a claim: its Sig_structure, with the definition's protected header before the claim (RFC 9052, section 4.4).
/// `NoMemory` comes where memory ran out.
pub fn signed_over(alloc: Global, definition: &Definition, claim: &[u8]) -> Result<Blob, NoMemory>
    ensures { IfOk result (λ b. b
        ≡ deterministic (sig_structure definition.now.protected claim.now)) }
{
    let sign = unsigned(alloc, definition)?;
    signed_bytes(alloc, &sign, claim)
}

/// The bytes of a message that was read, padded to what a definition reserves. `ReserveTooSmall` tells how many bytes the message needs where
/// they are more, and `NoMemory` comes where memory ran out.
pub fn padded(alloc: Global, sign: &Sign1, definition: &Definition) -> Result<Blob, BuildError>
    requires can { (entries : Pairs) × CanBePadded (parts_of sign.now) entries }
    requires formed { IsWellFormed definition.now }
    ensures signed { IfOk result (IsSigned (parts_of sign.now) definition.now.reserve) }
    ensures refused { IfErr result (λ e. WithoutFault e
        (IsReserveRefusal definition.now (parts_of sign.now) e)) }
    ensures cause { (count : ℕ) → IfErr result (IsMessageCause count count) }
{
    match padded_message(alloc, sign, definition.reserve) {
        Ok(message) => Ok(message),
        Err(MessageError::ReserveTooSmall(needed)) => Err(BuildError::ReserveTooSmall(needed)),
        Err(MessageError::NoMemory) => Err(BuildError::NoMemory),
        // A message that is padded was read before.
        Err(MessageError::BadSignature(_)) => unreachable!(),
    }
}
