// The question that a judge is asked.
ghost use Rattle.std.specs.Prelude.{◌≡◌, ◌++◌, ℕ, List, length, IfOk};
ghost use Rattle.c2_spec.specs.Cbor.View.{view};
ghost use Rattle.c2_spec.specs.Cbor.Legal.{IsLegal};
ghost use Rattle.c2_spec.specs.Cbor.Deterministic.{sorted, deterministic};
ghost use Rattle.c2_spec.specs.Cbor.Plain.{IsPlain};
ghost use Rattle.c2_spec.specs.Cbor.Answers.{BeginsWith};
ghost use Rattle.c2_spec.specs.C2pa.Sign1.{parts_of, IsHeader, sig_structure, question_of};

use crate::Sign1;
use c2_base::{Blob, NoMemory, Question, Text};
use c2_cbor_write::encode;
use c2_spec::{Cbor, EncodeError};
use std::alloc::Global;

// The context of a message with one signature (RFC 9052, section 4.4).
const CONTEXT: &str = "Signature1";

// The Sig_structure of a claim, without external data.
fn to_be_signed(alloc: Global, protected: &[u8], claim: &[u8]) -> Result<Cbor, NoMemory>
    ensures { IfOk result (λ item. view item ≡ sig_structure protected.now claim.now) }
{
    let context = Text::copied(alloc, CONTEXT)?;
    let header = Blob::copied(alloc, protected)?;
    let external = Blob::copied(alloc, &[])?;
    let payload = Blob::copied(alloc, claim)?;
    let items = vec![in alloc;
        Cbor::Text(context),
        Cbor::Bytes(header),
        Cbor::Bytes(external),
        Cbor::Bytes(payload),
    ]?;
    Ok(Cbor::List(items))
}

// The bytes of an item that can be written: the only refusal is out of memory.
pub fn written(alloc: Global, item: &Cbor) -> Result<Blob, NoMemory>
    requires { IsLegal (view item.now) }
    ensures bytes { IfOk result (λ b. b ≡ deterministic (view item.now)) }
    ensures again { IfOk result (λ b. IsPlain (view item.now)
        → (r : List ℕ) → BeginsWith (b ++ r) (sorted (view item.now)) (length b)) }
{
    match encode(alloc, item) {
        Ok(bytes) => Ok(bytes),
        Err(
            EncodeError::BadSimple
            | EncodeError::DuplicateKey
            | EncodeError::TooDeep
            | EncodeError::NoMemory,
        ) => Err(NoMemory),
    }
}

// What a signature over a claim with this protected header signs: the bytes of the Sig_structure.
fn signed_bytes(alloc: Global, protected: &[u8], claim: &[u8]) -> Result<Blob, NoMemory>
    ensures { IfOk result (λ b. b ≡ deterministic (sig_structure protected.now claim.now)) }
{
    let structure = to_be_signed(alloc, protected, claim)?;
    written(alloc, &structure)
}

/// What a judge is asked of a message over a claim: the deterministic bytes of the Sig_structure, the signature, and the
/// deterministic bytes of the unprotected header (RFC 9052, section 4.4). `read_sign1` gives a header that can be written.
pub fn question(alloc: Global, sign: &Sign1, claim: &[u8]) -> Result<Question, NoMemory>
    requires { IsHeader (view sign.now.unprotected) }
    ensures { IfOk result (λ q. q ≡ question_of (parts_of sign.now) claim.now) }
{
    let tbs = signed_bytes(alloc, sign.protected.as_slice(), claim)?;
    let signature = Blob::copied(alloc, sign.signature.as_slice())?;
    let unprotected = written(alloc, &sign.unprotected)?;
    Ok(Question {
        tbs,
        signature,
        unprotected,
    })
}
