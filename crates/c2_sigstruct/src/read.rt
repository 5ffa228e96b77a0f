// Reading a message.
ghost use Rattle.std.specs.Prelude.{◌≡◌, ◌⊎◌, IfOk, IfErr};
ghost use Rattle.c2_spec.specs.Cbor.View.{view};
ghost use Rattle.c2_spec.specs.Cbor.Answers.{Gives};
ghost use Rattle.c2_spec.specs.C2pa.Sign1.{SignParts, parts_of, SpellsMessage, IsHeader};
ghost use Rattle.c2_sigstruct.specs.Parts.{SpellsNone, sign_error};
ghost use Rattle.c2_spec.specs.declared.sign1.SignError.TheVariants.{Form, NoMemory};

use crate::message::{of_list, untag};
use crate::{Sign1, SignError};
use c2_cbor::decode_whole;
use c2_spec::CborError;
use std::alloc::Global;

// Why bytes that aren't one item aren't a message.
fn unread(fault: CborError) -> SignError
    ensures { result ≡ sign_error fault }
{
    match fault {
        CborError::NoMemory => SignError::NoMemory,
        _ => SignError::Form,
    }
}

/// The message that all of `bytes` spells, in any legal spelling of CBOR (RFC 9052, section 4.2). `Form` comes exactly where
/// the bytes aren't one item that is a list of four, with the tag 18 or none: bytes, a map, null, bytes.
pub fn read_sign1(alloc: Global, bytes: &[u8]) -> Result<Sign1, SignError>
    // What is read is spelled by the bytes, and its header can be written.
    ensures read { IfOk result (λ sign. SpellsMessage bytes.now (parts_of sign)) }
    ensures header { IfOk result (λ sign. IsHeader (view sign.unprotected)) }
    // A message that the bytes spell is read.
    ensures only { (parts : SignParts) → SpellsMessage bytes.now parts
        → Gives NoMemory parts_of result parts }
    // An error other than of memory says that they spell none.
    ensures form { IfErr result (λ e. (e ≡ NoMemory) ⊎ ((e ≡ Form) × SpellsNone bytes.now)) }
{
    let item = match decode_whole(alloc, bytes) {
        Ok(item) => item,
        Err(fault) => return Err(unread(fault)),
    };
    match of_list(untag(item)) {
        Some(sign) => Ok(sign),
        None => Err(SignError::Form),
    }
}
