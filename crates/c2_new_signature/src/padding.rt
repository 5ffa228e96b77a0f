// The message as it is put into the store: with as much padding as makes it fill the bytes that are reserved.
ghost use Rattle.std.specs.Prelude.{◌≡◌, ◌≤◌, length, IfOk, IfErr};
ghost use Rattle.c2_spec.specs.C2pa.Message.{bare_bytes, CanBePadded};
ghost use Rattle.c2_spec.specs.C2pa.Sign1.{parts_of};
ghost use Rattle.c2_spec.specs.Cbor.Item.{Pairs};
ghost use Rattle.c2_pad.specs.declared.types.TheConstants.{MAX_FILL};
ghost use Rattle.c2_new_signature.specs.Refusals.{RefusesReserve};
ghost use Rattle.c2_new_signature.specs.Signed.{IsSigned};

use crate::MessageError;
use c2_base::{Blob, NoMemory};
use c2_pad::fill;
use c2_pad::types::Fill;
use c2_sigstruct::{Sign1, write_sign1};
use std::alloc::Global;

// How many bytes the shortest padding has.
const LEAST_PADDING: u64 = 5;

/// How many bytes a message has with its tag and without padding.
pub fn bare_len(alloc: Global, sign: &Sign1) -> Result<u64, NoMemory>
    requires can { (entries : Pairs) × CanBePadded (parts_of sign.now) entries }
    ensures { IfOk result (λ n. n ≡ length (bare_bytes (parts_of sign.now))) }
{
    let none = Fill {
        pad: None,
        pad2: None,
    };
    let bare = write_sign1(alloc, sign, none)?;
    Ok(bare.as_slice().len() as u64)
}

/// The message with its tag, padded to `reserve` bytes. `read_message` gives a message that can be padded.
///
/// `ReserveTooSmall` comes where these are fewer than it has without padding, and then with those, or where they leave fewer than
/// the shortest padding has, and then with as many as leave just these.
pub fn padded_message(alloc: Global, sign: &Sign1, reserve: u32) -> Result<Blob, MessageError>
    requires can { (entries : Pairs) × CanBePadded (parts_of sign.now) entries }
    requires most { reserve ≤ MAX_FILL }
    ensures signed { IfOk result (λ b. IsSigned (parts_of sign.now) reserve b) }
    ensures refused { IfErr result
        (RefusesReserve reserve (length (bare_bytes (parts_of sign.now)))) }
{
    let bare = bare_len(alloc, sign)?;
    let reserve = reserve as u64;
    if reserve < bare {
        return Err(MessageError::ReserveTooSmall(bare));
    }
    match fill(reserve - bare) {
        Some(fill) => Ok(write_sign1(alloc, sign, fill)?),
        None => Err(MessageError::ReserveTooSmall(bare + LEAST_PADDING)),
    }
}
