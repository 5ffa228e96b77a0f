// Which signed messages are taken.
ghost use Rattle.std.specs.Prelude.{◌≡◌, IfOk, IfErr, is_some};
ghost use Rattle.c2_spec.specs.C2pa.Message.{CanBePadded};
ghost use Rattle.c2_spec.specs.C2pa.Sign1.{parts_of, SpellsMessage};
ghost use Rattle.c2_spec.specs.Cbor.Item.{Pairs};
ghost use Rattle.c2_spec.specs.Cbor.Lookup as lookup;
ghost use Rattle.c2_spec.specs.Cbor.Lookup.{first_value};
ghost use Rattle.c2_spec.specs.Cbor.View.{view, pairs_view};
ghost use Rattle.c2_new_signature.specs.Message.{IsAccepted};
ghost use Rattle.c2_new_signature.specs.Refusals.{RefusesMessage};
ghost use Rattle.c2_new_signature.specs.Tested.{EntriesTested, HeaderTested, PartsTested};

use crate::{MessageError, SignaturePart};
use c2_base::NoMemory;
use c2_base::limits::{MAX_HEADER_ENTRIES, MAX_INPUT_LEN};
use c2_sigstruct::{Sign1, SignError, is_plain, read_sign1};
use c2_spec::Cbor;
use std::alloc::Global;

// Whether an item is this text.
fn is_text(item: &Cbor, text: &str) -> bool
    ensures { result ≡ lookup.is_text text.now (view item.now) }
{
    match item {
        Cbor::Text(own) => own.as_str() == text,
        _ => false,
    }
}

// Whether one of these entries has this text as its key.
fn has_key(entries: &[(Cbor, Cbor)], text: &str) -> bool
    ensures { result ≡ is_some (first_value text.now (pairs_view entries.now)) }
{
    for entry in entries {
        if is_text(&entry.0, text) {
            return true;
        }
    }
    false
}

// The first test that the entries of an unprotected header fail.
fn entries_fault(entries: &[(Cbor, Cbor)]) -> Option<SignaturePart>
    ensures { EntriesTested (pairs_view entries.now) result }
{
    if entries.len() > MAX_HEADER_ENTRIES {
        return Some(SignaturePart::Entries);
    }
    if has_key(entries, "pad") {
        return Some(SignaturePart::Pad);
    }
    if has_key(entries, "pad2") {
        return Some(SignaturePart::Pad);
    }
    None
}

// The first test that an unprotected header fails.
fn header_fault(header: &Cbor) -> Option<SignaturePart>
    ensures { HeaderTested (view header.now) result }
{
    match header {
        Cbor::Map(entries) => entries_fault(entries.as_slice()),
        _ => None,
    }
}

// The first test that the parts of a message fail.
fn parts_fault(
    alloc: Global,
    protected: &[u8],
    sign: &Sign1,
) -> Result<Option<SignaturePart>, NoMemory>
    ensures { IfOk result (PartsTested protected.now (parts_of sign.now)) }
{
    let plain = is_plain(alloc, sign)?;
    if !plain {
        return Ok(Some(SignaturePart::Plain));
    }
    if sign.protected.as_slice() != protected {
        return Ok(Some(SignaturePart::Protected));
    }
    Ok(header_fault(&sign.unprotected))
}

/// The message that bytes spell, where it may be put into a store whose messages have this protected header.
///
/// `BadSignature` comes with the first test that it fails, in the order of `SignaturePart`.
pub fn read_message(alloc: Global, protected: &[u8], bytes: &[u8]) -> Result<Sign1, MessageError>
    ensures read { IfOk result (λ sign. SpellsMessage bytes.now (parts_of sign)) }
    // A message that is accepted has the wanted protected header, and can be padded.
    ensures protected { IfOk result (λ sign. sign.protected ≡ protected.now) }
    ensures padded { IfOk result (λ sign.
        (entries : Pairs) × CanBePadded (parts_of sign) entries) }
    // Bytes that are accepted pass all tests; bytes that are refused fail the test of the refusal first.
    ensures accepted { IfOk result (λ _. IsAccepted protected.now bytes.now) }
    ensures refused { IfErr result (RefusesMessage protected.now bytes.now) }
{
    if bytes.len() as u64 > MAX_INPUT_LEN {
        return Err(MessageError::BadSignature(SignaturePart::Size));
    }
    match read_sign1(alloc, bytes) {
        Ok(sign) => match parts_fault(alloc, protected, &sign)? {
            Some(part) => Err(MessageError::BadSignature(part)),
            None => Ok(sign),
        },
        Err(SignError::NoMemory) => Err(MessageError::NoMemory),
        Err(SignError::Form) => Err(MessageError::BadSignature(SignaturePart::Form)),
    }
}
