//! Signed messages: which are taken, and how they are padded.
ghost use Rattle.std.specs.Prelude.{◌≤◌, IfOk};
ghost use Rattle.c2_spec.specs.C2pa.Message.{CanBePadded};
ghost use Rattle.c2_spec.specs.C2pa.Sign1.{parts_of};
ghost use Rattle.c2_spec.specs.Cbor.Item.{Pairs};

use crate::digits::{show_hex, unhex};
use c2_base::NoMemory;
use c2_new_signature::{MessageError, SignaturePart, bare_len, padded_message, read_message};
use c2_sigstruct::Sign1;
use std::alloc::{AllocError, Global};
use std::test::Fail;

// The protected header {1: -7}.
const PROTECTED: &[u8] = b"\xa1\x01\x26";

// What a message has before its unprotected map, and behind it: null, and a signature of 64 zero bytes.
const BEFORE: &[u8] = b"\xd2\x84\x43\xa1\x01\x26";

const AFTER: &[u8] = b"\xf6\x58\x40";

// A message of 1,048,576 bytes without its signature.
const LARGEST: &[u8] = b"\xd2\x84\x43\xa1\x01\x26\xa0\xf6\x5a\x00\x0f\xff\xf3";

// Messages in hex, and the first test that each fails. Another implementation made them, and says the same.
const MESSAGES: &str = r#"d28443a10126a0f64100 => taken
8443a10126a0f64100 => taken
d8129f5803a10126bf1a0000002179000178fff65f582000000000000000000000000000000000000000000000000000000000000000004101ffff => taken
d28443a10126a0f640 => taken
d28443a10126b400000100020003000400050006000700080009000a000b000c000d000e000f001000110012001300f64100 => taken
d28443a10126a4437061640064706164330063504144006178a16370616400f64100 => taken
8443a10126a1617881818181818181818181818181818181818181818181818181818181818181818181818181818181818181818181818181818181818181818181818100f64100 => taken
 => form
f6 => form
d28443a10126a0f641 => form
d28443a10126a0f6410000 => form
d28463a10126a0f64100 => form
d28340a0f6 => form
d18443a10126a0f64100 => form
d2d28443a10126a0f64100 => form
d28443a10126a0404100 => form
d28443a1012680f64100 => form
d28443a10126a2616100616100f64100 => form
8443a10126a16178818181818181818181818181818181818181818181818181818181818181818181818181818181818181818181818181818181818181818181818181818100f64100 => form
d28443a10126a2a20001010200a20102000100f64100 => plain
d28443a10126a10181a2a20001010200a20102000100f64100 => plain
8443a10126a161788181818181818181818181818181818181818181818181818181818181818181818181818181818181818181818181818181818181818181818181818100f64100 => plain
d28441a0a0f64100 => protected
d28440a0f64100 => protected
d28443a10126b500000100020003000400050006000700080009000a000b000c000d000e000f0010001100120013001400f64100 => entries
d28443a10126a16370616440f64100 => pad
d28443a10126a1647061643240f64100 => pad
d28443a10126a163706164f6f64100 => pad
d28443a10126a21821806470616432f6f64100 => pad
d28441a0a2a20001010200a20102000100f64100 => plain
d28441a0b500000100020003000400050006000700080009000a000b000c000d000e000f0010001100120013001400f64100 => protected
d28443a10126b600000100020003000400050006000700080009000a000b000c000d000e000f00100011001200130014006370616440f64100 => entries"#;

// Messages, what is reserved for them, and what fills it. Another implementation made them, and says the same.
const PADDED: &str = r#"d28443a10126a0f64100 9 => ReserveTooSmall(10)
d28443a10126a0f64100 10 => d28443a10126a0f64100
d28443a10126a0f64100 11 => ReserveTooSmall(15)
d28443a10126a0f64100 14 => ReserveTooSmall(15)
d28443a10126a0f64100 15 => d28443a10126a16370616440f64100
d28443a10126a0f64100 16 => d28443a10126a1637061644100f64100
d28443a10126a0f64100 38 => d28443a10126a163706164570000000000000000000000000000000000000000000000f64100
d28443a10126a0f64100 39 => d28443a10126a26370616452000000000000000000000000000000000000647061643240f64100
d28443a10126a0f64100 40 => d28443a10126a1637061645818000000000000000000000000000000000000000000000000f64100
8443a10126a0f64100 15 => d28443a10126a16370616440f64100
d8129f5803a10126bf1a0000002179000178fff65f582000000000000000000000000000000000000000000000000000000000000000004101ffff 57 => d28443a10126a21821617863706164450000000000f65821000000000000000000000000000000000000000000000000000000000000000001
d28443a10126a4677835636861696e41636162f518218020f6f640 40 => d28443a10126a518218020f66162f563706164480000000000000000677835636861696e4163f640"#;

// Where a message is taken, its reading is dropped.
fn fault(answer: Result<Sign1, MessageError>) -> Option<MessageError> {
    match answer {
        Ok(_) => None,
        Err(error) => Some(error),
    }
}

// The first test that a message fails whose protected header should be {1: -7}.
fn first_fault(alloc: Global, bytes: &[u8]) -> &'static str {
    match fault(read_message(alloc, PROTECTED, bytes)) {
        None => "taken",
        Some(MessageError::BadSignature(part)) => match part {
            SignaturePart::Size => "size",
            SignaturePart::Form => "form",
            SignaturePart::Plain => "plain",
            SignaturePart::Protected => "protected",
            SignaturePart::Entries => "entries",
            SignaturePart::Pad => "pad",
        },
        Some(MessageError::ReserveTooSmall(_)) => "reserve",
        Some(MessageError::NoMemory) => "memory",
    }
}

#[test]
fn a_message_is_tested_in_order(rt: HostRuntime) -> Result<(), Fail> {
    let alloc = rt.alloc();
    for row in MESSAGES.lines() {
        if let Some((hex, want)) = row.split_once(" => ") {
            let bytes = unhex(alloc, hex)?;
            assert_eq!(rt; first_fault(alloc, bytes.as_slice()), want, "{hex}");
        }
    }
    Ok(())
}

#[test]
fn a_message_has_1048576_bytes_at_most(rt: HostRuntime) -> Result<(), Fail> {
    let alloc = rt.alloc();
    let mut bytes = Vec::from_slice(alloc, LARGEST)?;
    let signature = vec![in alloc; 0u8; 1_048_563]?;
    bytes.extend_from_slice(signature.as_slice())?;
    assert_eq!(rt; bytes.len(), 1_048_576);
    assert_eq!(rt; first_fault(alloc, bytes.as_slice()), "taken");
    bytes.push(0)?;
    assert_eq!(rt; first_fault(alloc, bytes.as_slice()), "size");
    Ok(())
}

// A message that is taken.
fn taken(alloc: Global, bytes: &[u8]) -> Result<Sign1, NoMemory>
    ensures { IfOk result (λ sign. (entries : Pairs) × CanBePadded (parts_of sign) entries) }
{
    match read_message(alloc, PROTECTED, bytes) {
        Ok(sign) => Ok(sign),
        Err(_) => Err(NoMemory),
    }
}

// What fills this reserve, in hex.
fn filled(alloc: Global, sign: &Sign1, reserve: u32) -> Result<String, AllocError>
    requires most { reserve ≤ 1048576 }
    requires can { (entries : Pairs) × CanBePadded (parts_of sign.now) entries }
{
    match padded_message(alloc, sign, reserve) {
        Ok(bytes) => {
            let mut out = String::new(alloc);
            show_hex(&mut out, bytes.as_slice())?;
            Ok(out)
        }
        Err(error) => format!(in alloc; "{error:?}"),
    }
}

#[test]
fn a_message_fills_what_is_reserved(rt: HostRuntime) -> Result<(), Fail> {
    let alloc = rt.alloc();
    for row in PADDED.lines() {
        if let Some((given, want)) = row.split_once(" => ")
            && let Some((hex, number)) = given.split_once(" ")
            && let Ok(reserve) = number.parse::<u8>()
        {
            let bytes = unhex(alloc, hex)?;
            let sign = taken(alloc, bytes.as_slice())?;
            let got = filled(alloc, &sign, u32::from(reserve))?;
            assert_eq!(rt; got.as_str(), want, "{given}");
        }
    }
    Ok(())
}

// The message with this unprotected map.
fn with_map(alloc: Global, map: &[u8]) -> Result<Vec<u8>, AllocError> {
    let mut bytes = Vec::from_slice(alloc, BEFORE)?;
    bytes.extend_from_slice(map)?;
    bytes.extend_from_slice(AFTER)?;
    bytes.extend_from_slice(&[0; 64])?;
    Ok(bytes)
}

// 256 bytes are the message's 74, 6 for the entry's key and head, and 176 zero bytes.
#[test]
fn the_padding_is_an_entry_of_zero_bytes(rt: HostRuntime) -> Result<(), Fail> {
    let alloc = rt.alloc();
    let bytes = with_map(alloc, b"\xa0")?;
    let sign = taken(alloc, bytes.as_slice())?;
    assert_eq!(rt; bare_len(alloc, &sign)?, 74);
    let mut map = Vec::from_slice(alloc, b"\xa1\x63pad\x58\xb0")?;
    map.extend_from_slice(&[0; 176])?;
    let wanted = with_map(alloc, map.as_slice())?;
    let mut hex = String::new(alloc);
    show_hex(&mut hex, wanted.as_slice())?;
    assert_eq!(rt; filled(alloc, &sign, 256)?.as_str(), hex.as_str());
    assert_eq!(rt; filled(alloc, &sign, 1_048_576)?.len(), 2_097_152);
    Ok(())
}
