// Boxes of a new manifest.
ghost use Rattle.std.specs.Prelude.{◌≡◌, ◌⊎◌, IfOk, IfErr, Ok, length};
ghost use Rattle.c2_spec.specs.C2pa.Manifest as manifest;
ghost use Rattle.c2_spec.specs.Jumbf.Tree.{tree_bytes, more, none};
ghost use Rattle.c2_new_file_spec.specs.FreshBoxes.{fresh_box, fresh_leaf};
ghost use Rattle.c2_new_file_spec.specs.Store as store;
ghost use Rattle.c2_layout.specs.Unwritten.{IsAssertionRefused, IsBoxRefused};

use c2_base::{Blob, NoMemory};
use c2_definition::{NewAssertion, Payload};
use c2_jumbf::{WriteError, write_leaf, write_super};
use std::alloc::Global;

// The type UUID that begins with these four bytes.
pub(crate) fn type_uuid(name: [u8; 4]) -> [u8; 16]
    ensures { result ≡ manifest.type_uuid name }
{
    let [a, b, c, d] = name;
    [
        a, b, c, d, 0x00, 0x11, 0x00, 0x10, 0x80, 0x00, 0x00, 0xAA, 0x00, 0x38, 0x9B, 0x71,
    ]
}

// A superbox of this type with one content box of this kind.
pub(crate) fn write_one(
    alloc: Global,
    name: [u8; 4],
    label: &str,
    kind: [u8; 4],
    bytes: &[u8],
) -> Result<Blob, WriteError>
    ensures ok { IfOk result (λ b. b
        ≡ tree_bytes (fresh_box name label.now (more (fresh_leaf kind bytes.now) none))) }
    ensures err { IfErr result
        (λ e. (e ≡ WriteError.NoMemory) ⊎ IsBoxRefused label.now (length bytes.now) e) }
{
    let content = write_leaf(alloc, kind, bytes)?;
    write_super(alloc, type_uuid(name), label, content.as_slice())
}

// What a box comes to of which nothing but memory fails.
pub(crate) fn only_memory(written: Result<Blob, WriteError>) -> Result<Blob, NoMemory>
    requires { IfErr written (λ e. e ≡ WriteError.NoMemory) }
    ensures { IfOk result (λ b. written ≡ Ok b) }
{
    match written {
        Ok(bytes) => Ok(bytes),
        Err(WriteError::NoMemory) => Err(NoMemory),
        Err(_) => unreachable!(),
    }
}

// The type of an assertion's box and of its content box.
fn payload_name(kind: Payload) -> [u8; 4]
    ensures { result ≡ store.payload_name kind }
{
    match kind {
        Payload::Cbor => *b"cbor",
        Payload::Json => *b"json",
    }
}

/// The box of a new assertion.
///
/// `TooLarge` where its content box would have more than 33,554,432 bytes, with the length of that; else `BadLabel` where its label may
/// not be written; else `TooLarge` where the box itself would have more, with its length.
pub fn write_assertion(alloc: Global, assertion: &NewAssertion) -> Result<Blob, WriteError>
    ensures ok { IfOk result (λ b. b ≡ tree_bytes (store.assertion_box assertion.now)) }
    ensures err { IfErr result
        (λ e. (e ≡ WriteError.NoMemory) ⊎ IsAssertionRefused assertion.now e) }
{
    let name = payload_name(assertion.kind);
    write_one(
        alloc,
        name,
        assertion.label.as_str(),
        name,
        assertion.bytes.as_slice(),
    )
}
