// The definition and the signed message that are built in.
ghost use Rattle.std.specs.Prelude.{◌≡◌, IfOk};
ghost use Rattle.c2_sample.specs.Sample.{sample_definition, sample_message};

use c2_base::{Blob, NoMemory};
use std::alloc::Global;

// A definition with one assertion.
const DEFINITION: &str =
    r#"{"label":"urn:c2pa:00000000-0000-4000-8000-000000000000","instance_id":"xmp:iid:sample","generator":"c2","protected":"a10126","reserve":256,"assertions":[{"label":"c2pa.actions.v2","kind":"cbor","hex":"a167616374696f6e7381a166616374696f6e6c633270612e63726561746564"}]}"#;

// What a tagged message with its protected header has before a signature of 64 bytes (RFC 9052, section 4.2).
const MESSAGE: [u8; 10] = [0xD2, 0x84, 0x43, 0xA1, 0x01, 0x26, 0xA0, 0xF6, 0x58, 0x40];

/// The definition file: one assertion, for a message of ES256.
pub fn sample_definition(alloc: Global) -> Result<Blob, NoMemory>
    ensures { IfOk result (λ file. file ≡ sample_definition) }
{
    Blob::copied(alloc, DEFINITION.as_bytes())
}

/// The signed message: its signature is 64 zero bytes.
pub fn sample_message(alloc: Global) -> Result<Blob, NoMemory>
    ensures { IfOk result (λ message. message ≡ sample_message) }
{
    let mut bytes = Vec::from_slice(alloc, &MESSAGE)?;
    bytes.extend_from_slice(&[0; 64])?;
    Ok(Blob::from_vec(bytes))
}
