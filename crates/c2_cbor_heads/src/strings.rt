//! Strings, whole and in chunks.

ghost use Rattle.std.specs.Prelude.{◌≡◌, option_map, IfSome, is_some};
ghost use Rattle.std.specs.Str.{is_utf8};
ghost use Rattle.c2_cbor_spec.specs.Reading.{Gives, string_at, chunk_head, chunk_at};
ghost use Rattle.c2_spec.specs.Cbor.Spelling.{any_bytes};

use crate::head::argument;
use c2_cbor_spec::{Fault, ReadError};

/// The first `len` bytes.
#[tactic(auto, unfolding(c2_cbor_spec::specs::Reading::string_at))]
pub fn bytes_of(at: usize, len: u64, bytes: &[u8]) -> Result<(&[u8], &[u8]), ReadError>
    ensures { Gives (λ x. (x.0.now, x.1.now)) result (string_at any_bytes at len bytes.now) }
{
    if (bytes.len() as u64) < len {
        return Err(ReadError::Fault(Fault::Short));
    }
    Ok(bytes.split_at(len as usize))
}

/// The bytes as text, where they are UTF-8.
fn text_in(bytes: &[u8]) -> Option<&str>
    ensures text { IfSome result (λ t. t.now ≡ bytes.now) }
    ensures test { is_some result ≡ is_utf8 bytes.now }
{
    match std::str::from_utf8(bytes) {
        Ok(text) => Some(text),
        Err(_) => None,
    }
}

/// The first `len` bytes, which are text.
#[tactic(auto, unfolding(c2_cbor_spec::specs::Reading::string_at))]
pub fn text_of(at: usize, len: u64, bytes: &[u8]) -> Result<(&str, &[u8]), ReadError>
    ensures { Gives (λ x. (x.0.now, x.1.now)) result (string_at is_utf8 at len bytes.now) }
{
    if (bytes.len() as u64) < len {
        return Err(ReadError::Fault(Fault::Short));
    }
    let (front, rest) = bytes.split_at(len as usize);
    match text_in(front) {
        Some(text) => Ok((text, rest)),
        None => Err(ReadError::Fault(Fault::BadText(at))),
    }
}

/// The length of the next chunk of a string of the major type, or None at the break.
#[tactic(auto, unfolding(c2_cbor_spec::specs::Reading::chunk_head))]
fn next_chunk(major: u8, bytes: &[u8]) -> Result<(Option<u64>, &[u8]), ReadError>
    ensures { Gives (λ x. (x.0, x.1.now)) result (chunk_head major bytes.now) }
{
    match bytes {
        [] => Err(ReadError::Fault(Fault::Short)),
        [first, rest @ ..] => {
            if *first == 255 {
                return Ok((None, rest));
            }
            if *first / 32 == major && *first % 32 < 28 {
                let (len, rest) = argument(bytes.len(), *first % 32, rest)?;
                Ok((Some(len), rest))
            } else {
                Err(ReadError::Fault(Fault::Reserved(bytes.len())))
            }
        }
    }
}

/// The next chunk of a byte string, or None at the break.
#[tactic(auto, unfolding(c2_cbor_spec::specs::Reading::chunk_at))]
pub fn byte_chunk(bytes: &[u8]) -> Result<(Option<&[u8]>, &[u8]), ReadError>
    ensures { Gives (λ x. (option_map (λ c. c.now) x.0, x.1.now)) result
        (chunk_at any_bytes 2 bytes.now) }
{
    let (next, rest) = next_chunk(2, bytes)?;
    match next {
        None => Ok((None, rest)),
        Some(len) => {
            let (chunk, rest) = bytes_of(bytes.len(), len, rest)?;
            Ok((Some(chunk), rest))
        }
    }
}

/// The next chunk of a text, or None at the break.
#[tactic(auto, unfolding(c2_cbor_spec::specs::Reading::chunk_at))]
pub fn text_chunk(bytes: &[u8]) -> Result<(Option<&str>, &[u8]), ReadError>
    ensures { Gives (λ x. (option_map (λ c. c.now) x.0, x.1.now)) result
        (chunk_at is_utf8 3 bytes.now) }
{
    let (next, rest) = next_chunk(3, bytes)?;
    match next {
        None => Ok((None, rest)),
        Some(len) => {
            let (chunk, rest) = text_of(bytes.len(), len, rest)?;
            Ok((Some(chunk), rest))
        }
    }
}
