// The rows of a verdict file.
ghost use Rattle.std.specs.Prelude.{◌≡◌, MatchOption};
ghost use Rattle.hex.specs.Hex.{encode_lower};
ghost use Rattle.c2_spec.specs.Judges.VerdictFile.{IsId};
ghost use Rattle.c2_judge.specs.Reading.{FirstLine, NoIdDigits, IsIdDigits, OnlyIdDigits};
ghost use Rattle.c2_judge.specs.Reading.{NoRowLine, IsRowLine, word_said};

use c2_spec::{Verdict, VerdictRow};
use hex::{decode_to_slice, encode_to_slice};

// How many hex digits an id has.
const ID_DIGITS: usize = 64;

// The first line, without its line feed, and what comes after that.
pub fn split_line(bytes: &[u8]) -> (&[u8], &[u8])
    ensures { FirstLine bytes.now result.0.now result.1.now }
{
    for (i, b) in bytes.iter().enumerate() {
        if *b == b'\n' {
            return (&bytes[..i], &bytes[i + 1..]);
        }
    }
    (bytes, &bytes[bytes.len()..])
}

// The one id that these digits can stand for. `hex` reads both cases.
fn decoded(digits: &[u8]) -> Option<[u8; 32]>
    ensures { MatchOption result (NoIdDigits digits.now) (OnlyIdDigits digits.now) }
{
    let mut id = [0; 32];
    let Ok(()) = decode_to_slice(digits, &mut id) else {
        return None;
    };
    Some(id)
}

// The lower case hex of an id.
fn encoded(id: &[u8; 32]) -> [u8; ID_DIGITS]
    ensures digits { result ≡ encode_lower id.now }
    ensures is_id { IsId id.now }
{
    let mut digits = [0; ID_DIGITS];
    // The answer is always Ok: there is room for 64 digits.
    let _fits = encode_to_slice(id.as_slice(), &mut digits);
    digits
}

// The id that these digits are the lower case hex of: what was read is written again.
fn read_id(digits: &[u8]) -> Option<[u8; 32]>
    ensures { MatchOption result (NoIdDigits digits.now) (IsIdDigits digits.now) }
{
    let id = decoded(digits)?;
    let again = encoded(&id);
    if digits != again.as_slice() {
        return None;
    }
    Some(id)
}

// The verdict that these bytes name after a space.
fn read_word(word: &[u8]) -> Option<Verdict>
    ensures { result ≡ word_said word.now }
{
    if word == b" approved".as_slice() {
        Some(Verdict::Approved)
    } else if word == b" mismatch".as_slice() {
        Some(Verdict::Mismatch)
    } else if word == b" untrusted".as_slice() {
        Some(Verdict::Untrusted)
    } else if word == b" invalid".as_slice() {
        Some(Verdict::Invalid)
    } else {
        None
    }
}

// The row that has this line.
pub fn read_row(line: &[u8]) -> Option<VerdictRow>
    ensures { MatchOption result (NoRowLine line.now) (IsRowLine line.now) }
{
    if line.len() < ID_DIGITS {
        return None;
    }
    let (digits, word) = line.split_at(ID_DIGITS);
    let id = read_id(digits)?;
    let verdict = read_word(word)?;
    Some(VerdictRow { id, verdict })
}
