// The number of pieces that a word asks for.
ghost use Rattle.std.specs.Prelude.{◌≡◌};
ghost use Rattle.std.specs.List.{list_all};
ghost use Rattle.std.specs.Char.{is_ascii_digit};
ghost use Rattle.c2_usage.specs.CommandLine.{is_number, pieces_of};

use crate::types::MAX_PIECES;

/// How many pieces a word asks for: none where it isn't a number or they are too many.
pub fn pieces_of(word: &str) -> Option<u32>
    ensures { result ≡ pieces_of word.now }
{
    if !is_number(word.as_bytes()) {
        return None;
    }
    let Ok(count) = word.parse::<u32>() else {
        return None;
    };
    if count > MAX_PIECES {
        return None;
    }
    Some(count)
}

// Whether a word is decimal digits without a leading zero.
fn is_number(word: &[u8]) -> bool
    ensures { result ≡ is_number word.now }
{
    match word {
        [] => false,
        [first, ..] => *first != b'0' && are_digits(word),
    }
}

// Whether all bytes are decimal digits.
fn are_digits(word: &[u8]) -> bool
    ensures { result ≡ list_all is_ascii_digit word.now }
{
    word.iter().all(is_digit)
}

// Whether a byte is a decimal digit.
fn is_digit(byte: &u8) -> bool
    ensures { result ≡ is_ascii_digit byte.now }
{
    byte.is_ascii_digit()
}
