// Labels of assertions that stand more than once in a manifest.
ghost use Rattle.std.specs.Prelude.{◌≡◌};
ghost use Rattle.std.specs.Char.{is_ascii_digit};
ghost use Rattle.std.specs.List.{list_all};
ghost use Rattle.c2_spec.specs.C2pa.Uri.{is_number_suffix, base_of};

// Whether all bytes are ASCII digits.
fn are_digits(bytes: &[u8]) -> bool
    ensures { result ≡ list_all is_ascii_digit bytes.now }
{
    bytes.iter().all(|b| b.is_ascii_digit())
}

// Whether the bytes are two low lines and one or more digits.
fn is_number(bytes: &[u8]) -> bool
    ensures { result ≡ is_number_suffix bytes.now }
{
    match bytes {
        [first, second, digits @ ..] => {
            *first == b'_' && *second == b'_' && !digits.is_empty() && are_digits(digits)
        }
        _ => false,
    }
}

#[tactic(auto, using(crate::proofs::Numbers::base_here))]
/// The label without the number that tells it from others of its kind: what follows the last `__` goes, with it, where that is
/// digits alone and at least one. Takes no memory.
pub fn base_label(label: &str) -> &str
    ensures { result.now ≡ base_of label.now }
{
    let bytes = label.as_bytes();
    for i in 0..bytes.len() {
        if is_number(&bytes[i..]) {
            return &label[..i];
        }
    }
    label
}
