// A digest.

use crate::{Alg, digest_len};
use std::marker::Model;

/// No digest has more bytes.
pub const MAX_DIGEST_LEN: usize = 64;

/// A digest: 64 bytes and a length, seen as the list of its first bytes. Two are equal where these lists are.
#[derive(Clone, Copy, Debug, PartialEq, Eq)]
pub struct Digest {
    bytes: [u8; MAX_DIGEST_LEN],
    len: usize,
}

impl Model for Digest {
    ghost use Rattle.std.specs.Prelude.{ℕ, List, length, take};
    ghost use Rattle.std.proofs.Common.{ap₂, sym};
    ghost use Rattle.c2_hash.specs.Padded.{IsPadded, padded, length_back};

    ghost Value = { List ℕ };

    ghost view = { λ d. take d.len d.bytes };

    // the bytes behind the length are zeros, so the list gives the fields back
    ghost invariant = { λ d. IsPadded d.bytes d.len };

    ghost inverse = { λ list. record { bytes = padded list; len = length list } };

    ghost inverse_ok = { λ a h.
        ap₂ (λ (b : List ℕ) (n : ℕ). record { bytes = b; len = n })
        (sym h.zeros) (length_back a.bytes a.len h) };
}

impl Digest {
    ghost use Rattle.std.specs.Prelude.{◌≡◌, ◌≤◌, length};
    ghost use Rattle.c2_spec.specs.Digest as form;
    ghost use Rattle.c2_spec.specs.Digest.{most_digest_len};

    /// The digest that has these bytes, which are 64 at most.
    pub fn from_slice(bytes: &[u8]) -> Digest
        requires { length bytes.now ≤ most_digest_len }
        ensures { result ≡ bytes.now }
    {
        let mut room = [0; MAX_DIGEST_LEN];
        room[..bytes.len()].copy_from_slice(bytes);
        Digest {
            bytes: room,
            len: bytes.len(),
        }
    }

    /// As many zeros as a digest of this algorithm has bytes: they stand for a digest where lengths alone matter.
    pub fn zeros(alg: Alg) -> Digest
        ensures { result ≡ form.zero_digest alg }
    {
        Digest {
            bytes: [0; MAX_DIGEST_LEN],
            len: digest_len(alg),
        }
    }

    /// The bytes.
    pub fn as_slice(&self) -> &[u8]
        ensures { result.now ≡ self.now }
    {
        &self.bytes[..self.len]
    }
}
