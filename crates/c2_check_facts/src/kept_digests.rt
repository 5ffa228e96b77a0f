// Digests of one list that are kept, so that no list is hashed twice by one algorithm.
ghost use Rattle.std.specs.Prelude.{◌≡◌, IfSome};
ghost use Rattle.c2_check_facts.specs.Facts.{AreDigestsOf, by_alg, no_digests};

use c2_hash::{Alg, Digest, Hashing, digest_of};
use std::marker::Model;

/// A set of algorithms.
#[derive(Clone, Copy, Debug)]
pub struct AlgSet {
    sha256: bool,
    sha384: bool,
    sha512: bool,
}

impl AlgSet {
    /// The empty set.
    pub fn empty() -> AlgSet {
        AlgSet {
            sha256: false,
            sha384: false,
            sha512: false,
        }
    }

    /// Takes in this algorithm.
    pub fn insert(&mut self, alg: Alg) {
        match alg {
            Alg::Sha256 => self.sha256 = true,
            Alg::Sha384 => self.sha384 = true,
            Alg::Sha512 => self.sha512 = true,
        }
    }
}

/// Digests of one list, at most one by each algorithm.
#[derive(Clone, Copy, Debug)]
pub struct Digests {
    sha256: Option<Digest>,
    sha384: Option<Digest>,
    sha512: Option<Digest>,
}

impl Model for Digests {
    ghost use Rattle.c2_check_facts.specs.Facts.{Digests as AnyDigests};

    ghost Value = { AnyDigests };

    ghost view = { λ d. record { sha256 = d.sha256; sha384 = d.sha384; sha512 = d.sha512 } };

    ghost inverse = { λ d. record { sha256 = d.sha256; sha384 = d.sha384; sha512 = d.sha512 } };
}

impl Digests {
    /// No digest.
    pub fn none() -> Digests
        ensures { result ≡ no_digests }
    {
        Digests {
            sha256: None,
            sha384: None,
            sha512: None,
        }
    }

    /// The digest by this algorithm, where it is kept.
    pub fn by_alg(&self, alg: Alg) -> Option<Digest>
        ensures { result ≡ by_alg self.now alg }
    {
        match alg {
            Alg::Sha256 => self.sha256,
            Alg::Sha384 => self.sha384,
            Alg::Sha512 => self.sha512,
        }
    }
}

/// The digest of a list, where it is wanted.
fn wanted_digest<H: Hashing>(hashing: &H, alg: Alg, wanted: bool, list: &[u8]) -> Option<Digest>
    ensures { IfSome result (λ digest. digest ≡ H.digest_of alg list.now) }
{
    if wanted {
        return Some(digest_of(hashing, alg, list));
    }
    None
}

/// The digests of a list by the algorithms of a set.
pub fn digests_by<H: Hashing>(hashing: &H, algs: AlgSet, list: &[u8]) -> Digests
    ensures { AreDigestsOf H.digest_of list.now result }
{
    Digests {
        sha256: wanted_digest(hashing, Alg::Sha256, algs.sha256, list),
        sha384: wanted_digest(hashing, Alg::Sha384, algs.sha384, list),
        sha512: wanted_digest(hashing, Alg::Sha512, algs.sha512, list),
    }
}
