// Hash functions.
ghost use Rattle.std.specs.Prelude.{◌≡◌, ℕ, List, []};

use crate::{Alg, Digest, MAX_DIGEST_LEN, digest_len};
use sha2::{Digest as _, Sha256, Sha384, Sha512};

/// A family of hash functions, one for each algorithm. A running hash stands for its algorithm and the bytes so far.
pub trait Hashing {
    ghost use Rattle.c2_spec.specs.declared.digest.Alg.{Alg};
    ghost use Rattle.c2_spec.specs.Digest.{IsDigest};
    ghost use Rattle.c2_hash.specs.Hashing.{Extends};

    /// A running hash.
    type State: Drop;

    // the digest of a list
    ghost digest_of: { Alg → List ℕ → List ℕ };

    // the state stands for this algorithm and this list
    ghost holds: { Self.State → Alg → List ℕ → Type 0 };

    /// A running hash of no bytes.
    fn start(&self, alg: Alg) -> Self::State
        ensures { holds result alg [] };

    /// Takes in further bytes.
    fn update(&self, state: &mut Self::State, bytes: &[u8])
        ensures { Extends holds state.old state.new bytes.now };

    /// The digest of all bytes that were taken in.
    fn finish(&self, state: Self::State) -> Digest
        ensures { (alg : Alg) (list : List ℕ) → holds state alg list
            → result ≡ digest_of alg list };

    // each digest has its algorithm's length, and is made of bytes
    ghost is_digest: { (alg : Alg) (list : List ℕ) → IsDigest alg (digest_of alg list) };
}

/// A running hash of one of the three algorithms.
#[derive(Drop)]
pub enum ShaState {
    /// One that ends in 32 bytes.
    Sha256(Sha256),

    /// One that ends in 48 bytes.
    Sha384(Sha384),

    /// One that ends in 64 bytes.
    Sha512(Sha512),
}

/// SHA-256, SHA-384 and SHA-512, by the crate `sha2`.
#[derive(Clone, Copy, Debug)]
pub struct Sha;

impl Hashing for Sha {
    ghost use Rattle.c2_hash.specs.Sha.{sha_digest, ShaHolds, sha-IsDigest};

    type State = ShaState;

    ghost digest_of = { sha_digest };

    ghost holds = { ShaHolds };

    ghost is_digest = { sha-IsDigest };

    fn start(&self, alg: Alg) -> ShaState {
        match alg {
            Alg::Sha256 => ShaState::Sha256(Sha256::new()),
            Alg::Sha384 => ShaState::Sha384(Sha384::new()),
            Alg::Sha512 => ShaState::Sha512(Sha512::new()),
        }
    }

    fn update(&self, state: &mut ShaState, bytes: &[u8]) {
        match state {
            ShaState::Sha256(hasher) => hasher.update(bytes),
            ShaState::Sha384(hasher) => hasher.update(bytes),
            ShaState::Sha512(hasher) => hasher.update(bytes),
        }
    }

    fn finish(&self, state: ShaState) -> Digest {
        match state {
            ShaState::Sha256(hasher) => Digest::from_slice(&hasher.finalize()),
            ShaState::Sha384(hasher) => Digest::from_slice(&hasher.finalize()),
            ShaState::Sha512(hasher) => Digest::from_slice(&hasher.finalize()),
        }
    }
}

/// A running sum of bytes modulo 256, for digests of this algorithm's length.
#[derive(Clone, Copy, Debug)]
pub struct WeakState {
    alg: Alg,
    sum: u8,
}

/// A hash for tests, whose digests collide: all their bytes are 0 but the last, the sum of the bytes modulo 256.
#[derive(Clone, Copy, Debug)]
pub struct WeakSum;

impl Hashing for WeakSum {
    ghost use Rattle.c2_hash.specs.WeakSum.{weak_digest, SumHolds, weak-IsDigest};

    type State = WeakState;

    ghost digest_of = { weak_digest };

    ghost holds = { SumHolds };

    ghost is_digest = { weak-IsDigest };

    fn start(&self, alg: Alg) -> WeakState {
        WeakState { alg, sum: 0 }
    }

    fn update(&self, state: &mut WeakState, bytes: &[u8]) {
        let mut sum = state.sum;
        'bytes: for byte in bytes {
            sum = sum.wrapping_add(*byte);
        }
        state.sum = sum;
    }

    fn finish(&self, state: WeakState) -> Digest {
        let mut room = [0; MAX_DIGEST_LEN];
        let len = digest_len(state.alg);
        room[len - 1] = state.sum;
        Digest::from_slice(&room[..len])
    }
}

/// The digest of these bytes.
pub fn digest_of<H: Hashing>(hashing: &H, alg: Alg, bytes: &[u8]) -> Digest
    ensures { result ≡ H.digest_of alg bytes.now }
{
    let mut state = hashing.start(alg);
    hashing.update(&mut state, bytes);
    hashing.finish(state)
}
