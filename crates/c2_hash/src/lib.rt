//! Digests behind a trait, so that all code above is proved for any hash.
//!
//! The names of the algorithms stand in `c2_spec`, module `Digest`. Nothing here allocates.
#![tactic(auto)]

mod digest;
mod hashing;
mod names;

pub use c2_spec::Alg;
pub use digest::{Digest, MAX_DIGEST_LEN};
pub use hashing::{Hashing, Sha, ShaState, WeakState, WeakSum, digest_of};
pub use names::{alg_name, alg_of, digest_len};
