//! The parts of a new manifest over a media file: the digest of what its binding binds, and what is made of that.
//!
//! What is bound, and how long the new store is, stands in `specs/Bound.antt`.
#![tactic(auto)]

mod digesting;
mod parts;

pub use digesting::hash_all;
pub use parts::{Bound, binding_at, bound_digest, parts_for};
