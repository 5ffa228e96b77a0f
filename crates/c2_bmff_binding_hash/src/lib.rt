//! The digest that binds a new store to its BMFF file (C2PA Technical Specification 2.x, "BMFF-based hash"): that of what the exclusions of
//! a new hash leave of the file.
//!
//! These exclusions and what they leave stand in `c2_spec`, module `Bmff.Writing`.
#![tactic(auto)]

mod digest;
mod error;

pub use digest::bmff_digest;
pub use error::BmffError;
