//! The assertion that binds a new store to its BMFF file (C2PA Technical Specification 2.x, "BMFF-based hash", version 2).
//!
//! What it is stands in `c2_new_file_spec`, module `Films`; the digest that it holds is made by `c2_bmff_binding_hash`.
#![tactic(auto)]

mod binding;

pub use binding::new_bmff_binding;
