//! What holds of a BMFF file that a store is put into, and of the file without its store (C2PA Technical Specification 2.x, embedding in
//! BMFF).
//!
//! The box of a store, its place and the base of a file stand in `c2_spec`, module `Bmff.Writing`.
#![tactic(auto)]

mod laws;

pub use laws::{a_base_has_no_store, a_put_store_is_found, a_put_store_is_not_covered};
