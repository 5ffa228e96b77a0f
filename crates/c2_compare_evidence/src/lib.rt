//! Two lists of bytes that differ under one claim, and the evidence that is written of them. Of covered texts, which may be as long as
//! their files: whether they are equal, and their evidence, both read in pieces.
//!
//! What evidence is and its text stand in `c2_compare_spec`, modules `Evidence` and `EvidenceText`.
#![tactic(auto)]

mod covered;
mod error;
mod evidence;
mod lists;
mod pieces;

pub use covered::{CoveredTexts, same_covered, write_covered};
pub use error::CompareError;
pub use evidence::write_evidence;
pub use lists::{Binder, Difference, Location, compare_known, compare_lists};
