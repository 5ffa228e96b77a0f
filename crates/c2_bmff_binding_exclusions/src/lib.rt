//! What the hash of a new BMFF file leaves out (C2PA Technical Specification 2.x, "BMFF-based hash"): the C2PA boxes, the file type box, and
//! `mfra`.
//!
//! These exclusions stand in `c2_spec`, module `Bmff.Writing`; what they leave of a file is the business of `c2_bmff_insert_spec` and `c2_cover`.
#![tactic(auto)]

mod built;

pub use built::new_exclusions;
