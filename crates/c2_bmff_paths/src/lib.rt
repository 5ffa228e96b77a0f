//! Paths to the boxes of a BMFF file (C2PA Technical Specification 2.x, "BMFF-based hash"), their texts, and the exclusions that name
//! boxes by them.
//!
//! What a path, the boxes on it and an exclusion are stands in `c2_spec`, modules `Bmff.Paths` and `Bmff.Hash`; by the rows of boxes it
//! is told in the module `PathRows`.
#![tactic(auto)]

mod exclusion;
mod paths;

pub use exclusion::{ByteTests, Exclusion, Exclusions};
pub use paths::{Path, Segment, enters, read_path};
