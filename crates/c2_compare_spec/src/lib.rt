//! What the active claim of an accepted media file binds: all claims and assertions that are reached from it,
//! and the covered text; or a digest or a signature is shown to hold for two things.
//!
//! Definitions stand in `specs/`, and their laws here, apart from the code that compares two files.
#![tactic(auto)]

mod compared;
mod laws;

pub use compared::{Compared, EvidenceKind, Side};
pub use laws::{
    a_difference_is_found, a_first_difference_is_real, a_step_keeps_equal_claims,
    a_test_decides_content, accepted_is_valid, each_comparison, each_reached_manifest_corresponds,
    equal_claim_bytes_are_one_claim, one_claim_binds_or_there_is_evidence, one_comparison,
};
