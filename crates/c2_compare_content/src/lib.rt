//! The manifests of two stores that correspond to each other by their labels, the lists of each that a claim binds, and which of these
//! are equal. A manifest that is missing has empty lists.
//!
//! What corresponds and what the lists are stands in `c2_compare_spec`, module `Differences`.
#![tactic(auto)]

mod targets;

pub use targets::{
    Equality, all_equalities, claim_bytes, manifest_at, other, signature_contents, target_equality,
    whole_contents,
};
