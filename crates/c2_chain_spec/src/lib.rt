//! Chains of manifests as a later manifest sees them: definitions and laws (C2PA Technical Specification 2.x, "Ingredient" and "Redaction
//! of assertions").
//!
//! A chain that is seen from the places which a later manifest names stands in `Rooted`. How two are joined stands in `Joined`: what is
//! carried of another store beside one's own, where the rules of each manifest hold as they did. What holds of a manifest that is no longer
//! the active one, and may have lost boxes that are redacted, stands in `Older`.
#![tactic(auto)]

mod chain;
mod older;

pub use chain::{a_store_is_rooted_at_its_last_manifest, chains_join, tests_decide_from_roots};
pub use older::{rules_hold_when_no_longer_active, rules_hold_without_redacted_boxes};
