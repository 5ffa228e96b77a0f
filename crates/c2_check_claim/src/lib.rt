//! The rules on a claim and its signature, on the entries that a claim lists, on boxes that no entry lists, and on redactions
//! (C2PA Technical Specification 2.x, "Validation").
//!
//! What they are stands in `Rules` of c2_rules.
#![tactic(auto)]

mod boxes;
mod claims;
mod entries;
mod labelled;
mod redactions;

pub use boxes::check_boxes;
pub use claims::{check_claim, names_signature};
pub use entries::{box_with, check_entries};
pub use labelled::{Labelled, entry_at, entry_count, find_box, is_listed, owner, with_labels};
pub use redactions::check_own_redactions;
