//! What is read of the manifests of a store: each box as it lies in the store, and claims, signed messages and ingredients as
//! values (C2PA Technical Specification 2.x).
//!
//! What they are stands in `Readings` of c2_rules.
#![tactic(auto)]

mod chain;
mod keeping;
mod kept;
mod labelled;
mod laws;
mod placed;
mod places;
mod reading;
mod redacted;
mod rows;

pub use chain::{
    ReadManifests, child_of, children, is_active, is_reached, is_redacted, is_touched, manifests,
    place_of, reaches, read_claim_at, read_manifests,
};
pub use keeping::claim_bytes;
pub use kept::{
    AssertionBox, ReadManifest, StoreBox, box_label, boxes, ingredient, is_own, is_update, label,
};
pub use laws::{
    a_reading_is_the_claim_and_the_question, each_list_is_an_item_or_not,
    each_manifest_has_a_claim_or_not, each_manifest_has_a_question_or_not, each_store_is_read,
    labels_of_a_store_differ, one_claim, one_list_of_claims, one_question, one_reading,
};
pub use placed::Placed;
pub use places::named;
pub use redacted::entry_label;
