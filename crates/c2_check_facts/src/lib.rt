//! What is asked of a store's manifests, once they are read: the URIs of their boxes and what fails there, digests by the algorithm of a
//! reference, what assertions are by their labels, what is found out once of children, and assertion boxes by their indices.
//!
//! What these are stands in `Rules`, `Seen` and `BoxPlaces` of c2_rules.
#![tactic(auto)]

mod digests;
mod facts;
mod indices;
mod kept_digests;
mod kinds;
mod known;
mod uris;

pub use digests::{alg_name, has_digest, has_known_digest, is_known};
pub use facts::{ChildFact, Facts, fact_at, facts_below, facts_of_children};
pub use indices::{child_in, ingredient_in};
pub use kept_digests::Digests;
pub use kinds::{is_hash, label_kind};
pub use known::KnownStore;
pub use uris::{at_assertion, at_box, at_claim, at_manifest, at_signature, claim_label};
