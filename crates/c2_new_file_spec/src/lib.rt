//! A new store and the media file that it is put into: definitions and laws (C2PA Technical Specification 2.x, "Embedding manifests into
//! assets", "Ingredient", "Redaction of assertions" and "BMFF-based hash").
//!
//! The definitions stand in `specs/`. Of the store: its box tree (`Store`), what it is read as (`Written`, by `Manifests`), how long it is
//! (`Built`), and what its file meets (`Fresh`; `Unbound` of the store beside its binding). Of what it takes over of an older one: the boxes
//! that are carried (`Redacting`), the redactions that are refused (`Refusing`), and the parent (`Parents`). Of the file: the place of the
//! store and what depends on it (`Places`), what is left of the media (`Bases`), a new BMFF file (`Films`), and what a file meets that is
//! built so (`Meeting`).
//!
//! The laws of each stand in a module of their own: what is written has one length and is read as what was meant, and a file meets the
//! rules where its store and its binding do. That each store meets them, and what the new file meets, is told by `c2_new_content_spec`; the
//! code that makes the bytes is `c2_layout`.
#![tactic(auto)]

mod bmff;
mod file;
mod parent;
mod refused;
mod store;

pub use bmff::{a_built_bmff_has_its_base, a_new_bmff_store_has_one_length};
pub use file::{
    a_new_store_has_one_length_in_its_place, a_place_is_one, bindings_are_known,
    each_media_has_a_place, what_is_left_is_one,
};
pub use parent::{
    a_base_has_no_store, a_redacted_store_is_read, a_valid_store_is_carried,
    redactions_that_pass_may_be_made, the_first_redaction_refused_is_the_least,
    what_is_taken_over_is_one,
};
pub use refused::RefusedRedaction;
pub use store::{
    a_bound_file_meets_the_rules, a_new_store_has_one_length, a_new_store_is_read,
    manifests_are_boxes, new_stores_have_one_length,
};
