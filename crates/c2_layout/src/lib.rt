//! What is written into a media file: the bytes and sizes of a new store.
//!
//! What the store is, and what holds of it and of the file that it is put into, stands in `c2_new_file_spec`. A manifest has the assertions of its
//! definition, then those of its ingredients, and then its binding.
#![tactic(auto)]

mod assertions;
mod binding;
mod boxes;
mod carried;
mod claims;
mod entries;
mod ingredients;
mod laws;
mod manifest;
mod parts;
mod size;
mod store;

pub use binding::data_binding;
pub use boxes::write_assertion;
pub use carried::{Carried, ManifestRefs};
pub use entries::own_ref;
pub use ingredients::ingredient;
pub use laws::{a_claim_of_parts_is_legal, ingredient_labels_may_be_written};
pub use manifest::write_manifest;
pub use parts::{NewParts, bound_parts};
pub use size::bound_size;
pub use store::new_store;
