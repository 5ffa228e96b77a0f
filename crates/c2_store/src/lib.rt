//! The manifests of a store, as indices of boxes in its tree (C2PA Technical Specification 2.x).
//!
//! Which trees are stores, and which boxes a manifest has, is defined in `C2pa.Manifest` of c2_spec.
#![tactic(auto)]

mod boxes;
mod items;
mod laws;
mod manifests;
mod reading;
mod store;

pub use c2_spec::StoreError;
pub use items::item;
pub use laws::items_are_parts;
pub use reading::of_tree;
pub use store::{
    Store, assertions, claims, is_update, label, manifest_boxes, manifest_count, signature, whole,
};
