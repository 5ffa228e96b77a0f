//! What a new file is built over whose new store collects from a media file and from another file: the other is opened and checked, the two
//! stores are joined, and the ingredients are made.
//!
//! What that comes to stands in `specs/Grounds.antt`, and the error of each refusal in `specs/Errors.antt`.
#![tactic(auto)]

mod both;
mod ground;
mod ingredients;
mod joining;
mod laws;
mod other;
mod stores;
mod types;

pub use laws::each_collect_refusal_has_its_error;
pub use types::Collector;
