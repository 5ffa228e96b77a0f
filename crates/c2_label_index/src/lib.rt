//! Labels, looked up by their bytes and not by going through lists: where each stands first, and sets of them.
#![tactic(auto)]

mod labels;
mod places;

pub use labels::{Labels, add_label, has_label, no_labels};
pub use places::{Places, add_place, first_place, no_places};
