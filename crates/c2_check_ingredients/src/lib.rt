//! The rules on ingredients, their manifests and their form, and on the number of bindings and of parents
//! (C2PA Technical Specification 2.x, "Validation").
//!
//! What they are stands in `Rules` and `Seen` of c2_rules.
#![tactic(auto)]

mod bindings;
mod forms;
mod ingredients;

pub use bindings::check_bindings;
pub use forms::check_forms;
pub use ingredients::check_ingredients;
