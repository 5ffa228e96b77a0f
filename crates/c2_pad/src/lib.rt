//! The padding of a signed message: how many zero bytes make it longer by a wanted number of bytes.
//!
//! What a fill is, and what it costs, stands in `specs/Fill.antt`.
#![tactic(auto)]

mod filling;
mod laws;
pub mod types;

pub use filling::fill;
pub use laws::{fills_are_exact, two_entries_only_where_one_is_not_enough};
