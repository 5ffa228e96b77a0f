//! The first difference of two chain contents: of what leads to ingredients, and then of the assertions that aren't redacted.
//!
//! Which pairs of lists are compared, and in which order, stands in `c2_compare_spec`, module `Differences`.
#![tactic(auto)]

mod pairs;
mod search;
mod stores;

pub use search::{active, chain_difference};
