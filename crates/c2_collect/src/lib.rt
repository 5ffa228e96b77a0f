//! The boxes of two stores joined (C2PA Technical Specification 2.x, "Ingredient"): those of a media file's store, and behind them the
//! manifests of another store that are reached there.
//!
//! What the joined boxes are, and where two stores clash, stands in `Sides` of c2_collect_spec.
#![tactic(auto)]

mod appending;
mod carrying;
mod error;
mod joining;
mod side;

pub use error::JoinError;
pub use joining::{carry, carry_into, carry_less_into, join, join_into, join_less_into};
pub use side::Side;
