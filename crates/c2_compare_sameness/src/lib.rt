//! Whether two chain contents are equal, wherever their manifests stand.
//!
//! What a chain content is and what decides that two are equal stands in `c2_compare_spec`, modules `ChainContent` and `Deciding`.
#![tactic(auto)]

mod same;
mod sides;

pub use same::has_same_content;
