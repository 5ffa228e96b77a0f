//! Parts of a source appended to a sink, and what a call that writes says of its sink.
//!
//! What a step that writes has done, and what a call that writes a file has, stands in `specs/Writing.antt`.
#![tactic(auto)]

mod copying;
mod laws;

pub use copying::{CopyError, copy};
pub use laws::steps_follow;
