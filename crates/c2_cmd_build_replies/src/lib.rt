//! The replies to what a build of a new store comes to: what is built, or what is refused.
//!
//! What a build comes to, as a command says it, stands in `c2_cmd_written_spec/specs/Builds.antt`.
#![tactic(auto)]

mod errors;
mod replies;

pub use errors::refusal_line;
pub use replies::{embedded_reply, planned_reply};
