//! What a run comes to: its answer, its report and its status, and what a command replies.
//!
//! The outcome of a run stands in `specs/Outcome.antt`, what a call leaves of a sink in `specs/Left.antt`, and what a command replies
//! before its report is written in `specs/Reply.antt`.
#![tactic(auto)]

mod checked;
mod replies;
mod reply;
pub mod types;

pub use checked::reply_to_answer;
pub use replies::{none_reply, refused_reply, usage_reply};
pub use reply::{Fault, Reply};
