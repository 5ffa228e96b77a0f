//! The command `strip`: what it replies and writes, over whatever source and sink it is handed.
//!
//! What it comes to stands in `specs/Outcomes.antt`, and its lines of a report in `specs/Lines.antt`.
#![tactic(auto)]

mod laws;
mod lines;
mod strip;

pub use laws::a_strip_comes_to_one_outcome;
pub use lines::{middle_line, stripped_line};
pub use strip::reply_to_strip;
