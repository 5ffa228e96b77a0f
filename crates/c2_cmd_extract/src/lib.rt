//! The command `extract`: what it replies and writes, over whatever source and sink it is handed.
//!
//! What it comes to stands in `specs/Outcomes.antt`, and its line of a report in `specs/Lines.antt`.
#![tactic(auto)]

mod extract;
mod laws;
mod lines;

pub use extract::reply_to_extract;
pub use laws::an_extract_comes_to_one_outcome;
pub use lines::extracted_line;
