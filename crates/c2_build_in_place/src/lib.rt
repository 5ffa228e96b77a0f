//! A new file whose store stands in its place: the numbers of the file, before anything is digested, and its writing over what is left of the
//! media file.
//!
//! What the numbers are stands in `specs/Numbers.antt`, and what is written in `specs/Writings.antt`. What goes into the store is told by
//! its length and its bytes alone.
#![tactic(auto)]

mod numbers;
mod writing;

pub use numbers::{blank_binding, draft_at};
pub use writing::{Ready, write_file};
