//! A media file without its store: the bytes outside the embedded range.
//!
//! What a file comes to without its store stands in `specs/Stripping.antt`, and what the call has written in `specs/Answers.antt`.
#![tactic(auto)]

mod ending;
mod error;
mod laws;
mod stripping;
mod writing;

pub use error::{StripError, Stripped};
pub use laws::{a_stripped_file_is_what_is_outside, each_file_is_stripped};
pub use stripping::strip;
