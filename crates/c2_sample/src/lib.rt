//! A media file that is made, what is built into it, and the check of the new file: `sample` needs no files.
//!
//! What is made and what it comes to stands in `specs/Sample.antt`.
#![tactic(auto)]

mod building;
mod inputs;
mod laws;
mod lines;
mod media;
mod sampling;
mod types;

pub use inputs::{sample_definition, sample_message};
pub use laws::{a_sample_comes_to_one_thing, each_sample_comes_to_something};
pub use lines::sample_line;
pub use media::sample_media;
pub use sampling::sample;
pub use types::{Lengths, SampleError, Sampled};
