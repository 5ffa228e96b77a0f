//! What is built in front of a BMFF file: a new store, from a definition file and a signed message, right after the file type box, with the
//! chunk offsets of the media moved.
//!
//! What each call comes to stands in `c2_new_front_spec`, module `Outcomes`, what a new file meets in its module `Made`, and the error of each refusal in
//! `specs/Errors.antt`.
#![tactic(auto)]

mod drafting;
mod embedding;
mod laws;
mod parts;
mod planning;
mod ready;
mod sizes;
mod writing;

pub use embedding::embed_front;
pub use laws::each_front_refusal_has_its_error;
pub use planning::plan_front;
