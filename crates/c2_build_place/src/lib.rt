//! How a media file is cleared of its older store, and where a new one goes in what is left, by what was read when the file was opened.
//!
//! What is found stands in `specs/PointsLeft.antt`.
#![tactic(auto)]

mod place;

pub use place::{SizedPoint, cleared_of, find_insert_point};
