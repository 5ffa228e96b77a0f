//! The container of a media file and the store in it: the tests of the container alone, of a JPEG or of a BMFF file.
//!
//! What a file comes to stands in `c2_spec`, module `Container`, and how the answer here is seen so in `specs/Contained.antt`.
#![tactic(auto)]

mod find;
mod laws;
mod types;

pub use find::locate;
pub use laws::each_media_file_is_located;
pub use types::{Contained, Container};
