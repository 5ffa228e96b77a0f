//! What a new store is built over: a media file that is opened, whose older store is checked and read, and what is taken over of that.
//!
//! What was read of a media file, and what is built over it, stands in `specs/Grounds.antt`.
#![tactic(auto)]

mod ground;
mod media;

pub use ground::{check_parent, grounded, opened_in};
pub use media::{MediaRead, OlderStore, open_media, read_media};
