//! What a media file is opened as: its container, the manifest store in it, and a store's bytes as a store of manifests.
//!
//! What a file is opened as stands in `c2_rules`, module `Opened`, and how the answers here are seen so in `specs/Opened.antt`.
#![tactic(auto)]

mod error;
mod find;
mod laws;
mod read;
pub mod types;

pub use error::ValidateError;
pub use find::find_store;
pub use laws::{one_media, one_opening};
pub use read::{read_store, read_tree};
pub use types::{Container, Media, Opened};
