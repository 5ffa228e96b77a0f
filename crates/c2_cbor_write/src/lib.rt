//! CBOR items, written: their deterministic bytes (RFC 8949, section 4.2.1), how long these are, and copies of items.
#![tactic(auto)]

mod checks;
mod copying;
mod deterministic;
mod encoding;
mod equal;
mod length;
mod plainness;

pub use copying::copy;
pub use encoding::encode;
pub use length::encoded_len;
pub use plainness::is_plain;
