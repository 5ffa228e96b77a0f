//! The digest that binds a new store in front of the other boxes of a BMFF file (C2PA Technical Specification 2.x, "BMFF-based hash"): that of
//! what the exclusions of a new hash leave of the file in which the store stands right after the first root box, and in whose chunk tables each
//! place from there on is greater by the length of the store's box (ISO/IEC 14496-12, 8.7.5).
//!
//! What that file is stands in `specs/Putting.antt`, and what the digest is in `specs/Digests.antt`. It is read over the file as it is.
#![tactic(auto)]

mod digesting;
mod frame;
mod front;

pub use digesting::front_digest;
pub use frame::FRAME_LEN;
pub use front::Front;
