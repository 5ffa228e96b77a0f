//! The bytes of a media file that a hash covers (C2PA Technical Specification 2.x, "Data hash" and "BMFF-based hash"), and their
//! digest.
//!
//! Which bytes these are is a filter over positions, in `c2_spec`, modules `Cover` and `Bmff.Cover`. Here a cover keeps the ranges
//! that are left out, merged, and for a BMFF hash the starts of root boxes; its text is read in pieces as long as the caller's buffer.
#![tactic(auto)]

mod bmff;
mod counts;
mod cover;
mod digest;
mod laws;
mod offsets;
mod reader;
mod same;

pub use bmff::bmff_cover;
pub use counts::{covered_count, outside_count};
pub use cover::{Cover, CoverError, check_ranges, cover_without, data_cover};
pub use digest::digest_cover;
pub use laws::each_text_has_its_count;
pub use reader::CoveredReader;
pub use same::same_text;
