//! The chunk tables of a BMFF file (ISO/IEC 14496-12, 8.7.5), which hold places of media data in the file, and the file in which these
//! places are moved: definitions and laws.
//!
//! The tables stand in the module `Tables`, what stands in the way of moving media data in `Refusals`, the fields and their numbers in
//! `Fields`, the file with moved places in `Shifted`, and what holds of all of them in `Laws`.
#![tactic(auto)]

mod laws;
mod table;

pub use laws::{a_shifted_file_has_its_boxes, a_shifted_file_is_one, chunk_places_stay_true};
pub use table::{ChunkTable, Field, ShiftError};
