//! The positions that exclusions of a BMFF hash exclude through one box of a file (C2PA Technical Specification 2.x, "BMFF-based hash").
//!
//! Exclusions are put in order first, with their byte tests joined into runs of bytes and their parts of boxes joined; what they
//! exclude is kept as ranges. Which positions these are is told by the rows of boxes in the module `Marks`.
#![tactic(auto)]

mod entries;
mod far;
mod marking;
mod parts;
mod runs;

pub use entries::{Ask, Entry, entries_of};
pub use marking::{add_sorted, is_whole, join_full, mark_row};
pub use runs::{Run, Runs};
