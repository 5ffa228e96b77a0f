//! The chunk tables of a BMFF file (ISO/IEC 14496-12, 8.7.5), and the file with the places in them moved.
//!
//! What the tables of a file are, what is refused of it, and the file with moved places stand in `c2_bmff_chunks`. Tables are kept in the order
//! of their places, so a read looks at those alone that reach into it; no field is kept.
#![tactic(auto)]

mod checking;
mod fields;
mod moving;
mod putting;
mod reading;
mod shifting;
mod source;
pub mod types;
mod walking;

pub use c2_bmff_chunks::{ChunkTable, ShiftError};
pub use checking::check_shift;
pub use shifting::read_shifted;
pub use source::{NamedTables, Shifted};
pub use walking::tables;
