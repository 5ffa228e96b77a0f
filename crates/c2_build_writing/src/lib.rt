//! A store put into a file, and the rest of the file with it: what is written of a base, whatever source that is.
//!
//! What is put in stands in `specs/Puts.antt`, and what was done to the sink in `c2_copying`, module `Writing`.
#![tactic(auto)]

mod putting;

pub use putting::{copy_fault, write_whole};
