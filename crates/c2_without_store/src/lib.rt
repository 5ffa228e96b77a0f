//! A BMFF file less the box of an older store, as a source of bytes: what a new store is put into.
//!
//! What that file is stands in `c2_spec`, module `Bmff.Writing`; byte by byte it is told in the module `Clears`.
#![tactic(auto)]

mod clearing;
mod freeing;
mod leaving;
mod source;

pub use clearing::{Clearing, clearing_of};
pub use leaving::roots_left;
pub use source::{Named, WithoutStore};
