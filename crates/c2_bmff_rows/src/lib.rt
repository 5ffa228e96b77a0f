//! The rows of the boxes of a BMFF file: what is kept of each, the rows of the boxes inside one, and the rows on a path; definitions and
//! laws.
//!
//! What a box is stands in `c2_spec`, module `Bmff.Boxes`; the boxes inside one and those on a path, in `Bmff.Paths`. That the rows say
//! the same of a file is what the lemmas in `proofs/` show.
#![tactic(auto)]

mod laws;
mod row;

pub use laws::rows_on_a_path_are_of_its_boxes;
pub use row::RootBox;
