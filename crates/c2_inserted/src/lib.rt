//! A file with a piece put in, as a source of bytes over the file without it and the piece.
//!
//! What that file is stands in `c2_spec`, module `PutIn`.
#![tactic(auto)]

mod source;

pub use source::{Inserted, NamedPiece};
