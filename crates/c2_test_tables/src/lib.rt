//! What the programs share that go through tables of rows: why a table isn't gone through to its end.
#![tactic(auto)]

mod trouble;

pub use trouble::Trouble;
