//! Tests of `compare` over files in memory: worked pairs, each fault of a source, a judge and the report in turn, and how
//! often the files are read.
//!
//! The pairs and what is reported of them come from tests/real/compare_rows.py.
#![tactic(auto)]

#[cfg(test)]
mod faults;
#[cfg(test)]
mod opened;
#[cfg(test)]
mod pairs;
#[cfg(test)]
mod rows;
