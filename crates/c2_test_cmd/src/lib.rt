//! Tests of whole runs, and of sources, sinks and lines by themselves, that are no rows of a table: those are data of `c2_test_rows`.
#![tactic(auto)]

#[cfg(test)]
mod files;
#[cfg(test)]
mod host;
#[cfg(test)]
mod lines;
#[cfg(test)]
mod outside;
