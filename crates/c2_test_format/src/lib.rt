//! Tests of public calls of the formats and digests that are no rows of a table: those are data of `c2_test_part_rows`.
#![tactic(auto)]

#[cfg(test)]
mod boxes;
#[cfg(test)]
mod digests;
#[cfg(test)]
mod films;
#[cfg(test)]
mod items;
#[cfg(test)]
mod segments;
