//! Tests of public calls of the parts of a manifest and of covers that are no rows of a table: those are data of `c2_test_part_rows`.
#![tactic(auto)]

#[cfg(test)]
mod claims;
#[cfg(test)]
mod covers;
#[cfg(test)]
mod new_bmff_covers;
#[cfg(test)]
mod uris;
