//! Tests of how often `validate`, `compare` and `embed` read each byte of a file in memory.
#![tactic(auto)]

#[cfg(test)]
mod builds;
#[cfg(test)]
mod comparisons;
#[cfg(test)]
mod counted;
#[cfg(test)]
mod files;
#[cfg(test)]
mod judges;
#[cfg(test)]
mod reads;
