//! Worked rows of chains: tests of the public calls of `c2_chain`, which is proved once without them.
#![tactic(auto)]

#[cfg(test)]
mod chains;
