//! Stores that are joined: tests of the public calls of `c2_collect`, which is proved once without them.
#![tactic(auto)]

#[cfg(test)]
mod joins;
#[cfg(test)]
mod less;
