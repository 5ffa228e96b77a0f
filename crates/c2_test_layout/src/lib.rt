//! Worked assertions, as they are written: tests of the public calls of `c2_layout`, which is proved once without them. A whole store is
//! compared by the rows of builds.
#![tactic(auto)]

#[cfg(test)]
mod assertions;
