//! Worked definition files: tests of the public call of `c2_definition`, which is proved once without them.
#![tactic(auto)]

#[cfg(test)]
mod definitions;
