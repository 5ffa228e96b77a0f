//! What binds a worked film: tests of the public calls of `c2_bmff_binding_hash` and `c2_bmff_binding`, which are proved once without them.
#![tactic(auto)]

#[cfg(test)]
mod films;
