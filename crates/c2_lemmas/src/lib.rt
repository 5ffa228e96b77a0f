//! Stages one after the other; and lemmas on these, on tests, options, lists and answers, which are cited by the proofs of the other
//! crates: each stands here once.
//! The crate has no code.
#![tactic(auto)]
