//! What a call leaves of its sources and of its judges, put together from what the calls below it leave: lemmas on the records
//! `ReadsSource` of `c2_base` and `HearsPanel` of `c2_rules`, which the proofs of crates above cite.
#![tactic(auto)]
