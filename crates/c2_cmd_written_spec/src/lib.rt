//! What a command replies that writes a new file, and what it leaves of that file, by how the call below it ended: lemmas on the records
//! `MakesFile` and `EndsFile` of `c2_cmd_outcome`, which the proofs of such commands cite.
//!
//! An outcome with a new file is defined in `specs/Written.antt`.
#![tactic(auto)]
