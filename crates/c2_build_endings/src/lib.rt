//! How a call ended that writes a new file, by the error that it ends with: whether it says that it wrote the file, left the sink as it
//! was, or was broken off.
//!
//! The endings of a call that writes stand in `c2_copying`, module `Writing`, and that of a build in `specs/Endings.antt`. What a build leaves of its
//! sources stands in `specs/Sources.antt`.
#![tactic(auto)]
