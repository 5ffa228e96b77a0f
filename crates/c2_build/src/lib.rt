//! What is built into a media file: a new store, from a definition file and a signed message (C2PA Technical Specification 2.x, "Embedding
//! manifests into assets").
//!
//! [`plan`] and [`embed`] put the store in its place, [`plan_front`] and [`embed_front`] at the front of a BMFF file, and [`plan_collect`] and
//! [`embed_collect`] put in a store that collects from another file. Each stands in a crate of its own, with what it promises; this one hands
//! them on, with the types that they answer and the reading of a definition file.
#![tactic(auto)]

pub use c2_build_collect::{embed_collect, plan_collect};
pub use c2_build_front::{embed_front, plan_front};
pub use c2_build_plain::{embed, plan};
pub use c2_build_refusals::{BuildError, Embedded, the_first_refusal_is_the_least};
pub use c2_definition::{Definition, DefinitionField, NewAssertion, read_definition};
pub use c2_new_signature::SignaturePart;
