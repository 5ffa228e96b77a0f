//! The definition file: a JSON object that says what a new manifest holds.
//!
//! What a file is read as stands in `specs/DefinitionFile.antt`, over the words for JSON of `specs/Json.antt`.
#![tactic(auto)]

mod assertions;
mod differing;
mod error;
mod fields;
mod keys;
mod labels;
mod laws;
mod members;
mod payloads;
mod reading;
mod types;

pub use error::DefinitionError;
pub use laws::{definitions_are_well_formed, each_definition_is_read_one_way};
pub use reading::read_definition;
pub use types::{
    Definition, DefinitionField, MAX_PROTECTED, MAX_RESERVE, MIN_RESERVE, NewAssertion,
    NewAssertions, Payload,
};
