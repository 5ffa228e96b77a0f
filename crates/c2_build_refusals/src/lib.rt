//! Why nothing is built into a media file: the errors of a build, the tests in their order, the stages that inputs pass, and the reading
//! of the definition file and of the signed message; what is signed, and a message in its reserve; and what the steps of a build hand on to
//! each other.
//!
//! What an error says and where its cause lies stands in `specs/Kinds.antt`, what is tested in `specs/Refusals.antt`, what inputs come to in
//! `specs/Stages.antt`, and what an answer leaves of a sink in `specs/Sinks.antt`.
#![tactic(auto)]

mod error;
mod laws;
mod reading;
mod signing;
mod texts;
mod types;

pub use error::{BuildError, fault, media_error};
pub use laws::the_first_refusal_is_the_least;
pub use reading::{read_definition_file, read_message_file};
pub use signing::{padded, signed_over};
pub use types::{BuildBase, Draft, Drafted, Embedded, InsertPoint, Put};
