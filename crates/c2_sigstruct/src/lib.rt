//! COSE_Sign1 messages: reading one, the question that a judge is asked of it (RFC 9052, sections 4.2 and 4.4), and writing one
//! with padding.
//!
//! What a message and its question are stands in `c2_spec`, module `C2pa.Sign1`; what is written, in `C2pa.Message`.
#![tactic(auto)]

mod asking;
mod laws;
mod message;
mod read;
mod tagged;
mod writing;

pub use asking::question;
pub use c2_spec::{Sign1, SignError};
pub use laws::{each_item_is_a_message_or_not, padded_messages_are_read};
pub use read::read_sign1;
pub use tagged::is_plain;
pub use writing::write_sign1;
