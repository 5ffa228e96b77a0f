//! Which signed messages may be put into a new store, and the message that fills just what is reserved for it.
//!
//! Which messages are taken stands in `specs/Message.antt`; what fills a reserve, in `specs/Signed.antt`; what each refusal says,
//! in `specs/Refusals.antt`.
#![tactic(auto)]

mod error;
mod laws;
mod padding;
mod reading;

pub use error::{MessageError, SignaturePart};
pub use laws::{
    a_message_fills_its_reserve_or_needs_more, accepted_messages_can_be_padded,
    each_message_is_accepted_or_refused_for_one_test,
};
pub use padding::{bare_len, padded_message};
pub use reading::read_message;
