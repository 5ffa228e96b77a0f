//! The head of a CBOR item, its strings, whole and in chunks, and the keys of a map: their bytes, the order of these, and the first key
//! that equals one before it.
#![tactic(auto)]

mod head;
mod key_order;
mod preferred;
mod repeats;
mod strings;

pub use head::read_head;
pub use key_order::sorted_keys;
pub use preferred::{push_head, push_preferred};
pub use repeats::{first_equal, least_repeated};
pub use strings::{byte_chunk, bytes_of, text_chunk, text_of};
