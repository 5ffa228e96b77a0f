//! What reading CBOR means, head by head, for readers and writers of items; and the laws of spellings.
#![tactic(auto)]

mod fault;
mod head;
mod laws;

pub use fault::{Fault, ReadError};
pub use head::{Count, Head};
pub use laws::{
    each_list_is_an_item_or_not, no_proper_prefix, one_fault, one_item, plain_items_are_read_back,
    round_trip, sorted_pairs_rise, sorting_keeps_the_length,
};
