//! How long a new store can be: a bound that follows from how long a definition file may be, and how long the one older store or the two
//! that it takes over (C2PA Technical Specification 2.x, "Manifest store").
//!
//! What is short, and how long a store of that is, stands in the module `Lengths`.
#![tactic(auto)]

mod laws;

pub use laws::{a_definition_is_short, a_new_store_is_short, the_length_of_a_new_store_fits};
