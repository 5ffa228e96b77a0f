//! Fields of a CBOR map, each read in the form that it must have.
//!
//! The forms stand in `Cbor.Fields` of c2_spec. A null field counts as absent, which is this project's own choice; what isn't a
//! map has no fields. Calls that copy fail where memory runs out, and for no other reason.
#![tactic(auto)]

mod lists;
mod lookup;
mod single;

pub use lists::{optional_references, optional_texts, references};
pub use lookup::{field, is_key, read_ref};
pub use single::{byte_string, is_map, number, optional_reference, optional_text, text};
