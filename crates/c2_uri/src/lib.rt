//! URIs of boxes, and base labels (C2PA Technical Specification 2.x).
//!
//! What a text spells stands in `C2pa.Uri` of c2_spec. Reading and the text of a URI are inverse, as laws; which URIs can be
//! written stands in `specs/Writing.antt`.
#![tactic(auto)]

mod labels;
mod laws;
mod parsing;
mod writing;

pub use c2_spec::{Target, Uri};
pub use labels::base_label;
pub use laws::{read_uris_are_spelled, written_uris_are_read};
pub use parsing::parse;
pub use writing::text;
