//! Claims, read from the bytes of a claim box, and the bytes of one that is made of its parts (C2PA Technical Specification 2.x).
//!
//! What a claim is stands in `Claim` and `Fields` of c2_spec, what is written of one in `Written`.
#![tactic(auto)]

mod last_fields;
mod laws;
mod reading;
mod redactions;
mod version_1;
mod version_2;
mod versions;
mod writing;

pub use c2_spec::{Claim, ClaimError, ClaimField, ClaimVersion};
pub use laws::a_claim_has_one_version;
pub use reading::read;
pub use versions::claim_version;
pub use writing::{ClaimParts, a_written_claim_is_read, write};
