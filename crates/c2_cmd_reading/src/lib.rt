//! The commands that read media files and neither build nor write any: what each of them replies, over whatever sources, sinks and judges it
//! is handed.
//!
//! What a command comes to stands in `specs/Outcomes.antt`.
#![tactic(auto)]

mod compare;
mod digest;
mod external;
mod laws;
mod list;
mod open;
mod outside;
mod prepare;
mod questions;
mod show;
mod validate;

pub use compare::reply_to_compare;
pub use digest::reply_to_digest;
pub use external::reply_to_validate_external;
pub use laws::{each_reading_outcome, one_reading_outcome};
pub use list::reply_to_list;
pub use questions::reply_to_questions;
pub use show::reply_to_show;
pub use validate::reply_to_validate;
