//! What is drafted of a new file whose store stands in its place, over a ground that is known: the place and the numbers of the file, what is
//! to be signed of it, and what is ready to be written.
//!
//! What that stands for is told in `specs/Drafts.antt`.
#![tactic(auto)]

mod drafting;
mod numbers;
mod ready;
mod signing;

pub use drafting::draft_in_place;
pub use ready::{DraftedBuild, make_ready};
pub use signing::signed_draft;
