//! The commands `plan-front` and `embed-front`: what they reply and write, over whatever sources and sink they are handed. They ask no
//! judges.
//!
//! What they come to stands in `specs/Outcomes.antt`, and what a new file meets in `specs/Writing.antt`.
#![tactic(auto)]

mod embedding;
mod laws;
mod planning;

pub use embedding::reply_to_embed_front;
pub use laws::{each_front_outcome, one_front_outcome};
pub use planning::reply_to_plan_front;
