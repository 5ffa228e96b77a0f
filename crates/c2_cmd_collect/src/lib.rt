//! The commands `plan-collect` and `embed-collect`: what they reply and write, over whatever sources, sink and judges they are handed.
//!
//! What they come to stands in `specs/Outcomes.antt`, what a new file meets in `specs/Writing.antt`, and what holds of all of
//! their outcomes and questions in `specs/Laws.antt`.
#![tactic(auto)]

mod embedding;
mod laws;
mod planning;

pub use embedding::reply_to_embed_collect;
pub use laws::{each_collect_outcome, one_collect_outcome};
pub use planning::reply_to_plan_collect;
