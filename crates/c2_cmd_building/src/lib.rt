//! The commands that build: what each of them replies, over whatever sources, sinks and judges it is handed.
//!
//! What a command comes to stands in `specs/Outcomes.antt`.
#![tactic(auto)]

mod building;
mod laws;
mod sample;

pub use building::{reply_to_embed, reply_to_plan};
pub use laws::{each_building_outcome, one_building_outcome};
pub use sample::reply_to_sample;
