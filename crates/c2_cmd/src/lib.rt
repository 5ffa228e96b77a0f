//! The commands of `c2`, over whatever sources and sinks they are handed.
//!
//! The outcome of a run stands in `specs/Outcome.antt`, what `run` promises of it in `specs/Run.antt`, and what `run` leaves of each object
//! in `specs/Left.antt`.
#![tactic(auto)]

mod laws;
mod run_command;
pub mod types;

pub use c2_usage::roles;
pub use laws::{a_run_that_nothing_fails_answers, each_run_has_an_outcome, one_outcome};
pub use run_command::run;
