//! Judges of signatures: what a judge means, a panel of them, and judges by a verdict file.
//!
//! A question's bytes, what a panel says and how a verdict file is spelled stand in `c2_spec`, modules `Judges.Question`,
//! `Judges.Panel` and `Judges.VerdictFile`. The library takes boxed judges from its caller; it makes none.
#![tactic(auto)]

mod file;
mod fixed;
mod judge;
mod laws;
mod listed;
mod panel;
mod question;
mod rows;

pub use c2_spec::{ListError, Verdict};
pub use fixed::{BrokenJudge, FixedJudge};
pub use judge::{Judge, JudgeFailed};
pub use laws::each_file_is_read_one_way;
pub use listed::ListJudge;
pub use panel::ask_panel;
pub use question::{question_id, update_question};
