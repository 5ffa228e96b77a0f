//! What is built into a media file with a new store that collects from another file: the last manifest of the other file becomes an ingredient of the
//! new one, and what that reaches is carried.
//!
//! What each call comes to stands in `c2_collect_spec`, module `Outcomes`, what a new file meets in its module `Made`, and the error of each refusal in
//! `c2_build_collect_base`, module `Errors`.
#![tactic(auto)]

mod asking;
mod drafting;
mod embedding;
mod filling;
mod planning;
mod ready;

pub use asking::{a_collected_build_asks_one_list, each_collected_build_asks_a_list};
pub use embedding::embed_collect;
pub use planning::plan_collect;
