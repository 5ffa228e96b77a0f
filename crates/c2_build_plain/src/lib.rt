//! What is built into a media file, in its place: a new store, from a definition file and a signed message.
//!
//! What each call comes to stands in `specs/Building.antt`, what is refused in `c2_build_refusals`, module `Refusals`, what a new file meets
//! in `specs/Meeting.antt`, and that it is the media again without its new store in `specs/Restored.antt`. The calls that put the store at
//! the front of a BMFF file are those of `c2_build_front`, those whose store collects from another file those of `c2_build_collect`, and all
//! of them are those of `c2_build`.
#![tactic(auto)]

mod asking;
mod draft;
mod embedding;
mod laws;
mod planning;
mod ready;
mod restored;

pub use asking::{a_build_asks_one_list, each_build_asks_a_list};
pub use c2_build_refusals::{BuildError, Embedded};
pub use embedding::embed;
pub use laws::{
    a_build_comes_to_one_thing, a_new_file_meets_the_rules, approval_of_each_question_is_enough,
    each_build_comes_to_something, some_bmff_succeeds, some_build_over_a_store_succeeds,
    some_build_succeeds, unrefused_inputs_are_built,
};
pub use planning::plan;
pub use restored::a_built_file_is_restored;
