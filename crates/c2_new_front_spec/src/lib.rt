//! What a BMFF file is that a new store is put into right after its file type box, in front of all others (C2PA Technical Specification
//! 2.x, "Embedding manifests into assets" and "BMFF-based hash"): the places in its chunk tables are moved.
//!
//! A store put in there is in the module `InFront`, the place as a split in `Splits`, the new file in `Fronts`, what it meets in `Meeting`, what is refused, in its order, in
//! `Order`, what a plan and a build come to over their inputs in `Outcomes`, and what such a file meets in `Made`.
#![tactic(auto)]

mod in_front;
mod laws;
mod outcomes;

pub use in_front::a_store_in_front_is_found;
pub use laws::{
    a_built_front_has_its_store, a_built_front_is_one, a_fresh_front_meets_the_rules,
    a_front_is_a_split, a_front_is_refused_or_built, a_front_is_refused_or_planned,
    bytes_of_a_built_front_stay, chunks_of_a_built_front_stay, the_covered_text_is_known_first,
};
pub use outcomes::{
    a_front_comes_to_one_thing, a_made_front_meets_the_rules, chunks_are_there_or_refused,
    each_front_comes_to_something, unrefused_fronts_are_made,
};
