//! A collected ingredient: the boxes of two stores joined, and a new store over them (C2PA Technical Specification 2.x, "Ingredient").
//!
//! Which boxes are joined, and where two stores clash, stands in `Sides`; what is asked of each store in `Stores`; which redactions
//! are refused in `Refusals`; what goes into the new store, and what it meets, in `Collected`; what its file meets in `Files`; what
//! is refused of a build, over both files and in its order, in `Order`; how long the new store is in `Lengths`; what the file of both
//! meets as a whole in `Whole`; what a plan and a build come to over their inputs in `Outcomes`, and what they ask of their judges in
//! `Asked`; and what such a file meets, and when there is one, in `Made`.
#![tactic(auto)]

mod laws;
mod outcomes;

pub use laws::{
    a_collected_file_is_refused_or_built, a_collected_file_meets_the_rules,
    a_collected_store_meets_the_rules, an_accepted_file_can_be_collected,
    each_collected_file_meets_the_rules, redactions_of_a_chain_may_be_made, some_file_is_collected,
    stores_join, the_length_of_a_collected_store_fits, two_files_are_refused_or_collected,
    what_is_collected_is_one, what_is_joined_is_reached,
};
pub use outcomes::{
    a_collected_build_asks_one_list, a_collected_build_comes_to_one_thing,
    a_collected_file_is_made, a_made_collected_file_meets_the_rules,
    each_collected_build_asks_a_list, each_collected_build_comes_to_something,
    some_collected_build_succeeds, unrefused_inputs_are_collected,
};
