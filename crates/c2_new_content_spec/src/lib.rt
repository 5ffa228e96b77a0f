//! What goes into a new store, and what the file meets whose store has it: definitions and laws (C2PA Technical Specification 2.x,
//! "Ingredient" and "Embedding manifests into assets").
//!
//! A content may take over a chain that is seen from roots: the last manifest of an older store, those of two joined stores, or none; its
//! manifest has an ingredient for each (`Taken`), and what its store meets stands in `Gathered`. Over a file with a store its rules hold
//! apart from the verdict on the new message and the one on its binding, and it asks the new question and then those of the older store
//! (`Over`); that is said of the store alone, whichever its binding is.
//!
//! A place is a split of the segments of a JPEG file or of the root boxes of a BMFF file (`Splits`), of which the places of a media file
//! are cases (`Instances`). What the file holds that a store is put into there stands in `Holding`; what it meets in `Meeting`, and in
//! `Contents` by what goes into the store; that it is one file in `Built`; which bytes it keeps in `Kept`; what is refused in `Refusals`.
#![tactic(auto)]

mod content;
mod in_place;
mod over;
mod split;

pub use content::a_gathered_store_meets_the_rules;
pub use in_place::{a_base_stays, a_file_built_in_its_place_meets_the_rules, a_place_is_a_split};
pub use over::{a_succeeding_store_meets_the_rules, a_valid_store_is_approved};
pub use split::{
    a_content_meets_the_rules, a_file_at_a_split_keeps_its_bytes,
    a_file_at_a_split_meets_the_rules, a_file_built_at_a_split_is_one,
    a_new_store_has_one_length_at_its_split, a_split_is_refused_or_built, a_store_is_at_its_split,
    the_covered_text_depends_on_a_length, the_file_of_a_content_meets_the_rules,
};
