//! The lines of reports, as texts in memory.
//!
//! What each line is stands in `specs/`: `Texts` for the plain lines, `Builds` for those on what is built, `Stores` for that on an
//! external store, `Show` for the JSON of `show`. An error means that memory ran out.
#![tactic(auto)]

mod builds;
mod claims;
mod control;
mod json;
mod lines;
mod manifests;
mod names;
mod show;
mod stores;
mod tree;

pub use builds::{
    bad_definition_line, bad_signature_line, bad_table_line, bad_tree_line, embedded_line,
    has_store_line, label_clash_line, label_taken_line, media_refused_line, no_instance_line,
    not_bmff_line, offset_table_line, open_box_line, other_refused_line, overflow_line,
    parent_fails_line, redaction_refused_line, reserve_too_small_line, store_too_large_line,
    tbs_line, too_many_manifests_line,
};
pub use lines::{
    different_line, digest_line, failing_line, no_question_line, none_line, not_accepted_line,
    question_line, refused_line, same_line, usage_line, valid_line,
};
pub use names::code_name;
pub use show::show_line;
pub use stores::store_refused_line;
pub use tree::listing;
