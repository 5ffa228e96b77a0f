//! The boxes of a BMFF file (ISO/IEC 14496-12), the C2PA store in one of them, and the positions that a BMFF hash excludes.
//!
//! Here is the walk over boxes for all exclusions at once. What is read and written of boxes is handed on from `c2_bmff_boxes`, paths and
//! exclusions from `c2_bmff_paths`. What they are stands in `c2_spec`, modules `Bmff.Boxes`, `Bmff.Store`, `Bmff.Paths` and `Bmff.Hash`.
#![tactic(auto)]

mod fronts;
mod laws;
mod matching;
pub mod types;
mod walking;

pub use c2_bmff_boxes::{
    BoxHead, HeadError, RootBox, a_bmff_file_comes_to_one_thing, a_file_has_one_list_of_roots,
    bmff_store_bytes_are_of_the_file, each_bmff_file_comes_to_something, head, insert_place,
    locate, roots, write_box,
};

// The boxes between two places are the children of a box, where the places are its header's end and its own.
pub use c2_bmff_boxes::boxes_between as children;
pub use c2_bmff_paths::{ByteTests, Exclusion, Exclusions, Path, Segment, read_path};
pub use laws::a_test_decides_what_is_excluded;
pub use matching::{match_path, match_paths};
