//! The boxes of a BMFF file (ISO/IEC 14496-12): their headers, the root boxes, the boxes inside one, the C2PA store in a root box, and the
//! box of a new store with its place.
//!
//! What a box, a list of root boxes, a store and a refusal are stands in `c2_spec`, modules `Bmff.Boxes` and `Bmff.Store`; what is written
//! stands in `Bmff.Writing`.
#![tactic(auto)]

mod child_boxes;
mod header;
mod laws;
mod placing;
mod provenance;
mod reading;
mod root_boxes;
mod row_lists;
pub mod types;
mod writing;

pub use c2_bmff_rows::RootBox;
pub use child_boxes::{boxes_between, children};
pub use header::{BoxHead, HeadError, head};
pub use laws::{
    a_bmff_file_comes_to_one_thing, a_file_has_one_list_of_roots, bmff_store_bytes_are_of_the_file,
    each_bmff_file_comes_to_something,
};
pub use placing::insert_place;
pub use provenance::locate;
pub use reading::roots;
pub use root_boxes::fill_first;
pub use row_lists::{roots_len, roots_of};
pub use writing::write_box;
