//! The types whose names differ from a call's by case alone.

pub use c2_bmff_boxes::types::Roots;
