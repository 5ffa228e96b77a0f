//! The types whose names differ from a call's by case alone.

pub use crate::root_boxes::Roots;
