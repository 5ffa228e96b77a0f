//! What two accepted media files come to: their active claims are compared, then the lists of their chain contents, and then their covered
//! texts. Evidence is written; nothing else is.
//!
//! Both were opened and checked before, and nothing is opened here. What two files come to stands in `c2_compare_spec`.
#![tactic(auto)]

mod settling;
mod sides;
mod stores;

pub use sides::Sided;
pub use stores::compare_stores;
