//! Two media files that one active claim binds: whether their chain contents and their covered texts are equal, and the
//! evidence where they aren't.
//!
//! Here each file is opened once and checked, the second only where the first is accepted. What two accepted files come to is found
//! out by `c2_compare_opened`, over `c2_compare_difference`, `c2_compare_sameness` and `c2_compare_evidence`; what it is stands in `c2_compare_spec`.
#![tactic(auto)]

mod accepting;
mod comparing;

pub use c2_compare_evidence::CompareError;
pub use c2_compare_spec::{Compared, EvidenceKind, Side};
pub use comparing::compare;
