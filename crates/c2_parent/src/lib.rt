//! What a new manifest needs of an older store: which of its redactions is refused first, the boxes that are carried, and the
//! parent.
//!
//! What they are stands in `c2_new_file_spec`.
#![tactic(auto)]

mod both;
mod boxes;
mod carried;
mod manifests;
mod named;
mod parent;
mod refused;
mod targets;
mod unsigned;

pub use both::{has_joined_manifest, has_reached_manifest, refused_in_both, refused_in_carried};
pub use carried::{
    Redactions, append_carried, append_less, carried_boxes, carried_len, redactions_of,
};
pub use parent::{ParentDigests, parent_digests};
pub use refused::{has_manifest, refused_redaction, refused_without_store};
