//! External manifest stores: the store of a media file written to a file of its own, and a media file checked with a store
//! that is another file.
//!
//! What the first comes to stands in `specs/Extracting.antt`, and what its call has written in `specs/Extracts.antt`. What the second
//! comes to stands in `c2_validate`, module `External`, and what is asked of its two files in `specs/Checking.antt`.
#![tactic(auto)]

mod checking;
mod error;
mod extracting;
mod laws;

pub use c2_validate::External;
pub use checking::validate_external;
pub use error::{ExtractError, Extracted};
pub use extracting::extract;
pub use laws::each_file_is_extracted;
