//! The manifest store of a media file, whatever its container, and the whole check of such a file.
//!
//! Here is the check, of a store that was opened and of a file, and what is counted of a valid one. How a file is opened is handed on
//! from `c2_opening`, and what its binding covers from `c2_hard_binding`. What the check answers stands in `c2_rules`, and how the
//! answers here are seen so in `specs/Checked.antt` and `specs/Validation.antt`.
#![tactic(auto)]

mod chain;
mod checking;
mod counting;
mod external;
mod laws;
pub mod types;

pub use c2_container::each_media_file_is_located;
pub use c2_hard_binding::BoundText;
pub use c2_opening::{
    Container, Media, Opened, ValidateError, find_store, one_opening, read_store,
};
pub use c2_rules::{Answer, Summary};
pub use checking::{Checked, OpenedStore, check, validate};
pub use external::{External, check_external, check_with};
pub use laws::{
    a_file_and_its_own_store_have_the_answer_of_the_file, a_file_answers_by_what_it_is_opened_as,
    a_file_is_opened_as_it_was_read, a_store_answers_for_its_file, each_file_has_a_check,
    each_file_has_an_external_check, one_check, one_external_check,
};
