// What the extraction of a store answers, and its errors.

use c2_spec::Reason;
use thiserror::Error;

/// What a file comes to whose store is to be extracted.
#[derive(Clone, Copy, Debug, PartialEq, Eq)]
pub enum Extracted {
    /// The file's store has so many bytes, all of which were written.
    Done(u64),

    /// The file has no store.
    NoStore,

    /// The first of the container's tests that fails: its reason, and the number that belongs to it.
    Refused(Reason, u64),
}

/// Why a store wasn't extracted.
#[derive(Clone, Copy, Debug, PartialEq, Eq, Error)]
pub enum ExtractError {
    /// The source failed.
    #[error("the source failed")]
    ReadFault,

    /// The sink failed.
    #[error("the sink failed")]
    WriteFault,

    /// Memory ran out.
    #[error("memory ran out")]
    NoMemory,
}
