// What a file without its store comes to, and why it comes to nothing.
use c2_base::{MediaError, Range};
use thiserror::Error;

/// What a file comes to without its store.
#[derive(Clone, Copy, Debug, PartialEq, Eq)]
pub enum Stripped {
    /// This range of the file was left out.
    Done(Range),

    /// The file has no store.
    NoStore,

    /// The first of the container's tests that fails.
    Refused(MediaError),

    /// The box of a BMFF file's store begins at this place, and more than a last `mfra` follows it.
    Middle(u64),
}

/// Why it comes to nothing.
#[derive(Clone, Copy, Debug, PartialEq, Eq, Error)]
pub enum StripError {
    /// The source failed.
    #[error("the source failed")]
    ReadFault,

    /// The sink failed.
    #[error("the sink failed")]
    WriteFault,

    /// Memory ran out.
    #[error("memory ran out")]
    NoMemory,
}
