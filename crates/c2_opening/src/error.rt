// Why a media file was not judged.

/// Why a call has no answer about its media file.
#[derive(Clone, Copy, Debug, PartialEq, Eq)]
pub enum ValidateError {
    /// The source failed.
    ReadFault,

    /// A judge failed.
    JudgeFault,

    /// Memory ran out.
    NoMemory,
}
