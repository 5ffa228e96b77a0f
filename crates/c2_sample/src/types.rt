// What a sample comes to.

use c2_build_plain::BuildError;
use c2_rules::Answer;

/// How many bytes the files have.
#[derive(Clone, Copy, Debug, PartialEq, Eq)]
pub struct Lengths {
    /// The media.
    pub media: u64,

    /// The new file.
    pub file: u64,

    /// The store of the new file.
    pub store: u64,
}

/// What a sample comes to.
#[derive(Debug, Drop)]
pub enum Sampled {
    /// The new file has these lengths, and the check answers this.
    Checked(Lengths, Answer),

    /// Nothing is built.
    Refused(BuildError),
}

/// Why a sample comes to nothing. No source and no sink can fail: all are in memory.
#[derive(Clone, Copy, Debug, PartialEq, Eq)]
pub enum SampleError {
    /// A judge failed.
    JudgeFault,

    /// Memory ran out.
    NoMemory,
}

impl From<c2_base::NoMemory> for SampleError {
    ghost use Rattle.std.specs.Prelude.{◌≡◌};
    ghost use Rattle.c2_sample.specs.declared.types.SampleError.TheVariants.{NoMemory};

    ghost from_gives = { λ _ e. e ≡ NoMemory };

    fn from(_: c2_base::NoMemory) -> SampleError {
        SampleError::NoMemory
    }
}
