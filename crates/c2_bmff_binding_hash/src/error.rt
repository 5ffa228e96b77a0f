// Why a BMFF file has no digest.
ghost use Rattle.c2_bmff_binding_hash.specs.Causes.{IsOfBoxes, IsSameError};

use c2_base::{Failed, NoMemory};
use c2_cover::CoverError;
use thiserror::Error;

/// Why a BMFF file has no digest.
#[derive(Clone, Copy, Debug, PartialEq, Eq, Error)]
pub enum BmffError {
    /// The source failed.
    #[error("the source failed")]
    ReadFault,

    /// Memory ran out.
    #[error("memory ran out")]
    NoMemory,
}

// The error of a cover as one of a BMFF hash. It is none of the cover's ranges: those of boxes lie in their file.
pub(crate) fn bmff_error(error: CoverError) -> BmffError
    requires { IsOfBoxes error }
    ensures { IsSameError error result }
{
    match error {
        CoverError::ReadFault => BmffError::ReadFault,
        CoverError::NoMemory => BmffError::NoMemory,
        CoverError::BadRange(_) => unreachable!(),
    }
}

impl From<Failed> for BmffError {
    ghost use Rattle.std.specs.Prelude.{◌≡◌};
    ghost use Rattle.c2_bmff_binding_hash.specs.declared.error.BmffError.TheVariants.{ReadFault};

    ghost from_gives = { λ _ e. e ≡ ReadFault };

    fn from(_error: Failed) -> BmffError {
        BmffError::ReadFault
    }
}

impl From<NoMemory> for BmffError {
    ghost use Rattle.std.specs.Prelude.{◌≡◌};
    ghost use Rattle.c2_bmff_binding_hash.specs.declared.error.BmffError.TheVariants as error;

    ghost from_gives = { λ _ e. e ≡ error.NoMemory };

    fn from(_error: NoMemory) -> BmffError {
        BmffError::NoMemory
    }
}
