// Why two stores aren't joined.

use c2_base::NoMemory as OutOfMemory;
use thiserror::Error;

/// Why two stores aren't joined.
#[derive(Clone, Copy, Debug, PartialEq, Eq, Error)]
pub enum JoinError {
    /// The stores clash at the manifest at this place of the other store, and at none before it.
    #[error("manifest {0} has the label of another manifest")]
    LabelClash(usize),

    /// Out of memory.
    #[error("memory ran out")]
    NoMemory,
}

impl From<OutOfMemory> for JoinError {
    ghost use Rattle.std.specs.Prelude.{◌≡◌};
    ghost use Rattle.c2_collect.specs.declared.error.JoinError.TheVariants.{NoMemory};

    ghost from_gives = { λ _ e. e ≡ NoMemory };

    fn from(_: OutOfMemory) -> JoinError {
        JoinError::NoMemory
    }
}
