// Why a definition file isn't read.

use crate::types::DefinitionField;
use c2_base::NoMemory as OutOfMemory;

/// Why a definition file isn't read.
#[derive(Clone, Copy, Debug, PartialEq, Eq)]
pub enum DefinitionError {
    /// What is refused first.
    BadDefinition(DefinitionField),

    /// Out of memory.
    NoMemory,
}

impl From<OutOfMemory> for DefinitionError {
    ghost use Rattle.std.specs.Prelude.{◌≡◌};
    ghost use Rattle.c2_definition.specs.declared.error.DefinitionError.TheVariants.{NoMemory};

    ghost from_gives = { λ _ e. e ≡ NoMemory };

    fn from(_: OutOfMemory) -> DefinitionError {
        DefinitionError::NoMemory
    }
}
