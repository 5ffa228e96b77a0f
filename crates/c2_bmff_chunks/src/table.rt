// Chunk tables and their fields, and what stands in the way of moving what they point to.
use c2_base::{Failed, NoMemory};
use std::alloc::AllocFailed;
use thiserror::Error;

/// The fields of a chunk table, which hold places in the file.
#[derive(Clone, Copy, Debug, PartialEq, Eq)]
pub struct ChunkTable {
    /// The place in the file where the first field begins, in bytes.
    pub first: u64,
    /// How many fields there are, one after the other.
    pub count: u32,
    /// A field has 8 bytes, and not 4.
    pub wide: bool,
}

/// A field of a chunk table, which holds a place in the file.
#[derive(Clone, Copy, Debug, PartialEq, Eq)]
pub struct Field {
    /// The place in the file where it begins, in bytes.
    pub at: u64,
    /// Whether the field has 8 bytes, and not 4.
    pub wide: bool,
}

/// Why the media data of a BMFF file isn't moved. A place is one in the file, in bytes.
#[derive(Clone, Copy, Debug, PartialEq, Eq, Error)]
pub enum ShiftError {
    /// The box there holds offsets that aren't known.
    #[error("the box at {0} holds other offsets")]
    OffsetTable(u64),

    /// No list of boxes fills the box there, which stands on the path to chunk tables.
    #[error("the box at {0} isn't filled by boxes")]
    BadTree(u64),

    /// The chunk table there hasn't its form.
    #[error("the chunk table at {0} hasn't its form")]
    BadTable(u64),

    /// The moved place doesn't fit into the field there.
    #[error("the place in the field at {0} is too large when it is moved")]
    Overflow(u64),

    /// The source failed.
    #[error("the source failed")]
    ReadFault,

    /// Memory ran out.
    #[error("memory ran out")]
    NoMemory,
}

impl From<Failed> for ShiftError {
    ghost use Rattle.std.specs.Prelude.{◌≡◌};
    ghost use Rattle.c2_bmff_chunks.specs.declared.table.ShiftError.TheVariants as error;

    ghost from_gives = { λ _ e. e ≡ error.ReadFault };

    fn from(_error: Failed) -> ShiftError {
        ShiftError::ReadFault
    }
}

impl From<NoMemory> for ShiftError {
    ghost use Rattle.std.specs.Prelude.{◌≡◌};
    ghost use Rattle.c2_bmff_chunks.specs.declared.table.ShiftError.TheVariants as error;

    ghost from_gives = { λ _ e. e ≡ error.NoMemory };

    fn from(_error: NoMemory) -> ShiftError {
        ShiftError::NoMemory
    }
}

impl<T: Drop> From<AllocFailed<T>> for ShiftError {
    ghost use Rattle.std.specs.Prelude.{◌≡◌};
    ghost use Rattle.c2_bmff_chunks.specs.declared.table.ShiftError.TheVariants as error;

    ghost from_gives = { λ _ e. e ≡ error.NoMemory };

    fn from(_failed: AllocFailed<T>) -> ShiftError {
        ShiftError::NoMemory
    }
}
