// How a new store is put into a file.
use c2_shift::types::Tables;

/// How the box of a new store is put into a BMFF file without one, right after its first root box.
#[derive(Debug, Drop)]
pub struct Front {
    /// The chunk tables of the file.
    pub tables: Tables,

    /// Where the first root box ends, in bytes.
    pub place: u64,

    /// How many bytes the new store has.
    pub store_len: u64,

    /// How many bytes the file has.
    pub size: u64,
}
