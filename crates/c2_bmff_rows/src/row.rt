// What is kept of a box.

/// A box of a BMFF file, by its place and its header.
#[derive(Clone, Copy, Debug, PartialEq, Eq)]
pub struct RootBox {
    /// The place in the file where the box begins, in bytes.
    pub start: u64,
    /// The box's length in bytes, with its header.
    pub length: u64,
    /// The header's length in bytes.
    pub header: u64,
    /// The box's type.
    pub kind: [u8; 4],
    /// The box states no size and runs to the end of the file.
    pub to_end: bool,
}
