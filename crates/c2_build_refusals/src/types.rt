// What the steps of a build hand on to each other, and what a build answers.

use c2_bmff_boxes::types::Roots;
use c2_layout::Carried;
use c2_without_store::Clearing;

/// What a new file is built over, as it is kept.
#[derive(Debug, Drop)]
pub struct BuildBase {
    /// How the media file is cleared of its older store.
    pub clearing: Clearing,

    /// What is taken over of older stores.
    pub carried: Carried,

    /// How many manifests the new store has.
    pub manifests: u64,
}

/// A place for a new store, as it was found in a file without one.
#[derive(Debug, Drop)]
pub enum InsertPoint {
    /// In a JPEG file.
    Segments {
        /// The place of the first byte of the packets.
        start: u64,

        /// The number of the packets, the least that is free, where one is.
        number: Option<u16>,
    },

    /// Behind these root boxes of a BMFF file, or before a last `mfra`.
    Boxes(Roots),
}

/// What is put in of a new store.
#[derive(Clone, Copy, Debug, PartialEq, Eq)]
pub enum Put {
    /// The packets of the store, under this number.
    Packets(u16),

    /// The box of the store.
    Box,
}

/// The numbers of what is to be built.
#[derive(Clone, Copy, Debug)]
pub struct Draft {
    /// The place of the first byte that is put in.
    pub start: u64,

    /// How many bytes are put in.
    pub length: u64,

    /// How many bytes the new file has beside them.
    pub size: u64,

    /// What is put in.
    pub put: Put,
}

/// What is to be built, and over what.
#[derive(Debug, Drop)]
pub struct Drafted {
    /// What the new file is built over.
    pub ground: BuildBase,

    /// The place in what the new file is built over.
    pub point: InsertPoint,

    /// The numbers of the new file.
    pub draft: Draft,
}

/// The range of what is put into a new file of its new store: of the packets in a JPEG file, and of the box in a BMFF file.
#[derive(Clone, Copy, Debug, PartialEq, Eq)]
pub struct Embedded {
    /// The place of its first byte.
    pub start: u64,

    /// How many bytes it takes.
    pub length: u64,
}
