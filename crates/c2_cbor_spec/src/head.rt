//! What the head of an item says.

/// How many items or pairs follow: so many, or those up to a break.
#[derive(Clone, Copy, Debug)]
pub enum Count {
    Left(u64),
    Open,
}

/// What an item's head says.
#[derive(Clone, Copy, Debug)]
pub enum Head {
    Uint(u64),
    Nint(u64),
    Bytes(u64),
    ByteChunks,
    Text(u64),
    TextChunks,
    List(Count),
    Map(Count),
    Tag(u64),
    Simple(u8),
    Half(u16),
    Single(u32),
    Double(u64),
}
