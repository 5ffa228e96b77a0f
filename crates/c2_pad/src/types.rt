//! The type of the answer of `fill`, and its limit.

/// The most bytes that a message is made longer by.
pub const MAX_FILL: u64 = 1_048_576;

/// How many zero bytes the entries of a filled header have. An entry without a number isn't there.
#[derive(Clone, Copy, Debug, PartialEq, Eq)]
pub struct Fill {
    /// The zero bytes of the entry `pad`.
    pub pad: Option<u32>,

    /// The zero bytes of the entry `pad2`.
    pub pad2: Option<u32>,
}
