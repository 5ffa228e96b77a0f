// How a store is written into the packets of a JPEG file (ISO/IEC 18477-3, annex B.2).

/// The most bytes of a store's payload that go into one packet: 64,000 after the segment's length field, less the 16 of
/// identifier, number, place and box header.
pub const PACKET_BODY_LEN: u64 = 63984;

/// How many bytes a packet has beside its body: marker, length, identifier, number, place and box header.
pub const PACKET_FRAME_LEN: u64 = 20;

/// The header that each packet of a store repeats: a 4-byte length and a type.
pub const PACKET_HEADER_LEN: u64 = 8;

/// The fewest bytes that a store has: its header and its description.
pub const LEAST_STORE_LEN: u64 = 38;

/// The least box instance number that is given to a store.
pub const LEAST_NUMBER: u16 = 0x0211;
