// What names a box: the kinds of JUMBF's own boxes, and the types of C2PA's superboxes.

/// "jumb", the kind of a superbox (ISO/IEC 19566-5, annex A).
pub const JUMB: u32 = 0x6A756D62;

/// "jumd", the kind of a description box (ISO/IEC 19566-5, annex A).
pub const JUMD: u32 = 0x6A756D64;

/// The type of a manifest store (C2PA Technical Specification, "Use of JUMBF").
pub const STORE_TYPE: [u8; 16] = *b"c2pa\x00\x11\x00\x10\x80\x00\x00\xAA\x00\x38\x9B\x71";

/// The type of a standard manifest.
pub const MANIFEST_TYPE: [u8; 16] = *b"c2ma\x00\x11\x00\x10\x80\x00\x00\xAA\x00\x38\x9B\x71";

/// The type of an update manifest.
pub const UPDATE_TYPE: [u8; 16] = *b"c2um\x00\x11\x00\x10\x80\x00\x00\xAA\x00\x38\x9B\x71";

/// The type of a claim box.
pub const CLAIM_TYPE: [u8; 16] = *b"c2cl\x00\x11\x00\x10\x80\x00\x00\xAA\x00\x38\x9B\x71";

/// The type of a claim signature box.
pub const SIGNATURE_TYPE: [u8; 16] = *b"c2cs\x00\x11\x00\x10\x80\x00\x00\xAA\x00\x38\x9B\x71";

/// The type of an assertion store.
pub const ASSERTIONS_TYPE: [u8; 16] = *b"c2as\x00\x11\x00\x10\x80\x00\x00\xAA\x00\x38\x9B\x71";
