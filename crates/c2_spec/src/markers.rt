// The bytes that name the markers of a JPEG file (ITU-T T.81, table B.1).

/// The byte before each marker, and the fill bytes before it (B.1.1.2).
pub const FILL: u8 = 0xFF;

/// For temporary private use in arithmetic coding; stands alone.
pub const TEM: u8 = 0x01;

/// The first restart marker; stands alone.
pub const RST0: u8 = 0xD0;

/// The last restart marker; stands alone.
pub const RST7: u8 = 0xD7;

/// Start of image.
pub const SOI: u8 = 0xD8;

/// End of image.
pub const EOI: u8 = 0xD9;

/// Start of scan.
pub const SOS: u8 = 0xDA;

/// The application segment that JFIF begins with.
pub const APP0: u8 = 0xE0;

/// The application segment that carries boxes in pieces (ISO/IEC 18477-3, annex B.2).
pub const APP11: u8 = 0xEB;

/// "JP", the common identifier of a box segment (ISO/IEC 18477-3, annex B.2).
pub const BOX_IDENTIFIER: u16 = 0x4A50;
