// Bytes as hex, for the tables.
use std::alloc::{AllocError, Global};

fn digit(c: u8) -> u8 {
    if c >= b'a' {
        c.saturating_sub(b'a').saturating_add(10)
    } else {
        c.saturating_sub(b'0')
    }
}

/// The bytes that lower case hex spells.
pub fn unhex(alloc: Global, hex: &str) -> Result<Vec<u8>, AllocError> {
    let mut bytes = Vec::new(alloc);
    for pair in hex.as_bytes().chunks_exact(2) {
        bytes.push(digit(pair[0]).wrapping_mul(16) | digit(pair[1]))?;
    }
    Ok(bytes)
}

/// Appends bytes as hex.
pub fn show_hex(out: &mut String, bytes: &[u8]) -> Result<(), AllocError> {
    for byte in bytes {
        write!(out, "{byte:02x}")?;
    }
    Ok(())
}
