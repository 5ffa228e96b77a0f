// The media: comment segments between SOI and EOI.
ghost use Rattle.std.specs.Prelude.{◌≡◌, ◌≤◌, ◌++◌, IfOk, OnOk};
ghost use Rattle.c2_sample.specs.Sample.{piece, piece_byte, sample_media};

use c2_base::{Blob, NoMemory};
use std::alloc::{AllocError, Global};

/// How many bytes a piece has behind its marker and its length.
pub const PIECE_BYTES: u64 = 1000;

/// A JPEG file of so many comment segments and no picture (ITU-T T.81, section B.2.4.5).
pub fn sample_media(alloc: Global, count: u32) -> Result<Blob, NoMemory>
    ensures { IfOk result (λ media. media ≡ sample_media count) }
{
    let mut bytes = Vec::from_slice(alloc, &[0xFF, 0xD8])?;
    for i in 0..count {
        push_piece(&mut bytes, i)?;
    }
    bytes.extend_from_slice(&[0xFF, 0xD9])?;
    Ok(Blob::from_vec(bytes))
}

// Appends the piece at place `i`.
fn push_piece(bytes: &mut Vec<u8>, i: u32) -> Result<(), AllocError>
    ensures { OnOk result (bytes.new.items ≡ bytes.old.items ++ piece i) }
{
    bytes.extend_from_slice(&[0xFF, 0xFE, 0x03, 0xEA])?;
    for j in 0..PIECE_BYTES {
        bytes.push(piece_byte(i, j))?;
    }
    Ok(())
}

// The byte at place `j` of the piece at place `i`.
fn piece_byte(i: u32, j: u64) -> u8
    requires { j ≤ PIECE_BYTES }
    ensures { result ≡ piece_byte i j }
{
    ((31 * u64::from(i) + 7 * j) % 256) as u8
}
