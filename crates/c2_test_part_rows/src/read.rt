// Bytes as hex.
use c2_test_tables::Trouble;
use std::alloc::Global;

/// The bytes of hex, in which `COUNT*PIECE` between spaces stands for a piece that comes so many times.
pub fn bytes_of(alloc: Global, digits: &str) -> Result<Vec<u8>, Trouble> {
    let mut bytes = Vec::new(alloc);
    for word in digits.split(' ') {
        push_word(alloc, &mut bytes, word)?;
    }
    Ok(bytes)
}

// Appends the bytes of a word.
fn push_word(alloc: Global, bytes: &mut Vec<u8>, word: &str) -> Result<(), Trouble> {
    let (count, piece) = word.split_once('*').unwrap_or(("1", word));
    let piece = hex::decode(alloc, piece)?;
    push_often(bytes, piece.as_slice(), count.parse::<u32>()?)
}

// Appends a piece so many times.
fn push_often(bytes: &mut Vec<u8>, piece: &[u8], count: u32) -> Result<(), Trouble> {
    for _ in 0..count {
        bytes.extend_from_slice(piece)?;
    }
    Ok(())
}
