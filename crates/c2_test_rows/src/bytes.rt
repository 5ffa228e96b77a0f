// Bytes of a row, and media files that are made of them.
use c2_test_tables::Trouble;
use std::alloc::{AllocError, Global};

// The most bytes of a store in a packet.
const MAX_PACKET: usize = 63_984;

// The bytes of a comment in the media that `sample` makes.
const COMMENT_LEN: usize = 1000;

/// The bytes of a file: a text that begins with `{` is itself, everything else is hex. In this `COUNT*PIECE` between spaces stands for
/// a piece that comes so many times, and `FIRST..LAST*PIECE` for one that comes with each of these numbers, in two bytes at its `#`;
/// the piece `sample` is the comment with such a number in the media that the command `sample` makes.
pub fn bytes_of(alloc: Global, text: &str) -> Result<Vec<u8>, Trouble> {
    if text.starts_with('{') {
        return Ok(Vec::from_slice(alloc, text.as_bytes())?);
    }
    let mut bytes = Vec::new(alloc);
    for word in text.split(' ') {
        push_word(alloc, &mut bytes, word)?;
    }
    Ok(bytes)
}

// Appends the bytes of a word.
fn push_word(alloc: Global, bytes: &mut Vec<u8>, word: &str) -> Result<(), Trouble> {
    let (count, piece) = word.split_once('*').unwrap_or(("1", word));
    match count.split_once("..") {
        Some((first, last)) => {
            let numbers = (first.parse::<u16>()?, last.parse::<u16>()?);
            if piece == "sample" {
                return push_comments(bytes, numbers);
            }
            push_numbered(alloc, bytes, numbers, piece)
        }
        None => push_often(alloc, bytes, piece, count.parse::<u32>()?),
    }
}

// Appends a piece with each number from the first to the last.
fn push_numbered(
    alloc: Global,
    bytes: &mut Vec<u8>,
    numbers: (u16, u16),
    piece: &str,
) -> Result<(), Trouble> {
    let (front, back) = piece.split_once('#').ok_or(Trouble::BadLine)?;
    let front = hex::decode(alloc, front)?;
    let back = hex::decode(alloc, back)?;
    for number in numbers.0..=numbers.1 {
        push_between(bytes, front.as_slice(), number, back.as_slice())?;
    }
    Ok(())
}

// Appends the comments with these numbers of the media that `sample` makes.
fn push_comments(bytes: &mut Vec<u8>, numbers: (u16, u16)) -> Result<(), Trouble> {
    for number in numbers.0..=numbers.1 {
        push_comment(bytes, number)?;
    }
    Ok(())
}

// Appends such a comment: each of its bytes is 7 more than the one before it, and its first is 31 more than that of the comment before.
fn push_comment(bytes: &mut Vec<u8>, number: u16) -> Result<(), Trouble> {
    bytes.extend_from_slice(&[0xFF, 0xFE, 0x03, 0xEA])?;
    let [_high, low] = number.to_be_bytes();
    let mut byte = low.wrapping_mul(31);
    for _ in 0..COMMENT_LEN {
        bytes.push(byte)?;
        byte = byte.wrapping_add(7);
    }
    Ok(())
}

// Appends a number between two pieces.
fn push_between(
    bytes: &mut Vec<u8>,
    front: &[u8],
    number: u16,
    back: &[u8],
) -> Result<(), AllocError> {
    bytes.extend_from_slice(front)?;
    bytes.extend_from_slice(&number.to_be_bytes())?;
    bytes.extend_from_slice(back)
}

// Appends a piece so many times.
fn push_often(alloc: Global, bytes: &mut Vec<u8>, piece: &str, count: u32) -> Result<(), Trouble> {
    let piece = hex::decode(alloc, piece)?;
    for _ in 0..count {
        bytes.extend_from_slice(piece.as_slice())?;
    }
    Ok(())
}

/// A JPEG of the packets of a store and no picture. Each packet repeats the store's header, of 16 bytes where its length is
/// a wide one, and has so many bytes more at most, or as many as the store has.
pub fn in_jpeg(alloc: Global, store: &[u8], most: usize) -> Result<Vec<u8>, Trouble> {
    let width = if store.starts_with(&[0, 0, 0, 1]) {
        16
    } else {
        8
    };
    let mut file = Vec::from_slice(alloc, &[0xFF, 0xD8])?;
    let Some((header, body)) = store.split_at_checked(width) else {
        return Ok(file);
    };
    push_packets(&mut file, header, body, most)?;
    file.extend_from_slice(&[0xFF, 0xD9])?;
    Ok(file)
}

// A packet for each piece of a body, of so many bytes at most.
fn push_packets(
    file: &mut Vec<u8>,
    header: &[u8],
    body: &[u8],
    most: usize,
) -> Result<(), AllocError> {
    let mut number: u32 = 0;
    for piece in body.chunks(most.clamp(1, MAX_PACKET)) {
        number = number.saturating_add(1);
        push_packet(file, number, header, piece)?;
    }
    Ok(())
}

// A packet with this sequence number.
fn push_packet(
    file: &mut Vec<u8>,
    number: u32,
    header: &[u8],
    piece: &[u8],
) -> Result<(), AllocError> {
    let length = header.len().min(16) as u16 + piece.len().min(MAX_PACKET) as u16 + 10;
    let [a, b] = length.to_be_bytes();
    let [c, d, e, f] = number.to_be_bytes();
    file.extend_from_slice(&[0xFF, 0xEB, a, b, 0x4A, 0x50, 0x02, 0x11, c, d, e, f])?;
    file.extend_from_slice(header)?;
    file.extend_from_slice(piece)
}

/// The file, where the byte at a place is one more.
pub fn one_more(alloc: Global, file: &[u8], place: usize) -> Result<Vec<u8>, Trouble> {
    let mut changed = Vec::from_slice(alloc, file)?;
    if let Some(byte) = changed.get_mut(place) {
        *byte = byte.wrapping_add(1);
    }
    Ok(changed)
}
