//! Keys of a map as bytes that stand one after the other, and their order.

ghost use Rattle.std.specs.Prelude.{◌≡◌, ◌≤◌, IfOk, List, ℕ, drop, slice_index};
ghost use Rattle.c2_cbor_spec.specs.Marks.{Bytes, AgreeBelow, SharesFront, StandIn, IsKeyOrder};
ghost use Rattle.c2_cbor_spec.specs.Marks.{front_of, marks, numbered};

use std::alloc::{AllocError, Global};

// The byte at this place, or 0 after the end.
fn byte_at(key: &[u8], i: usize) -> u8
    ensures { result ≡ slice_index key.now i }
{
    match key.get(i) {
        Some(byte) => *byte,
        None => 0,
    }
}

// The first eight bytes as a number.
fn front(key: &[u8]) -> u64
    ensures { result ≡ front_of key.now }
{
    u64::from_be_bytes([
        byte_at(key, 0),
        byte_at(key, 1),
        byte_at(key, 2),
        byte_at(key, 3),
        byte_at(key, 4),
        byte_at(key, 5),
        byte_at(key, 6),
        byte_at(key, 7),
    ])
}

// What is left after so many bytes.
fn after(key: &[u8], skip: usize) -> &[u8]
    ensures { result.now ≡ drop skip key.now }
{
    if skip < key.len() {
        key.split_at(skip).1
    } else {
        &[]
    }
}

// How many of the first `most` bytes agree.
fn agreeing(first: &[u8], key: &[u8], most: usize) -> usize
    ensures agree { AgreeBelow result first.now key.now }
    ensures most { result ≤ most }
{
    for i in 0..most {
        if byte_at(first, i) != byte_at(key, i) {
            return i;
        }
    }
    most
}

// How many first bytes all keys share.
fn shared_len(bytes: &[u8], lens: &[usize]) -> usize
    ensures { (ks : List (List ℕ)) → StandIn ks bytes.now lens.now → SharesFront result ks }
{
    let mut shared = match lens {
        [] => 0,
        [len, ..] => *len,
    };
    let mut rest = bytes;
    for i in 0..lens.len() {
        let len = lens[i];
        if rest.len() < len {
            return 0;
        }
        let (key, after) = rest.split_at(len);
        shared = agreeing(bytes, key, shared);
        rest = after;
    }
    shared
}

// The keys, each with the eight bytes after the first `skip` and with its number.
fn cut_keys<'b>(
    alloc: Global,
    bytes: &'b [u8],
    lens: &[usize],
    skip: usize,
) -> Result<Vec<(u64, &'b [u8], usize)>, AllocError>
    ensures keys { IfOk result (λ keys. (ks : List (List ℕ))
        → StandIn ks bytes.now lens.now → marks keys.items ≡ numbered skip 0 ks) }
    ensures bytes { Bytes bytes.now }
{
    let mut keys = Vec::with_capacity(alloc, lens.len())?;
    let mut rest = bytes;
    for i in 0..lens.len() {
        let len = lens[i];
        if rest.len() < len {
            return Err(AllocError);
        }
        let (key, left) = rest.split_at(len);
        let number = front(after(key, skip));
        keys.push((number, key, i))?;
        rest = left;
    }
    Ok(keys)
}

/// The keys in the order of their bytes, each with a number that its first bytes give and with its own number; equal keys
/// in the order in which they stand.
pub fn sorted_keys<'b>(
    alloc: Global,
    bytes: &'b [u8],
    lens: &[usize],
) -> Result<Vec<(u64, &'b [u8], usize)>, AllocError>
    ensures { IfOk result (λ keys. (ks : List (List ℕ))
        → StandIn ks bytes.now lens.now → IsKeyOrder ks (marks keys.items)) }
{
    let skip = shared_len(bytes, lens);
    let mut keys = cut_keys(alloc, bytes, lens, skip)?;
    keys.sort_unstable();
    Ok(keys)
}
