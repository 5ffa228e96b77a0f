//! The first key of a map that equals one before it.

ghost use Rattle.std.specs.Prelude.{◌≡◌, ◌↔◌, Some, None, true, IfOk, IsTrue, length};
ghost use Rattle.std.specs.Ordering.{nat_cmp, is_gt};
ghost use Rattle.std.specs.Cmp.Lexicographic.{slice_cmp};
ghost use Rattle.c2_cbor_spec.specs.Tracking.{first_equal as first_of, spelled};
ghost use Rattle.c2_cbor_spec.specs.Marks.{StandIn, marks, mark_of, Repeats, LeastRepeated};
ghost use Rattle.c2_cbor_spec.specs.Marks.{lesser_of};

use crate::key_order::sorted_keys;
use crate::preferred::push_preferred;
use c2_base::NoMemory;
use c2_spec::Cbor;
use std::alloc::{AllocError, Global};
use std::mem;

fn is_above(key: &[u8], last: &[u8]) -> bool
    ensures { result ≡ is_gt (slice_cmp nat_cmp key.now last.now) }
{
    key.cmp(last).is_gt()
}

// The room for a key that is taken first: what the smallest block of memory has.
const KEY_ROOM: usize = 24;

// Whether each key is greater than the one before it, as a deterministic writer leaves them.
fn keys_rise(alloc: Global, pairs: &[(Cbor, Cbor)]) -> Result<bool, NoMemory>
    ensures { IfOk result (λ rise. rise ≡ true → first_of pairs.now ≡ None) }
{
    if pairs.len() < 2 {
        return Ok(true);
    }
    let mut last = Vec::with_capacity(alloc, KEY_ROOM)?;
    let mut key = Vec::with_capacity(alloc, KEY_ROOM)?;
    for pair in pairs {
        key.clear();
        push_preferred(&mut key, &pair.0)?;
        if !is_above(key.as_slice(), last.as_slice()) {
            return Ok(false);
        }
        mem::swap(&mut key, &mut last);
    }
    Ok(true)
}

// The keys' spellings one after the other, and their lengths.
fn spelled_keys(alloc: Global, pairs: &[(Cbor, Cbor)]) -> Result<(Vec<u8>, Vec<usize>), AllocError>
    ensures { IfOk result (λ x. StandIn (spelled pairs.now) x.0.items x.1.items) }
{
    let mut bytes = Vec::new(alloc);
    let mut lens = Vec::with_capacity(alloc, pairs.len())?;
    for i in 0..pairs.len() {
        let start = bytes.len();
        push_preferred(&mut bytes, &pairs[i].0)?;
        lens.push(bytes.len() - start)?;
    }
    Ok((bytes, lens))
}

// Whether `y` has the key of `x`, and a greater number. (Of sorted keys the numbers rise, which saves a proof.)
fn repeats(x: &(u64, &[u8], usize), y: &(u64, &[u8], usize)) -> bool
    ensures { IsTrue result ↔ Repeats (mark_of x.now) (mark_of y.now) }
{
    x.0 == y.0 && x.2 < y.2 && x.1 == y.1
}

fn lesser(least: Option<usize>, n: usize) -> Option<usize>
    ensures { result ≡ Some (lesser_of least n) }
{
    match least {
        None => Some(n),
        Some(m) => Some(m.min(n)),
    }
}

/// The least number of a key that equals the one before it.
pub fn least_repeated(keys: &[(u64, &[u8], usize)]) -> Option<usize>
    ensures { LeastRepeated (marks keys.now) (length keys.now) result }
{
    let mut least = None;
    for i in 1..keys.len() {
        if repeats(&keys[i - 1], &keys[i]) {
            least = lesser(least, keys[i].2);
        }
    }
    least
}

/// The place among the pairs of the first key that equals one before it.
pub fn first_equal(alloc: Global, pairs: &[(Cbor, Cbor)]) -> Result<Option<usize>, NoMemory>
    ensures { IfOk result (λ at. at ≡ first_of pairs.now) }
{
    if keys_rise(alloc, pairs)? {
        return Ok(None);
    }
    let (bytes, lens) = spelled_keys(alloc, pairs)?;
    let keys = sorted_keys(alloc, bytes.as_slice(), lens.as_slice())?;
    Ok(least_repeated(keys.as_slice()))
}
