//! The deterministic bytes of an item.

ghost use Rattle.std.specs.Prelude.{◌↔◌, ◌≡◌, ◌<◌, ◌++◌, [], true, None, map, slice_index_or, IfOk};
ghost use Rattle.std.specs.Prelude.{OnOk, length};
ghost use Rattle.c2_spec.specs.Cbor.View.{view, items_view, pairs_view};
ghost use Rattle.c2_spec.specs.Cbor.Deterministic.{preferred_items, preferred_pairs};
ghost use Rattle.c2_spec.specs.Cbor.Item.{no_pairs};
ghost use Rattle.c2_spec.specs.Cbor.Deterministic.{deterministic, sorted_items, sorted_pairs};
ghost use Rattle.c2_spec.specs.Cbor.Plain.{HasPlainKeys, ItemsHavePlainKeys, PairsHavePlainKeys};
ghost use Rattle.c2_cbor_write.specs.Entries.{entry_bytes, entry_of, det_keys, det_values};
ghost use Rattle.c2_cbor_write.specs.Entries.{value_at, AreKeysOf, KeysPlain, ValuesPlain};
ghost use Rattle.c2_cbor_spec.specs.Marks.{StandIn, marks, mark_at, LeastRepeated};

use c2_cbor_heads::{least_repeated, push_head, push_preferred, sorted_keys};
use c2_spec::Cbor;
use std::alloc::{AllocError, Global};

// What is pushed is answered with whether it is plain: whether no map has two keys with the same deterministic bytes.

// Whether both are.
fn both(a: bool, b: bool) -> bool
    ensures { (result ≡ true) ↔ ((a ≡ true) × (b ≡ true)) }
{
    a && b
}

#[cycle(deterministic)]
fn push_deterministic(alloc: Global, out: &mut Vec<u8>, item: &Cbor) -> Result<bool, AllocError>
    ensures bytes { IfOk result (λ _. out.new.items
        ≡ out.old.items ++ deterministic (view item.now)) }
    ensures plain { IfOk result (λ plain. (plain ≡ true) ↔ HasPlainKeys (view item.now)) }
{
    match item {
        Cbor::List(items) => {
            push_head(out, 4, items.len() as u64)?;
            push_deterministic_items(alloc, out, items)
        }
        Cbor::Map(pairs) => {
            push_head(out, 5, pairs.len() as u64)?;
            push_deterministic_pairs(alloc, out, pairs)
        }
        Cbor::Tag(n, inner) => {
            push_head(out, 6, *n)?;
            push_deterministic(alloc, out, inner)
        }
        _ => {
            push_preferred(out, item)?;
            Ok(true)
        }
    }
}

#[cycle(deterministic)]
fn push_deterministic_items(
    alloc: Global,
    out: &mut Vec<u8>,
    items: &[Cbor],
) -> Result<bool, AllocError>
    ensures bytes { IfOk result (λ _. out.new.items
        ≡ out.old.items ++ preferred_items (sorted_items (items_view items.now))) }
    ensures plain { IfOk result (λ plain.
        (plain ≡ true) ↔ ItemsHavePlainKeys (items_view items.now)) }
{
    let mut plain = true;
    for item in items {
        let this = push_deterministic(alloc, out, item)?;
        plain = both(plain, this);
    }
    Ok(plain)
}

#[cycle(deterministic)]
fn push_deterministic_pairs(
    alloc: Global,
    out: &mut Vec<u8>,
    pairs: &[(Cbor, Cbor)],
) -> Result<bool, AllocError>
    ensures bytes { IfOk result (λ _. out.new.items
        ≡ out.old.items ++ preferred_pairs (sorted_pairs (pairs_view pairs.now) no_pairs)) }
    ensures plain { IfOk result (λ plain.
        (plain ≡ true) ↔ PairsHavePlainKeys (pairs_view pairs.now)) }
{
    let (bytes, lens, keys_plain) = deterministic_keys(alloc, pairs)?;
    let keys = sorted_keys(alloc, bytes.as_slice(), lens.as_slice())?;
    let values_plain = push_sorted(alloc, out, pairs, keys.as_slice())?;
    let differ = all_differ(keys.as_slice());
    let parts = both(keys_plain, values_plain);
    Ok(both(differ, parts))
}

// Whether no key equals the one before it.
fn all_differ(keys: &[(u64, &[u8], usize)]) -> bool
    ensures { (result ≡ true) ↔ LeastRepeated (marks keys.now) (length keys.now) None }
{
    least_repeated(keys).is_none()
}

// The keys one after the other, their lengths, and whether they are plain.
#[cycle(deterministic)]
fn deterministic_keys(
    alloc: Global,
    pairs: &[(Cbor, Cbor)],
) -> Result<(Vec<u8>, Vec<usize>, bool), AllocError>
    ensures keys { IfOk result (λ x. StandIn (det_keys pairs.now) x.0.items x.1.items) }
    ensures plain { IfOk result (λ x. (x.2 ≡ true) ↔ KeysPlain pairs.now) }
{
    let mut bytes = Vec::new(alloc);
    let mut lens = Vec::with_capacity(alloc, pairs.len())?;
    let mut plain = true;
    for i in 0..pairs.len() {
        let start = bytes.len();
        let this = push_deterministic(alloc, &mut bytes, &pairs[i].0)?;
        plain = both(plain, this);
        lens.push(bytes.len() - start)?;
    }
    Ok((bytes, lens, plain))
}

// Sorted keys number pairs that lie all over the memory: so many are looked at one after the other, for the room that their
// values take, before the first is written, and are fetched together.
const PAIRS_AT_ONCE: usize = 16;

// The bytes of the string that the value of this pair is.
fn string_len(pairs: &[(Cbor, Cbor)], at: usize) -> usize {
    match pairs.get(at) {
        Some((_, Cbor::Bytes(b))) => b.as_slice().len(),
        Some((_, Cbor::Text(t))) => t.as_str().len(),
        _ => 0,
    }
}

// Before the first of so many pairs takes room for the values of these.
fn take_room(
    out: &mut Vec<u8>,
    pairs: &[(Cbor, Cbor)],
    keys: &[(u64, &[u8], usize)],
    from: usize,
) -> Result<(), AllocError>
    ensures { OnOk result (out.new.items ≡ out.old.items) }
{
    if from % PAIRS_AT_ONCE != 0 {
        return Ok(());
    }
    let mut room: usize = 0;
    for i in from..keys.len().min(from.saturating_add(PAIRS_AT_ONCE)) {
        room = room.saturating_add(string_len(pairs, keys[i].2));
    }
    out.reserve(room)?;
    Ok(())
}

// The key of the pair with this number. A number is spelled again from the pair, whose value is due next; any other key is
// copied, since its parts may lie elsewhere.
fn push_key(
    out: &mut Vec<u8>,
    pairs: &[(Cbor, Cbor)],
    key: &[u8],
    at: usize,
) -> Result<(), AllocError>
    requires { key.now ≡ slice_index_or (det_keys pairs.now) at [] }
    ensures { OnOk result (out.new.items ≡ out.old.items ++ key.now) }
{
    match pairs.get(at) {
        Some((Cbor::Uint(n), _)) => push_head(out, 0, *n),
        Some((Cbor::Nint(n), _)) => push_head(out, 1, *n),
        _ => {
            out.extend_from_slice(key)?;
            Ok(())
        }
    }
}

// The key with this number among the sorted ones.
fn push_sorted_key(
    out: &mut Vec<u8>,
    pairs: &[(Cbor, Cbor)],
    keys: &[(u64, &[u8], usize)],
    i: usize,
) -> Result<(), AllocError>
    requires inside { i < length keys.now }
    requires theirs { AreKeysOf pairs.now keys.now }
    ensures { OnOk result (out.new.items
        ≡ out.old.items ++ (mark_at (marks keys.now) i).1) }
{
    take_room(out, pairs, keys, i)?;
    push_key(out, pairs, keys[i].1, keys[i].2)
}

// Each key, and the value of the pair that it numbers.
#[cycle(deterministic)]
fn push_sorted(
    alloc: Global,
    out: &mut Vec<u8>,
    pairs: &[(Cbor, Cbor)],
    keys: &[(u64, &[u8], usize)],
) -> Result<bool, AllocError>
    requires { AreKeysOf pairs.now keys.now }
    ensures bytes { IfOk result (λ _. out.new.items
        ≡ out.old.items ++ entry_bytes (map (entry_of (det_values pairs.now)) (marks keys.now))) }
    ensures plain { IfOk result (λ plain.
        (plain ≡ true) ↔ ValuesPlain pairs.now (marks keys.now)) }
{
    let mut plain = true;
    for i in 0..keys.len() {
        push_sorted_key(out, pairs, keys, i)?;
        let this = push_value(alloc, out, pairs, keys[i].2)?;
        plain = both(plain, this);
    }
    Ok(plain)
}

// The value of the pair with this number.
#[cycle(deterministic)]
fn push_value(
    alloc: Global,
    out: &mut Vec<u8>,
    pairs: &[(Cbor, Cbor)],
    at: usize,
) -> Result<bool, AllocError>
    ensures bytes { IfOk result (λ _. out.new.items
        ≡ out.old.items ++ slice_index_or (det_values pairs.now) at []) }
    ensures plain { IfOk result (λ plain. (plain ≡ true) ↔ HasPlainKeys (value_at pairs.now at)) }
{
    match pairs.get(at) {
        Some(pair) => push_deterministic(alloc, out, &pair.1),
        None => Ok(true),
    }
}

/// The deterministic bytes, and whether no map of the item has two keys with the same ones.
pub fn deterministic_bytes(alloc: Global, item: &Cbor) -> Result<(Vec<u8>, bool), AllocError>
    ensures bytes { IfOk result (λ x. x.0.items ≡ deterministic (view item.now)) }
    ensures plain { IfOk result (λ x. (x.1 ≡ true) ↔ HasPlainKeys (view item.now)) }
{
    let mut out = Vec::new(alloc);
    let plain = push_deterministic(alloc, &mut out, item)?;
    Ok((out, plain))
}
