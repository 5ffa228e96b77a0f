//! Reading a map of which a list of texts under one key is held apart, as texts alone: an item takes 32 bytes of memory, a text 16.

ghost use Rattle.std.specs.Prelude.{◌≡◌, ◌<◌, ◌⊎◌, ℕ, [], Err, IfErr, IfOk, length, map, suc};
ghost use Rattle.c2_spec.specs.Cbor.Answers as answers;
ghost use Rattle.c2_spec.specs.Cbor.Answers.{BeginsWith, EndsEarly, Refuses};
ghost use Rattle.c2_spec.specs.Cbor.Faults.{HasFault};
ghost use Rattle.c2_spec.specs.Cbor.Item.{Item, text};
ghost use Rattle.c2_spec.specs.Cbor.Legal.{IsLegal};
ghost use Rattle.c2_spec.specs.Cbor.Spelling.{Spells};
ghost use Rattle.c2_spec.specs.Cbor.View.{view};
ghost use Rattle.c2_spec.specs.declared.cbor.CborError.{CborError as AnyError};
ghost use Rattle.c2_spec.specs.declared.cbor.CborError.TheVariants.{NoMemory, Trailing};
ghost use Rattle.c2_cbor.specs.Apart.{GivesSome, OnlyIf, whole_value, pairs_with, texts_list};
ghost use Rattle.c2_cbor.specs.Apart.{wants, with_texts};
ghost use Rattle.c2_cbor_spec.specs.Reading.{Gives, is_known, item_at, items, pairs, pairs_seen};

use crate::decoding::{end_before, read_error};
use crate::read::{
    after_end, check_keys, first_fault, first_fault_after, one_fewer, push_member, read_item,
};
use c2_base::Texts;
use c2_base::limits::MAX_CBOR_DEPTH;
use c2_cbor_fields::is_key;
use c2_cbor_heads::read_head;
use c2_cbor_spec::{Count, Head, ReadError};
use c2_spec::{Cbor, CborError};
use std::alloc::Global;

/// A value; null where its texts are held apart.
#[derive(Debug, Drop)]
struct Held {
    item: Cbor,
    texts: Option<Texts>,
}

/// The pairs of a map, and the texts of one value that are held apart.
#[derive(Debug, Drop)]
struct Fields {
    pairs: Vec<(Cbor, Cbor)>,
    texts: Option<Texts>,
}

// Whether a text comes next. What is no text is read once, with the other members as items.
fn begins_text(bytes: &[u8]) -> bool {
    match bytes {
        [] => true,
        [first, ..] => *first / 32 == 3,
    }
}

/// The members of a list, where all are texts.
fn read_texts(
    alloc: Global,
    bytes: &[u8],
    count: Count,
    levels: u8,
) -> Result<Option<(Texts, &[u8])>, ReadError>
    ensures { GivesSome (λ x. (map text x.0, x.1.now)) result
        (items (item_at is_known levels) (suc (length bytes.now)) count bytes.now) }
{
    let mut found = Vec::new(alloc);
    let mut rest = bytes;
    let mut due = count;
    loop {
        match after_end(due, rest) {
            Some(after) => return Ok(Some((Texts::from_list(found), after))),
            None => {}
        }
        if !begins_text(rest) {
            return Ok(None);
        }
        let (item, after) = read_item(alloc, rest, levels)?;
        let Cbor::Text(text) = item else {
            return Ok(None);
        };
        push_member(&mut found, text, due)?;
        rest = after;
        due = one_fewer(due);
    }
}

/// The texts of the list of texts that the bytes begin with.
fn read_list(alloc: Global, bytes: &[u8], levels: u8) -> Result<Option<(Texts, &[u8])>, ReadError>
    requires { 0 < levels }
    ensures { GivesSome (λ x. (texts_list x.0, x.1.now)) result
        (item_at is_known levels bytes.now) }
{
    let (head, rest) = read_head(bytes)?;
    match head {
        Head::List(count) => read_texts(alloc, rest, count, levels - 1),
        _ => Ok(None),
    }
}

/// The value that the bytes begin with; its texts apart where they are wanted and it is a list of texts.
#[tactic(auto, using(crate::proofs::HeldApart::some_gives))]
fn read_value(
    alloc: Global,
    bytes: &[u8],
    levels: u8,
    is_wanted: bool,
) -> Result<(Held, &[u8]), ReadError>
    requires { 0 < levels }
    ensures value { Gives (λ x. (whole_value (view x.0.item) x.0.texts, x.1.now)) result
        (item_at is_known levels bytes.now) }
    ensures wanted { IfOk result (λ x. OnlyIf is_wanted x.0.texts) }
{
    if is_wanted {
        match read_list(alloc, bytes, levels)? {
            Some((texts, after)) => {
                let held = Held {
                    item: Cbor::Simple(22),
                    texts: Some(texts),
                };
                return Ok((held, after));
            }
            None => {}
        }
    }
    let (item, after) = read_item(alloc, bytes, levels)?;
    Ok((Held { item, texts: None }, after))
}

// Whether the texts under this key are to be held apart.
fn is_wanted(texts: &Option<Texts>, key: &Cbor, name: &str) -> bool
    ensures { result ≡ wants texts.now name.now (view key.now) }
{
    match texts {
        None => is_key(key, name),
        Some(_) => false,
    }
}

/// The pairs of a map, the texts under this key held apart.
fn read_fields<'a>(
    alloc: Global,
    bytes: &'a [u8],
    count: Count,
    levels: u8,
    name: &str,
) -> Result<(Fields, &'a [u8]), ReadError>
    requires { 0 < levels }
    ensures { Gives (λ x. (pairs_with name.now x.0.texts (pairs_seen x.0.pairs.items), x.1.now))
        result (pairs is_known (item_at is_known levels) (suc (length bytes.now)) count []
        bytes.now) }
{
    let (mut found, mut texts, mut places) = (Vec::new(alloc), None, Vec::new(alloc));
    let (mut rest, mut due) = (bytes, count);
    loop {
        match after_end(due, rest) {
            Some(after) => {
                check_keys(alloc, found.as_slice(), places.as_slice())?;
                return Ok((
                    Fields {
                        pairs: found,
                        texts,
                    },
                    after,
                ));
            }
            None => {}
        }
        let (key, after_key) = match read_item(alloc, rest, levels) {
            Ok(read) => read,
            Err(e) => return Err(first_fault(alloc, found.as_slice(), places.as_slice(), e)),
        };
        places.push(rest.len())?;
        let wanted = is_wanted(&texts, &key, name);
        let (value, after) = match read_value(alloc, after_key, levels, wanted) {
            Ok(read) => read,
            Err(e) => {
                let kept = places.as_slice();
                return Err(first_fault_after(alloc, &mut found, key, due, kept, e));
            }
        };
        push_member(&mut found, (key, value.item), due)?;
        texts = texts.or(value.texts);
        rest = after;
        due = one_fewer(due);
    }
}

/// The item that the bytes begin with, the texts under this key held apart.
fn read_apart<'a>(alloc: Global, bytes: &'a [u8], key: &str) -> Result<(Held, &'a [u8]), ReadError>
    ensures { Gives (λ x. (with_texts key.now (view x.0.item) x.0.texts, x.1.now)) result
        (item_at is_known 64 bytes.now) }
{
    let (head, rest) = read_head(bytes)?;
    match head {
        Head::Map(count) => {
            let (fields, rest) = read_fields(alloc, rest, count, MAX_CBOR_DEPTH - 1, key)?;
            let item = Cbor::Map(fields.pairs);
            let texts = fields.texts;
            Ok((Held { item, texts }, rest))
        }
        _ => {
            let (item, rest) = read_item(alloc, bytes, MAX_CBOR_DEPTH)?;
            Ok((Held { item, texts: None }, rest))
        }
    }
}

// The item that a prefix of the bytes spells, the texts under this key held apart, and that prefix's length in bytes.
fn decode_apart(alloc: Global, bytes: &[u8], key: &str) -> Result<(Held, usize), CborError>
    ensures read { IfOk result (λ x.
        BeginsWith bytes.now (with_texts key.now (view x.0.item) x.0.texts) x.1) }
    ensures only { (v : Item) (n : ℕ) → BeginsWith bytes.now v n
        → answers.Gives {Y = Item × ℕ} NoMemory
        (λ x. (with_texts key.now (view x.0.item) x.0.texts, x.1)) result (v, n) }
    ensures fault { IfErr result (λ e. (e ≡ NoMemory) ⊎ HasFault bytes.now e) }
    ensures refused { (e : AnyError) → HasFault bytes.now e → Refuses NoMemory result e }
    ensures prefix { (at : ℕ) → result ≡ Err (Trailing at) → ⊥ }
{
    match read_apart(alloc, bytes, key) {
        Ok((held, rest)) => Ok((held, end_before(bytes, rest))),
        Err(e) => Err(read_error(bytes, e)),
    }
}

/// The item that the whole of the bytes spells, as `decode_whole` reads it; where it is a map and has a list of texts under
/// this key, these may be given apart, and null then stands for them in the item. The errors are those of `decode_whole`.
pub fn decode_texts_apart(
    alloc: Global,
    bytes: &[u8],
    key: &str,
) -> Result<(Cbor, Option<Texts>), CborError>
    // What is read, with its texts, is legal, and the bytes spell it.
    ensures read { IfOk result (λ x. let v = with_texts key.now (view x.0) x.1 in
        IsLegal v × Spells v bytes.now) }
    // A legal item that the bytes spell is read.
    ensures only { (v : Item) → IsLegal v → Spells v bytes.now
        → answers.Gives NoMemory (λ x. with_texts key.now (view x.0) x.1) result v }
    // An error is the fault, or a legal item ends early.
    ensures fault { IfErr result (λ e.
        (e ≡ NoMemory) ⊎ (HasFault bytes.now e ⊎ EndsEarly bytes.now e)) }
    // A fault is answered.
    ensures refused { (e : AnyError) → HasFault bytes.now e → Refuses NoMemory result e }
    // A legal item that ends early is refused with the place of its end.
    ensures early { (e : AnyError) → EndsEarly bytes.now e → Refuses NoMemory result e }
{
    let (held, end) = decode_apart(alloc, bytes, key)?;
    if end < bytes.len() {
        return Err(CborError::Trailing(end));
    }
    Ok((held.item, held.texts))
}
