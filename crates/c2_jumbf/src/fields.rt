// The fields of a description.
ghost use Rattle.std.specs.Prelude.{◌≡◌, ℕ, List, Option, slice_index, ◌+◌, ◌<◌, ◌≤◌, length, true};
ghost use Rattle.std.specs.Prelude.{None, Some, IfSome, IfNone};
ghost use Rattle.std.specs.Bool.{OnTrue, OnFalse};
ghost use Rattle.c2_spec.specs.Jumbf.Tree.{PlainBox, IsLabelByte};
ghost use Rattle.c2_spec.specs.Jumbf.Faults.{IsLabelPart, IsFixedPart, LabelFault};
ghost use Rattle.c2_spec.specs.Jumbf.Faults.{DescriptionFault};
ghost use Rattle.c2_jumbf.specs.Fields.{text_of, IsPrivate, IsNoPrivate, HasFields, HasLabel};

use crate::front;

/// The label of a description, where it has one.
#[derive(Clone, Copy)]
pub struct Fields<'a> {
    pub label: Option<&'a str>,
}

/// A label and what comes after its zero byte.
#[derive(Clone, Copy)]
pub struct Labelled<'a> {
    pub label: &'a str,
    pub rest: &'a [u8],
}

/// A label, where there is one, and what comes after it.
#[derive(Clone, Copy)]
pub struct Part<'a> {
    pub label: Option<&'a str>,
    pub rest: &'a [u8],
}

/// The first place whose byte no label holds, or the length.
pub fn label_end(bytes: &[u8]) -> usize
    ensures within { result ≤ length bytes.now }
    ensures before { (k : ℕ) → k < result → IsLabelByte (slice_index bytes.now k) }
    ensures at { result < length bytes.now → IsLabelByte (slice_index bytes.now result) → ⊥ }
{
    for (i, byte) in bytes.iter().enumerate() {
        if *byte < 0x20 || *byte == 0x7F {
            return i;
        }
    }
    bytes.len()
}

/// The label that begins the bytes.
fn label_at(bytes: &[u8]) -> Option<Labelled<'_>>
    ensures found { IfSome result (λ r. HasLabel bytes.now r.label.now r.rest.now) }
    ensures none { IfNone result (LabelFault bytes.now) }
{
    let end = label_end(bytes);
    if end == bytes.len() {
        return None;
    }
    if bytes[end] != 0 {
        return None;
    }
    match str::from_utf8(&bytes[..end]) {
        Ok(label) => Some(Labelled {
            label,
            rest: &bytes[end + 1..],
        }),
        Err(_) => None,
    }
}

/// The label after the toggles, where there is one, and the rest.
pub fn label_part(on: bool, bytes: &[u8]) -> Option<Part<'_>>
    ensures found { IfSome result (λ p. IsLabelPart on bytes.now (text_of p.label) p.rest.now) }
    ensures none { IfNone result ((on ≡ true) × LabelFault bytes.now) }
{
    if !on {
        return Some(Part {
            label: None,
            rest: bytes,
        });
    }
    match label_at(bytes) {
        Some(labelled) => Some(Part {
            label: Some(labelled.label),
            rest: labelled.rest,
        }),
        None => None,
    }
}

/// What comes after a field of a fixed size, where that is there.
fn fixed_part(on: bool, size: usize, bytes: &[u8]) -> Option<&[u8]>
    ensures found { IfSome result (λ rest. (value : Option (List ℕ))
        × IsFixedPart on size bytes.now value rest.now) }
    ensures none { IfNone result ((on ≡ true) × (length bytes.now < size)) }
{
    if !on {
        return Some(bytes);
    }
    if bytes.len() < size {
        return None;
    }
    Some(&bytes[size..])
}

/// Whether the bytes are a private box, or nothing where there is none.
fn is_private(on: bool, bytes: &[u8]) -> bool
    ensures found { OnTrue result ((box : Option PlainBox) × IsPrivate on bytes.now box) }
    ensures none { OnFalse result (IsNoPrivate on bytes.now) }
{
    if !on {
        return bytes.is_empty();
    }
    let Ok(head) = front::head_at(bytes, 0) else {
        return false;
    };
    if head.total != bytes.len() {
        return false;
    }
    true
}

/// The fields that the payload of a description spells.
pub fn fields_of(payload: &[u8]) -> Option<Fields<'_>>
    ensures found { IfSome result (HasFields payload.now) }
    ensures none { IfNone result (DescriptionFault payload.now) }
{
    if payload.len() < 17 {
        return None;
    }
    let toggles = payload[16];
    if toggles >= 32 {
        return None;
    }
    let Some(part) = label_part(toggles / 2 % 2 == 1, &payload[17..]) else {
        return None;
    };
    let Some(after_id) = fixed_part(toggles / 4 % 2 == 1, 4, part.rest) else {
        return None;
    };
    let Some(rest) = fixed_part(toggles / 8 % 2 == 1, 32, after_id) else {
        return None;
    };
    if !is_private(toggles / 16 % 2 == 1, rest) {
        return None;
    }
    Some(Fields { label: part.label })
}
