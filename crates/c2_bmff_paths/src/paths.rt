// Paths to boxes.
ghost use Rattle.std.specs.Prelude.{◌≡◌, IfOk, option_map};
ghost use Rattle.std.specs.List.{slice_split};
ghost use Rattle.c2_spec.specs.C2pa.Uri.{after_piece, is_slash};
ghost use Rattle.c2_spec.specs.Bmff.Paths.{each_step, enters_other, is_entered, is_step_kind};
ghost use Rattle.c2_spec.specs.Bmff.Paths.{nth_of_text, path_of, step_of};
ghost use Rattle.c2_bmff_paths.specs.PathTexts.{IsPathText, number_of_digits};

use c2_base::{NoMemory, Text};
use std::alloc::Global;
use std::marker::Model;

// The greatest number in brackets.
const MAX_CHILD_INDEX: u32 = 1_048_576;

/// A step of a path: the type of a box, and which one of the siblings of this type is meant, counted from 1; all of them where no
/// number is there.
#[derive(Clone, Copy, Debug, PartialEq, Eq, PartialOrd, Ord)]
pub struct Segment {
    pub kind: [u8; 4],
    pub nth: Option<u32>,
}

impl Model for Segment {
    ghost use Rattle.c2_spec.specs.Bmff.Paths.{PathStep};

    ghost Value = { PathStep };

    ghost view = { λ s. record { kind = s.kind; nth = s.nth } };

    ghost inverse = { λ p. record { kind = p.kind; nth = p.nth } };
}

/// A path to boxes (C2PA Technical Specification 2.x, "BMFF-based hash": `xpath`).
#[derive(Debug, Drop)]
pub struct Path {
    segments: Vec<Segment>,
    text: Text,
}

impl Model for Path {
    ghost use Rattle.std.specs.Prelude.{List};
    ghost use Rattle.c2_spec.specs.Bmff.Paths.{PathStep};
    ghost use Rattle.c2_bmff_paths.specs.PathTexts.{IsPathText};

    ghost Value = { List PathStep };

    ghost view = { λ p. p.segments.items };

    ghost invariant = { λ p. IsPathText p.segments.items p.text };
}

impl Path {
    /// The steps of the path. Takes no memory.
    pub fn segments(&self) -> &[Segment]
        ensures { result.now ≡ self.now }
    {
        self.segments.as_slice()
    }

    /// The text of the path, which is read as this path. Takes no memory.
    pub fn text(&self) -> &str
        ensures { IsPathText self.now result.now }
    {
        self.text.as_str()
    }

    /// Whether a step before the last has a type that no path enters. Takes no memory.
    pub fn enters_other(&self) -> bool
        ensures { result ≡ enters_other self.now }
    {
        passes_other(self.segments.as_slice())
    }
}

// Whether a step may have this type: bytes of ASCII but `[`.
fn is_kind(kind: [u8; 4]) -> bool
    ensures { result ≡ is_step_kind kind }
{
    kind.iter().all(|b| *b < 0x80 && *b != b'[')
}

// The number that these digits write, in brackets.
fn number_in(digits: &[u8]) -> Option<u32>
    ensures { result ≡ number_of_digits digits.now }
{
    if digits.is_empty() {
        return None;
    }
    if digits[0] == b'0' {
        return None;
    }
    let mut value = 0;
    for byte in digits {
        if !byte.is_ascii_digit() {
            return None;
        }
        value = value * 10 + u32::from(*byte - b'0');
        if value > MAX_CHILD_INDEX {
            return None;
        }
    }
    Some(value)
}

// What stands after a type: nothing, or a number in brackets.
fn nth_in(text: &[u8]) -> Option<Option<u32>>
    ensures { result ≡ nth_of_text text.now }
{
    if text.is_empty() {
        return Some(None);
    }
    if text[0] != b'[' {
        return None;
    }
    if text.len() == 1 {
        return None;
    }
    let last = text.len() - 1;
    if text[last] != b']' {
        return None;
    }
    let number = number_in(&text[1..last])?;
    Some(Some(number))
}

// The step of a text without its slash.
fn segment_of(part: &[u8]) -> Option<Segment>
    ensures { result ≡ step_of part.now }
{
    if part.len() < 4 {
        return None;
    }
    let kind = [part[0], part[1], part[2], part[3]];
    if !is_kind(kind) {
        return None;
    }
    let nth = nth_in(&part[4..])?;
    Some(Segment { kind, nth })
}

// What follows this piece, where the text begins with it.
fn strip<'a>(piece: &str, text: &'a str) -> Option<&'a str>
    ensures { option_map (λ t. t.now) result ≡ after_piece piece.now text.now }
{
    text.strip_prefix(piece)
}

// The steps of these texts, which slashes part.
fn segments_of(alloc: Global, parts: &str) -> Result<Option<Vec<Segment>>, NoMemory>
    ensures { IfOk result (λ found.
        option_map (λ v. v.items) found ≡ each_step (slice_split is_slash parts.now)) }
{
    let mut segments = Vec::new(alloc);
    for part in parts.split('/') {
        let Some(segment) = segment_of(part.as_bytes()) else {
            return Ok(None);
        };
        segments.push(segment)?;
    }
    Ok(Some(segments))
}

/// The path of a text, or None where the text hasn't the form: one or more steps, each a slash, four characters of ASCII other than
/// `/` and `[`, and optionally a number from 1 to 1,048,576 in brackets, in decimal without a leading zero.
pub fn read_path(alloc: Global, text: &str) -> Result<Option<Path>, NoMemory>
    ensures { IfOk result (λ found. found ≡ path_of text.now) }
{
    let Some(parts) = strip("/", text) else {
        return Ok(None);
    };
    let Some(segments) = segments_of(alloc, parts)? else {
        return Ok(None);
    };
    let text = Text::copied(alloc, text)?;
    Ok(Some(Path { segments, text }))
}

// The types of the boxes that a path enters.
const ENTERED: [[u8; 4]; 11] = [
    *b"moov", *b"trak", *b"edts", *b"mdia", *b"minf", *b"dinf", *b"stbl", *b"mvex", *b"moof",
    *b"traf", *b"mfra",
];

/// Whether a path enters boxes of this type. Takes no memory.
pub fn enters(kind: [u8; 4]) -> bool
    ensures { result ≡ is_entered kind }
{
    ENTERED.iter().any(|entered| kind == *entered)
}

// Whether a step before the last has a type that no path enters.
fn passes_other(steps: &[Segment]) -> bool
    ensures { result ≡ enters_other steps.now }
{
    let mut rest = steps;
    while rest.len() >= 2 {
        let step = &rest[0];
        if !enters(step.kind) {
            return true;
        }
        rest = &rest[1..];
    }
    false
}
