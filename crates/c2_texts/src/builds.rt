// The lines of reports on what is built into a media file.
ghost use Rattle.std.specs.Prelude.{◌≡◌, IfOk, decimal, string_bytes};
ghost use Rattle.c2_compare_spec.specs.EvidenceText.{printed};
ghost use Rattle.c2_texts.specs.Builds as form;

use crate::control::printable;
use crate::lines::told_line;
use crate::names::{code_name, field_name, part_name, reason_name};
use c2_definition::DefinitionField;
use c2_new_signature::SignaturePart;
use c2_rules::{Answer, Code};
use c2_spec::Reason;
use std::alloc::{AllocError, Global};

/// The line of the bytes that are to be signed.
pub fn tbs_line(alloc: Global, bytes: &[u8]) -> Result<String, AllocError>
    ensures { IfOk result (λ text. string_bytes text ≡ form.tbs_line bytes.now) }
{
    let hex = hex::encode(alloc, bytes)?;
    let text = format!(in alloc; "tbs {hex}\n")?;
    Ok(text)
}

/// The line of the range that a new store takes in a new file: its start, and its length in bytes.
pub fn embedded_line(alloc: Global, start: u64, length: u64) -> Result<String, AllocError>
    ensures { IfOk result (λ text. string_bytes text ≡ form.embedded_line start length) }
{
    let text = format!(in alloc; "embedded {start} {length}\n")?;
    Ok(text)
}

/// The line of media that are refused, with the number that belongs to the reason.
pub fn media_refused_line(alloc: Global, reason: Reason, number: u64) -> Result<String, AllocError>
    ensures { IfOk result (λ text. string_bytes text ≡ form.media_refused_line reason number) }
{
    let name = reason_name(reason);
    let text = format!(in alloc; "build MediaRefused {name} {number}\n")?;
    Ok(text)
}

/// The line of a definition file that is refused.
pub fn bad_definition_line(alloc: Global, field: DefinitionField) -> Result<String, AllocError>
    ensures { IfOk result (λ text. string_bytes text ≡ form.bad_definition_line field) }
{
    let name = field_name(field);
    let text = format!(in alloc; "build BadDefinition {name}\n")?;
    Ok(text)
}

/// The line of a signed message that is refused.
pub fn bad_signature_line(alloc: Global, part: SignaturePart) -> Result<String, AllocError>
    ensures { IfOk result (λ text. string_bytes text ≡ form.bad_signature_line part) }
{
    let name = part_name(part);
    let text = format!(in alloc; "build BadSignature {name}\n")?;
    Ok(text)
}

/// The line of a rule that the check of the older store fails at: its code, and the URI of what it fails at, with `?` for control bytes.
pub fn parent_fails_line(alloc: Global, code: Code, uri: &str) -> Result<String, AllocError>
    ensures { IfOk result
        (λ text. string_bytes text ≡ form.parent_fails_line code uri.now) }
{
    let name = code_name(code);
    let uri = printable(alloc, uri)?;
    let text = format!(in alloc; "build ParentFails {name} {uri}\n")?;
    Ok(text)
}

// The line of what is refused by this name, with a label behind it that has `?` for control bytes.
fn labelled_line(alloc: Global, name: &str, label: &str) -> Result<String, AllocError>
    ensures { let line = form.build_line name.now (form.spaced (printed label.now)) in
        IfOk result (λ text. string_bytes text ≡ line) }
{
    let label = printable(alloc, label)?;
    let text = format!(in alloc; "build {name} {label}\n")?;
    Ok(text)
}

/// The line of a label that a manifest of the older store has, with `?` for control bytes.
pub fn label_taken_line(alloc: Global, label: &str) -> Result<String, AllocError>
    ensures { IfOk result (λ text. string_bytes text ≡ form.label_taken_line label.now) }
{
    labelled_line(alloc, "LabelTaken", label)
}

/// The line of a redaction that is refused: its text, with `?` for control bytes, and the code of the rule that forbids it.
pub fn redaction_refused_line(
    alloc: Global,
    redaction: &str,
    code: Code,
) -> Result<String, AllocError>
    ensures { let line = form.redaction_refused_line redaction.now code in
        IfOk result (λ text. string_bytes text ≡ line) }
{
    let uri = printable(alloc, redaction)?;
    let name = code_name(code);
    let text = format!(in alloc; "build RedactionRefused {uri} {name}\n")?;
    Ok(text)
}

// The line of what is refused by this name, with one number behind it.
fn numbered_line(alloc: Global, name: &str, number: u64) -> Result<String, AllocError>
    ensures { let line = form.build_line name.now (form.spaced (decimal number)) in
        IfOk result (λ text. string_bytes text ≡ line) }
{
    let text = format!(in alloc; "build {name} {number}\n")?;
    Ok(text)
}

/// The line of media whose last root box is open: the place where it begins.
pub fn open_box_line(alloc: Global, place: u64) -> Result<String, AllocError>
    ensures { IfOk result (λ text. string_bytes text ≡ form.open_box_line place) }
{
    numbered_line(alloc, "OpenBox", place)
}

/// The line of media among whose packets no box instance number is free.
pub fn no_instance_line(alloc: Global) -> Result<String, AllocError>
    ensures { IfOk result (λ text. string_bytes text ≡ form.no_instance_line) }
{
    String::from_str(alloc, "build NoInstance\n")
}

/// The line of a new store that would have too many manifests: how many.
pub fn too_many_manifests_line(alloc: Global, count: u64) -> Result<String, AllocError>
    ensures { IfOk result (λ text. string_bytes text ≡ form.too_many_manifests_line count) }
{
    numbered_line(alloc, "TooManyManifests", count)
}

/// The line of a new store that would have too many bytes: how many.
pub fn store_too_large_line(alloc: Global, length: u64) -> Result<String, AllocError>
    ensures { IfOk result (λ text. string_bytes text ≡ form.store_too_large_line length) }
{
    numbered_line(alloc, "StoreTooLarge", length)
}

/// The line of a reserve that is too small for the signed message: how many bytes are needed.
pub fn reserve_too_small_line(alloc: Global, needed: u64) -> Result<String, AllocError>
    ensures { IfOk result (λ text. string_bytes text ≡ form.reserve_too_small_line needed) }
{
    numbered_line(alloc, "ReserveTooSmall", needed)
}

/// The line of media of another container than BMFF.
pub fn not_bmff_line(alloc: Global) -> Result<String, AllocError>
    ensures { IfOk result (λ text. string_bytes text ≡ form.not_bmff_line) }
{
    String::from_str(alloc, "build NotBmff\n")
}

/// The line of media that have a store.
pub fn has_store_line(alloc: Global) -> Result<String, AllocError>
    ensures { IfOk result (λ text. string_bytes text ≡ form.has_store_line) }
{
    String::from_str(alloc, "build HasStore\n")
}

/// The line of a box that keeps places of the file which aren't known here: where it begins.
pub fn offset_table_line(alloc: Global, place: u64) -> Result<String, AllocError>
    ensures { IfOk result (λ text. string_bytes text ≡ form.offset_table_line place) }
{
    numbered_line(alloc, "OffsetTable", place)
}

/// The line of a box on the path to the chunk tables whose payload is no list of boxes: where it begins.
pub fn bad_tree_line(alloc: Global, place: u64) -> Result<String, AllocError>
    ensures { IfOk result (λ text. string_bytes text ≡ form.bad_tree_line place) }
{
    numbered_line(alloc, "BadTree", place)
}

/// The line of a chunk table that hasn't its form: where it begins.
pub fn bad_table_line(alloc: Global, place: u64) -> Result<String, AllocError>
    ensures { IfOk result (λ text. string_bytes text ≡ form.bad_table_line place) }
{
    numbered_line(alloc, "BadTable", place)
}

/// The line of a field of a chunk table that can't hold the moved place: where the field begins.
pub fn overflow_line(alloc: Global, place: u64) -> Result<String, AllocError>
    ensures { IfOk result (λ text. string_bytes text ≡ form.overflow_line place) }
{
    numbered_line(alloc, "Overflow", place)
}

/// The line of another media file that isn't accepted, with what its check answers.
pub fn other_refused_line(alloc: Global, told: &Answer) -> Result<String, AllocError>
    ensures { IfOk result (λ text. string_bytes text ≡ form.other_refused_line told.now) }
{
    let line = told_line(alloc, told)?;
    let text = format!(in alloc; "build OtherRefused {line}")?;
    Ok(text)
}

/// The line of a label that different manifests of two media files have, with `?` for control bytes.
pub fn label_clash_line(alloc: Global, label: &str) -> Result<String, AllocError>
    ensures { IfOk result (λ text. string_bytes text ≡ form.label_clash_line label.now) }
{
    labelled_line(alloc, "LabelClash", label)
}
