// Labels of manifests, and of new assertions.
ghost use Rattle.std.specs.Prelude.{◌≡◌};
ghost use Rattle.std.specs.List.{list_any};
ghost use Rattle.c2_definition.specs.DefinitionFile as file;

use c2_assertion::{Kind, kind};
use uuid::Uuid;

// A manifest's label begins so.
const SCHEME: &str = "urn:c2pa:";

// Whether a text is a UUID in the one form in which it is written: read and written, it is the same.
fn is_uuid(text: &str) -> bool
    ensures { result ≡ file.is_uuid text.now }
{
    let Ok(id) = Uuid::parse_str(text) else {
        return false;
    };
    let mut buffer = Uuid::encode_buffer();
    let again = id.hyphenated().encode_lower(&mut buffer);
    text == again
}

/// Whether a text is the label of a manifest.
pub fn is_manifest_label(text: &str) -> bool
    ensures { result ≡ file.is_manifest_label text.now }
{
    match text.strip_prefix(SCHEME) {
        Some(id) => is_uuid(id),
        None => false,
    }
}

// Whether a byte is among these that no label has.
fn has_barred(bytes: &[u8]) -> bool
    ensures { result ≡ list_any file.is_barred bytes.now }
{
    bytes.iter().any(|b| *b == b'/' || *b < 0x20 || *b == 0x7F)
}

// Whether assertions of this kind are written as they are given.
fn is_new_kind(kind: Kind) -> bool
    ensures { result ≡ file.is_new_kind kind }
{
    match kind {
        Kind::Actions | Kind::Ordinary => true,
        _ => false,
    }
}

/// Whether a new assertion may have this label.
pub fn is_new_label(label: &str) -> bool
    ensures { result ≡ file.is_new_label label.now }
{
    !label.is_empty() && !has_barred(label.as_bytes()) && is_new_kind(kind(label))
}
