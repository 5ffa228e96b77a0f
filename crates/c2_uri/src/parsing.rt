// Reading the URI of a box.
ghost use Rattle.std.specs.Prelude.{◌≡◌, option_map};
ghost use Rattle.std.specs.List.{list_any};
ghost use Rattle.c2_spec.specs.C2pa.Uri.{is_slash, has_empty_label, after_piece, target_of};
ghost use Rattle.c2_spec.specs.C2pa.Uri.{target_view, uri_view, uri_of, absolute_uri, relative_uri};

use c2_spec::{Target, Uri};

/// Each URI of a box begins so.
pub(crate) const SCHEME: &str = "self#jumbf=";

/// A path whose first label is a manifest begins so.
pub(crate) const STORE: &str = "/c2pa/";

/// The path of a signature.
pub(crate) const SIGNATURE: &str = "c2pa.signature";

/// The path of an assertion begins so.
pub(crate) const ASSERTIONS: &str = "c2pa.assertions/";

// What follows this piece, where the text begins with it.
fn strip<'a>(piece: &str, text: &'a str) -> Option<&'a str>
    ensures { option_map (λ t. t.now) result ≡ after_piece piece.now text.now }
{
    text.strip_prefix(piece)
}

// Whether a slash is among these bytes.
fn has_slash(bytes: &[u8]) -> bool
    ensures { result ≡ list_any is_slash bytes.now }
{
    bytes.iter().any(|b| *b == b'/')
}

// Whether a label of a path is empty.
fn has_empty(path: &str) -> bool
    ensures { result ≡ has_empty_label path.now }
{
    path.split('/').any(|label| label.is_empty())
}

// What a path names that has no empty label.
fn target_at<'a>(path: &'a str) -> Target<'a>
    ensures { target_view result ≡ target_of path.now }
{
    if path == SIGNATURE {
        return Target::Signature;
    }
    match strip(ASSERTIONS, path) {
        Some(label) => {
            if has_slash(label.as_bytes()) {
                return Target::Other(path);
            }
            Target::Assertion(label)
        }
        None => Target::Other(path),
    }
}

// The URI of a path whose first label is its manifest.
fn absolute<'a>(path: &'a str) -> Uri<'a>
    ensures { uri_view result ≡ absolute_uri path.now }
{
    match path.split_once('/') {
        Some((manifest, rest)) => Uri {
            manifest: Some(manifest),
            target: target_at(rest),
        },
        None => Uri {
            manifest: Some(path),
            target: Target::Whole,
        },
    }
}

// The URI of a path in the manifest that the URI is in.
fn relative<'a>(path: &'a str) -> Uri<'a>
    ensures { uri_view result ≡ relative_uri path.now }
{
    Uri {
        manifest: None,
        target: target_at(path),
    }
}

/// The URI of a box that a text spells (C2PA Technical Specification 2.x, "JUMBF URI references").
///
/// It is `self#jumbf=` and labels with slashes between them, none of them empty. Where `/c2pa/` stands in front of the labels, the
/// first of them is a manifest's, and the others, if any, lead from there; otherwise all of them lead from the own manifest, and no
/// slash stands in front. Any other text is None. Takes no memory.
pub fn parse(text: &str) -> Option<Uri<'_>>
    ensures { option_map uri_view result ≡ uri_of text.now }
{
    let path = strip(SCHEME, text)?;
    match strip(STORE, path) {
        Some(labels) => {
            if has_empty(labels) {
                return None;
            }
            Some(absolute(labels))
        }
        None => {
            if has_empty(path) {
                return None;
            }
            Some(relative(path))
        }
    }
}
