// The texts of URIs: reading and writing are inverse.
ghost use Rattle.std.specs.Prelude.{◌≡◌, ℕ, List, Some};
ghost use Rattle.c2_spec.specs.C2pa.Uri.{PlainUri, uri_of, uri_text};
ghost use Rattle.c2_uri.specs.Writing.{IsWritable};

/// A text that is read as a URI is the text of that URI.
pub fn read_uris_are_spelled()
    ensures { (text : List ℕ) (u : PlainUri) → uri_of text ≡ Some u → text ≡ uri_text u }
{}

/// The text of a URI that can be written is read as that URI.
pub fn written_uris_are_read()
    ensures { (u : PlainUri) → IsWritable u → uri_of (uri_text u) ≡ Some u }
{}
