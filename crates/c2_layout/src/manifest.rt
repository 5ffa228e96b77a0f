// The box of a new manifest.
ghost use Rattle.std.specs.Prelude.{◌≡◌, ◌⊎◌, ◌++◌, ℕ, List, IfOk, IfErr, length};
ghost use Rattle.c2_spec.specs.Jumbf.Tree.{tree_bytes, trees_bytes};
ghost use Rattle.c2_definition.specs.declared.types.NewAssertion.{NewAssertion};
ghost use Rattle.c2_layout.specs.Parts.{contents_bytes, manifest_size};
ghost use Rattle.c2_layout.specs.Unwritten.{IsManifestRefused};
ghost use Rattle.c2_new_file_spec.specs.Store as store;

use crate::boxes::{type_uuid, write_one};
use c2_base::{Blob, NoMemory};
use c2_jumbf::{WriteError, write_super};
use std::alloc::Global;

// Three lists of bytes, one after the other.
fn joined(alloc: Global, a: &[u8], b: &[u8], c: &[u8]) -> Result<Vec<u8>, NoMemory>
    ensures { IfOk result (λ all. all.items ≡ a.now ++ (b.now ++ c.now)) }
{
    let mut all = Vec::from_slice(alloc, a)?;
    all.extend_from_slice(b)?;
    all.extend_from_slice(c)?;
    Ok(all)
}

// What stands in the box of a manifest behind its description: the box of its assertions, which are handed in one after the other, and
// those of its claim and of its signed message.
fn manifest_contents(
    alloc: Global,
    boxes: &[u8],
    claim: &[u8],
    message: &[u8],
) -> Result<Vec<u8>, WriteError>
    ensures bytes { IfOk result (λ all.
        all.items ≡ contents_bytes boxes.now claim.now message.now) }
    ensures err { IfErr result (λ e. (label : List ℕ) → (e ≡ WriteError.NoMemory)
        ⊎ IsManifestRefused label boxes.now claim.now message.now e) }
{
    let assertions = write_super(alloc, type_uuid(*b"c2as"), "c2pa.assertions", boxes)?;
    let claim = write_one(alloc, *b"c2cl", "c2pa.claim.v2", *b"cbor", claim)?;
    let signature = write_one(alloc, *b"c2cs", "c2pa.signature", *b"cbor", message)?;
    let contents = joined(
        alloc,
        assertions.as_slice(),
        claim.as_slice(),
        signature.as_slice(),
    )?;
    Ok(contents)
}

/// The box of a manifest with this label: the boxes of its assertions, which are handed in one after the other, its claim, and its signed
/// message.
///
/// `TooLarge` where one of its boxes, or it itself, would have more than 33,554,432 bytes, with the length of that one; `BadLabel` where
/// its label may not be written.
pub fn write_manifest(
    alloc: Global,
    label: &str,
    boxes: &[u8],
    claim: &[u8],
    message: &[u8],
) -> Result<Blob, WriteError>
    ensures ok { (assertions : List NewAssertion)
        → boxes.now ≡ trees_bytes (store.assertion_boxes assertions)
        → IfOk result (λ b. b
        ≡ tree_bytes (store.manifest_box label.now assertions claim.now message.now)) }
    ensures size { IfOk result (λ b.
        length b ≡ manifest_size label.now boxes.now claim.now message.now) }
    ensures err { IfErr result (λ e. (e ≡ WriteError.NoMemory)
        ⊎ IsManifestRefused label.now boxes.now claim.now message.now e) }
{
    let contents = manifest_contents(alloc, boxes, claim, message)?;
    write_super(alloc, type_uuid(*b"c2ma"), label, contents.as_slice())
}
