// The bytes of the new store.
ghost use Rattle.std.specs.Prelude.{◌≡◌, ℕ, ◌+◌, ◌≤◌, List, IfOk, length};
ghost use Rattle.c2_base.specs.declared.limits.TheConstants.{MAX_STORE_LEN};
ghost use Rattle.c2_spec.specs.Jumbf.Tree.{Tree as AnyTree, Trees, tree_bytes, trees_bytes};
ghost use Rattle.c2_spec.specs.Jumbf.Writing.{IsWrittenLabel};
ghost use Rattle.c2_definition.specs.DefinitionFile.{IsWellFormed};
ghost use Rattle.c2_definition.specs.declared.types.NewAssertion.{NewAssertion as AnyAssertion};
ghost use Rattle.c2_new_file_spec.specs.FreshBoxes.{store_box};
ghost use Rattle.c2_layout.specs.Parts.{AreParts, IsContent, manifest_size, parts_size};
ghost use Rattle.c2_new_file_spec.specs.Store as store;
ghost use Rattle.c2_new_file_spec.specs.Store.{Content};

use crate::boxes::only_memory;
use crate::carried::Carried;
use crate::manifest::write_manifest;
use crate::parts::NewParts;
use c2_base::{Blob, NoMemory};
use c2_definition::Definition;
use std::alloc::Global;

// The box of a manifest of these parts that can be written.
fn manifest_of(
    alloc: Global,
    label: &str,
    parts: &NewParts,
    message: &[u8],
) -> Result<Blob, NoMemory>
    requires label { IsWrittenLabel label.now }
    requires small { manifest_size label.now parts.now.boxes parts.now.claim message.now
        ≤ MAX_STORE_LEN }
    ensures size { IfOk result (λ b.
        length b ≡ manifest_size label.now parts.now.boxes parts.now.claim message.now) }
    ensures bytes { IfOk result (λ b. (assertions : List AnyAssertion)
        → parts.now.boxes ≡ trees_bytes (store.assertion_boxes assertions)
        → b ≡ tree_bytes (store.manifest_box label.now assertions parts.now.claim message.now)) }
{
    let boxes = parts.boxes.as_slice();
    let claim = parts.claim.as_slice();
    only_memory(write_manifest(alloc, label, boxes, claim, message))
}

// What stands in a new store between its length and its boxes: its kind, and its description.
const STORE_FRONT: [u8; 34] =
    *b"jumb\x00\x00\x00\x1Ejumdc2pa\x00\x11\x00\x10\x80\x00\x00\xAA\x00\x38\x9B\x71\x03c2pa\x00";

// How many bytes stand before its boxes.
const STORE_HEAD_LEN: usize = 38;

// The box of a store that isn't too large: of boxes that are carried, and of a manifest. Its bytes are put together once, so that
// there are no two copies of them.
fn store_of(alloc: Global, carried: &[u8], manifest: &[u8]) -> Result<Blob, NoMemory>
    requires { 38 + length carried.now + length manifest.now ≤ MAX_STORE_LEN }
    ensures { IfOk result (λ b. (old : Trees) (last : AnyTree) → carried.now ≡ trees_bytes old
        → manifest.now ≡ tree_bytes last → b ≡ tree_bytes (store_box old last)) }
{
    let len = STORE_HEAD_LEN + carried.len() + manifest.len();
    let mut bytes = Vec::with_capacity(alloc, len)?;
    bytes.extend_from_slice(&(len as u32).to_be_bytes())?;
    bytes.extend_from_slice(&STORE_FRONT)?;
    bytes.extend_from_slice(carried)?;
    bytes.extend_from_slice(manifest)?;
    Ok(Blob::from_vec(bytes))
}

/// The bytes of the store that is built of a definition and of what is carried of older stores, of its parts and of its signed message.
///
/// Nothing but memory fails where the store isn't too large, which `bound_size` tells before.
pub fn new_store(
    alloc: Global,
    definition: &Definition,
    carried: &Carried,
    parts: &NewParts,
    message: &[u8],
) -> Result<Blob, NoMemory>
    requires formed { IsWellFormed definition.now }
    requires small { length carried.now.boxes
        + parts_size definition.now.label parts.now (length message.now) ≤ MAX_STORE_LEN }
    ensures { IfOk result (λ b. (hash : List ℕ → List ℕ) (c : Content) (binding : AnyAssertion)
        → IsContent hash definition.now carried.now c → AreParts hash c binding parts.now
        → b ≡ tree_bytes (store.new_store hash c binding message.now)) }
{
    let manifest = manifest_of(alloc, definition.label.as_str(), parts, message)?;
    store_of(alloc, carried.boxes.as_slice(), manifest.as_slice())
}
