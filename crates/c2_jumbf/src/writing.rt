// Trees and boxes are written.
ghost use Rattle.std.specs.Prelude.{◌≡◌, ◌+◌, ◌<◌, ◌≤◌, ◌⊎◌, length, false, IfOk, IfErr};
ghost use Rattle.std.specs.Int.{w32, from_be_bytes};
ghost use Rattle.std.specs.Bool.{OnTrue, OnFalse};
ghost use Rattle.c2_base.specs.declared.limits.TheConstants.{MAX_STORE_LEN};
ghost use Rattle.c2_spec.specs.Jumbf.Tree.{SpellsTree, tree_bytes, boxed, IsDescription};
ghost use Rattle.c2_spec.specs.Jumbf.Writing.{IsWrittenLabel, fresh_description, fresh_super};
ghost use Rattle.c2_spec.specs.Jumbf.Writing.{super_size, SuperRefused};

use crate::borrowed::Tree;
use crate::fields::label_end;
use c2_base::limits::MAX_STORE_LEN;
use c2_base::{Blob, NoMemory};
use c2_spec::WriteError;
use c2_spec::kinds::{JUMB, JUMD};
use std::alloc::Global;

/// The toggles of a requestable description with a label.
const LABELLED: u8 = 0x03;

/// The bytes that a tree spells, which are those that it was read from.
pub fn write(alloc: Global, tree: &Tree<'_>) -> Result<Blob, NoMemory>
    ensures written { IfOk result (λ bytes. bytes ≡ tree_bytes tree.now) }

    // Reading the bytes gives the tree again.
    ensures again { IfOk result (λ bytes. SpellsTree bytes tree.now) }
{
    Blob::copied(alloc, tree.bytes)
}

/// A box with a 4-byte length: its kind and its payload. `TooLarge` where it would have more than 33,554,432 bytes.
pub fn write_leaf(alloc: Global, kind: [u8; 4], bytes: &[u8]) -> Result<Blob, WriteError>
    ensures ok { IfOk result (λ leaf. (leaf ≡ boxed (from_be_bytes w32 kind) false bytes.now)
        × (8 + length bytes.now ≤ MAX_STORE_LEN)) }
    ensures err { IfErr result (λ e. (e ≡ WriteError.NoMemory)
        ⊎ ((e ≡ WriteError.TooLarge (8 + length bytes.now))
        × (MAX_STORE_LEN < 8 + length bytes.now))) }
{
    let total = 8 + bytes.len() as u64;
    if total > MAX_STORE_LEN {
        return Err(WriteError::TooLarge(total));
    }
    let leaf = leaf_of(alloc, total as u32, kind, bytes)?;
    Ok(Blob::from_vec(leaf))
}

/// The header and the payload of a box of this length.
fn leaf_of(alloc: Global, total: u32, kind: [u8; 4], bytes: &[u8]) -> Result<Vec<u8>, NoMemory>
    requires { total ≡ 8 + length bytes.now }
    ensures { IfOk result (λ leaf. leaf.items ≡ boxed (from_be_bytes w32 kind) false bytes.now) }
{
    let mut leaf = Vec::with_capacity(alloc, total as usize)?;
    leaf.extend_from_slice(&total.to_be_bytes())?;
    leaf.extend_from_slice(&kind)?;
    leaf.extend_from_slice(bytes)?;
    Ok(leaf)
}

/// Whether a label may be written: it isn't empty and has no control byte.
fn is_written_label(label: &str) -> bool
    ensures good { OnTrue result (IsWrittenLabel label.now) }
    ensures bad { OnFalse result (IsWrittenLabel label.now → ⊥) }
{
    let bytes = label.as_bytes();
    if bytes.is_empty() {
        return false;
    }
    label_end(bytes) == bytes.len()
}

/// A superbox with a 4-byte length, its description with this type UUID and label and toggles 0x03, and these contents
/// after it. `BadLabel` where the label is empty or has a control byte, then `TooLarge` as for a leaf.
pub fn write_super(
    alloc: Global,
    uuid: [u8; 16],
    label: &str,
    contents: &[u8],
) -> Result<Blob, WriteError>
    ensures ok { IfOk result (λ superbox. (superbox ≡ fresh_super uuid label.now contents.now)
        × (IsWrittenLabel label.now × (super_size label.now contents.now ≤ MAX_STORE_LEN))) }
    ensures described { IfOk result (λ _. IsDescription (fresh_description uuid label.now)) }

    // A label that may not be written is refused first, also where the box is too large.
    ensures err { IfErr result (λ e. (e ≡ WriteError.NoMemory)
        ⊎ SuperRefused label.now contents.now e) }
{
    if !is_written_label(label) {
        return Err(WriteError::BadLabel);
    }
    let own = 26 + label.len() as u64;
    let total = own.saturating_add(8).saturating_add(contents.len() as u64);
    if total > MAX_STORE_LEN {
        return Err(WriteError::TooLarge(total));
    }
    let superbox = super_of(alloc, total as u32, own as u32, uuid, label, contents)?;
    Ok(Blob::from_vec(superbox))
}

/// The two headers of a superbox and of its description of these lengths, the description and the contents.
fn super_of(
    alloc: Global,
    total: u32,
    own: u32,
    uuid: [u8; 16],
    label: &str,
    contents: &[u8],
) -> Result<Vec<u8>, NoMemory>
    requires own { own ≡ 26 + length label.now }
    requires total { total ≡ 34 + length label.now + length contents.now }
    ensures { IfOk result (λ superbox. superbox.items ≡ fresh_super uuid label.now contents.now) }
{
    let mut superbox = Vec::with_capacity(alloc, total as usize)?;
    superbox.extend_from_slice(&total.to_be_bytes())?;
    superbox.extend_from_slice(&JUMB.to_be_bytes())?;
    superbox.extend_from_slice(&own.to_be_bytes())?;
    superbox.extend_from_slice(&JUMD.to_be_bytes())?;
    superbox.extend_from_slice(&uuid)?;
    superbox.push(LABELLED)?;
    superbox.extend_from_slice(label.as_bytes())?;
    superbox.push(0)?;
    superbox.extend_from_slice(contents)?;
    Ok(superbox)
}
