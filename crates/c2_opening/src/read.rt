// A store's bytes as a store of manifests.
ghost use Rattle.std.specs.Prelude.{IfOk};
ghost use Rattle.c2_opening.specs.Opened.{IsStoreRead, IsReadFrom};

use crate::types::StoreRead;
use c2_base::{Found, NoMemory};
use c2_jumbf::parse;
use c2_spec::Refusal;
use c2_store::of_tree;
use std::alloc::Global;

/// The box tree of a store's bytes and the boxes of its manifests, or the first test of the boxes and of the manifests that fails
/// (C2PA Technical Specification 2.x, "Manifest store"). The boxes are all bytes: one that ends early is refused.
pub fn read_tree<'t>(alloc: Global, bytes: &'t [u8]) -> Result<StoreRead<'t>, NoMemory>
    ensures { IfOk result (IsReadFrom bytes.now) }
{
    let tree = match parse(alloc, bytes) {
        Ok(tree) => tree,
        Err(error) => {
            let refusal = Refusal::of_boxes(error).ok_or(NoMemory)?;
            return Ok(StoreRead::Refused(refusal.reason, refusal.number));
        }
    };
    match of_tree(alloc, &tree) {
        Ok(store) => Ok(StoreRead::Here(tree, store)),
        Err(error) => {
            let refusal = Refusal::of_manifests(error).ok_or(NoMemory)?;
            Ok(StoreRead::Refused(refusal.reason, refusal.number))
        }
    }
}

/// The box tree of a store that was found in a file, and the boxes of its manifests; or the first test that fails, as [`read_tree`]
/// answers it.
pub fn read_store<'t>(alloc: Global, found: &'t Found) -> Result<StoreRead<'t>, NoMemory>
    ensures { IfOk result (IsStoreRead found.now) }
{
    read_tree(alloc, found.store.as_slice())
}
