// The boxes of new assertions, and the references to them.
ghost use Rattle.std.specs.Prelude.{◌≡◌, ◌++◌, ◌∷◌, [], IfOk, OnOk, All, map};
ghost use Rattle.c2_spec.specs.Jumbf.Tree.{tree_bytes, trees_bytes};
ghost use Rattle.c2_layout.specs.Parts.{CanBeBoxed};
ghost use Rattle.c2_new_file_spec.specs.Store as store;

use crate::boxes::{only_memory, write_assertion};
use crate::entries::own_ref;
use c2_base::{Blob, NoMemory};
use c2_definition::NewAssertion;
use c2_hash::{Alg, Hashing, digest_of};
use c2_spec::Ref;
use std::alloc::Global;

// How many bytes the header of a new box has.
const HEAD_LEN: usize = 8;

// The box of an assertion that can be boxed.
fn boxed(alloc: Global, assertion: &NewAssertion) -> Result<Blob, NoMemory>
    requires { CanBeBoxed assertion.now }
    ensures { IfOk result (λ b. b ≡ tree_bytes (store.assertion_box assertion.now)) }
{
    only_memory(write_assertion(alloc, assertion))
}

// The reference to an assertion whose box has these bytes, by the digest by this algorithm of what stands behind the box's header.
fn entry_over<H: Hashing>(
    alloc: Global,
    hashing: &H,
    alg: Alg,
    assertion: &NewAssertion,
    bytes: &[u8],
) -> Result<Ref, NoMemory>
    requires { bytes.now ≡ tree_bytes (store.assertion_box assertion.now) }
    ensures { IfOk result (λ entry. entry ≡ store.entry_of (H.digest_of alg) assertion.now) }
{
    let digest = digest_of(hashing, alg, &bytes[HEAD_LEN..]);
    own_ref(alloc, assertion.label.as_str(), digest.as_slice())
}

// Appends the box of an assertion, and the reference to it, by the digest by this algorithm of what stands behind the box's header.
fn push_one<H: Hashing>(
    alloc: Global,
    hashing: &H,
    alg: Alg,
    boxes: &mut Vec<u8>,
    entries: &mut Vec<Ref>,
    assertion: &NewAssertion,
) -> Result<(), NoMemory>
    requires { CanBeBoxed assertion.now }
    ensures boxes { OnOk result (boxes.new.items
        ≡ boxes.old.items ++ tree_bytes (store.assertion_box assertion.now)) }
    ensures entries { OnOk result (entries.new.items
        ≡ entries.old.items ++ store.entry_of (H.digest_of alg) assertion.now ∷ []) }
{
    let written = boxed(alloc, assertion)?;
    let bytes = written.as_slice();
    entries.push(entry_over(alloc, hashing, alg, assertion, bytes)?)?;
    boxes.extend_from_slice(bytes)?;
    Ok(())
}

// Appends the boxes of assertions, and the references to them, in their order. Each is digested once.
pub(crate) fn push_all<H: Hashing>(
    alloc: Global,
    hashing: &H,
    alg: Alg,
    boxes: &mut Vec<u8>,
    entries: &mut Vec<Ref>,
    all: &[NewAssertion],
) -> Result<(), NoMemory>
    requires { All CanBeBoxed all.now }
    ensures boxes { OnOk result (boxes.new.items
        ≡ boxes.old.items ++ trees_bytes (store.assertion_boxes all.now)) }
    ensures entries { OnOk result (entries.new.items
        ≡ entries.old.items ++ map (store.entry_of (H.digest_of alg)) all.now) }
{
    for assertion in all {
        push_one(alloc, hashing, alg, boxes, entries, assertion)?;
    }
    Ok(())
}
