//! Rows of joined boxes and of carried ones, each manifest less what is redacted of it.
ghost use Rattle.c2_spec.specs.C2pa.Manifest.{IsStoreOf};

use c2_base::{Blob, Text};
use c2_collect::{JoinError, Side, carry_less_into, join_less_into};
use c2_jumbf::{Tree, parse, write_leaf, write_super};
use c2_parent::redactions_of;
use c2_spec::kinds::{ASSERTIONS_TYPE, MANIFEST_TYPE, STORE_TYPE};
use c2_store::{Store, manifest_count, of_tree};
use std::alloc::Global;
use std::test::Fail;

// The manifests of a media file's store and of another, each its label and those of its assertions. The last of the other isn't reached.
const OLD: &str = "a:x+y b:x";

const OTHER: &str = "b:x c:x+y d:y";

const REACHED: [bool; 3] = [true, true, false];

// What is redacted: nothing is of a manifest with another label, nor an assertion that isn't there.
const REDACTED: &str = "a/x c/y c/z e/x";

// What is left of both, and of the other alone where there is no store of the media.
const JOINED: &str = "a:y b:x c:x";

const CARRIED: &str = "b:x c:x";

// The type of an assertion that is a CBOR item.
const CBOR_TYPE: [u8; 16] = *b"cbor\x00\x11\x00\x10\x80\x00\x00\xAA\x00\x38\x9B\x71";

// A manifest with these assertions, whose labels stand between pluses.
fn manifest(alloc: Global, label: &str, names: &str) -> Result<Blob, Fail> {
    let mut assertions = Vec::new(alloc);
    for name in names.split('+') {
        let item = write_leaf(alloc, *b"cbor", name.as_bytes())?;
        let one = write_super(alloc, CBOR_TYPE, name, item.as_slice())?;
        assertions.extend_from_slice(one.as_slice())?;
    }
    let store = write_super(
        alloc,
        ASSERTIONS_TYPE,
        "c2pa.assertions",
        assertions.as_slice(),
    )?;
    Ok(write_super(alloc, MANIFEST_TYPE, label, store.as_slice())?)
}

// The manifests that a text tells, one after the other.
fn boxes_of(alloc: Global, told: &str) -> Result<Vec<u8>, Fail> {
    let mut boxes = Vec::new(alloc);
    for one in told.split(' ') {
        if let Some((label, names)) = one.split_once(':') {
            let bytes = manifest(alloc, label, names)?;
            boxes.extend_from_slice(bytes.as_slice())?;
        }
    }
    Ok(boxes)
}

// The store of the manifests that a text tells.
fn store_of(alloc: Global, told: &str) -> Result<Blob, Fail> {
    let boxes = boxes_of(alloc, told)?;
    Ok(write_super(alloc, STORE_TYPE, "c2pa", boxes.as_slice())?)
}

// The URIs of what a text tells to be redacted.
fn redacted(alloc: Global, told: &str) -> Result<Vec<Text>, Fail> {
    let mut texts = Vec::new(alloc);
    for one in told.split(' ') {
        if let Some((label, name)) = one.split_once('/') {
            let uri = format!(in alloc; "self#jumbf=/c2pa/{label}/c2pa.assertions/{name}")?;
            texts.push(Text::from_string(alloc, uri)?)?;
        }
    }
    Ok(texts)
}

// How many manifests are carried, and the boxes in hex.
fn told(alloc: Global, carried: usize, boxes: &[u8]) -> Result<String, Fail> {
    let boxes = hex::encode(alloc, boxes)?;
    Ok(format!(in alloc; "{carried} {boxes}")?)
}

// Two stores joined. The flags live shorter than the redactions and the stores, whose lifetime is one.
fn joined_less<'s>(
    alloc: Global,
    tree: &'s Tree<'_>,
    store: &'s Store,
    other_tree: &'s Tree<'_>,
    other_store: &'s Store,
    texts: &'s [Text],
) -> Result<String, Fail>
    requires ours { IsStoreOf tree.now store.now }
    requires theirs { IsStoreOf other_tree.now other_store.now }
{
    let redactions = redactions_of(alloc, texts)?;
    let was = [true, true];
    let reached = REACHED;
    if manifest_count(store) != was.len() || manifest_count(other_store) != reached.len() {
        return Ok(String::from_str(alloc, "flags")?);
    }
    let old = Side::new(tree, store, &was);
    let other = Side::new(other_tree, other_store, &reached);
    let mut out = Vec::new(alloc);
    match join_less_into(alloc, &mut out, &old, &other, &redactions) {
        Ok(carried) => told(alloc, carried, out.as_slice()),
        Err(JoinError::LabelClash(i)) => Ok(format!(in alloc; "clash {i}")?),
        Err(JoinError::NoMemory) => Ok(String::from_str(alloc, "memory")?),
    }
}

// Both stores joined.
fn joined(alloc: Global) -> Result<String, Fail> {
    let ours = store_of(alloc, OLD)?;
    let theirs = store_of(alloc, OTHER)?;
    let texts = redacted(alloc, REDACTED)?;
    let tree = parse(alloc, ours.as_slice())?;
    let store = of_tree(alloc, &tree)?;
    let other_tree = parse(alloc, theirs.as_slice())?;
    let other_store = of_tree(alloc, &other_tree)?;
    joined_less(
        alloc,
        &tree,
        &store,
        &other_tree,
        &other_store,
        texts.as_slice(),
    )
}

// What is carried of a store where there is no other.
fn carried_less<'s>(
    alloc: Global,
    tree: &'s Tree<'_>,
    store: &'s Store,
    texts: &'s [Text],
) -> Result<String, Fail>
    requires { IsStoreOf tree.now store.now }
{
    let redactions = redactions_of(alloc, texts)?;
    let reached = REACHED;
    if manifest_count(store) != reached.len() {
        return Ok(String::from_str(alloc, "flags")?);
    }
    let other = Side::new(tree, store, &reached);
    let mut out = Vec::new(alloc);
    let carried = carry_less_into(&mut out, &other, &redactions)?;
    told(alloc, carried, out.as_slice())
}

// What is carried of the other store alone.
fn carried(alloc: Global) -> Result<String, Fail> {
    let theirs = store_of(alloc, OTHER)?;
    let texts = redacted(alloc, REDACTED)?;
    let tree = parse(alloc, theirs.as_slice())?;
    let store = of_tree(alloc, &tree)?;
    carried_less(alloc, &tree, &store, texts.as_slice())
}

#[test]
fn redacted_assertions_are_left_out(rt: HostRuntime) -> Result<(), Fail> {
    let alloc = rt.alloc();
    let both = boxes_of(alloc, JOINED)?;
    let want = told(alloc, 1, both.as_slice())?;
    assert_eq!(rt; joined(alloc)?.as_str(), want.as_str());
    let alone = boxes_of(alloc, CARRIED)?;
    let want = told(alloc, 2, alone.as_slice())?;
    assert_eq!(rt; carried(alloc)?.as_str(), want.as_str());
    Ok(())
}
