//! Rows of two stores and their joined boxes, and of one store and what is carried of it.
use c2_base::Blob;
use c2_collect::{JoinError, carry, join};
use c2_jumbf::{parse, write_leaf, write_super};
use c2_spec::kinds::{MANIFEST_TYPE, STORE_TYPE};
use c2_store::{manifest_count, of_tree};
use std::alloc::Global;
use std::test::Fail;

// The boxes of a media file's store, those of another, and the joined ones, or the manifest at which the two clash. A manifest is its
// label and what is in it, with a dash where it isn't reached. What has no label is a box that holds no others.
const JOINED: &str = "a.1 b.1 | c.1 => a.1 b.1 c.1
a.1 b.1 | a.1 c.1 b.1 => a.1 b.1 c.1
a.1 | b.1- c.1 => a.1 c.1
a.1 | a.2- b.1 => a.1 b.1
.1 a.1 .2 | .3 b.1 .4 c.1 => .1 a.1 .2 b.1 c.1
a.1 | a.2 b.1 => clash 0
a.1- b.1 | c.1 a.1 => clash 1
a.1 b.1 | c.1 b.2 a.2 => clash 1
a.1 | c.1 a.11 => clash 1";

// The boxes of a store, and those of them that are carried where there is no other store.
const CARRIED: &str = "a.1 => a.1
a.1 b.1- c.1 => a.1 c.1
.1 a.1 .2 => a.1";

// Boxes side by side, and of each manifest among them whether it is reached.
#[derive(Drop)]
struct Boxes {
    bytes: Vec<u8>,
    reached: Vec<bool>,
}

// One box more.
fn add_box(alloc: Global, boxes: &mut Boxes, told: &str) -> Result<(), Fail> {
    let name = told.strip_suffix('-').unwrap_or(told);
    let Some((label, _)) = name.split_once('.') else {
        return Ok(());
    };
    let contents = write_leaf(alloc, *b"cbor", name.as_bytes())?;
    if label.is_empty() {
        boxes.bytes.extend_from_slice(contents.as_slice())?;
        return Ok(());
    }
    let manifest = write_super(alloc, MANIFEST_TYPE, label, contents.as_slice())?;
    boxes.bytes.extend_from_slice(manifest.as_slice())?;
    boxes.reached.push(name.len() == told.len())?;
    Ok(())
}

// The boxes that a text tells.
fn boxes_of(alloc: Global, told: &str) -> Result<Boxes, Fail> {
    let mut boxes = Boxes {
        bytes: Vec::new(alloc),
        reached: Vec::new(alloc),
    };
    for one in told.split(' ') {
        add_box(alloc, &mut boxes, one)?;
    }
    Ok(boxes)
}

// The store of these boxes.
fn store_of(alloc: Global, boxes: &Boxes) -> Result<Blob, Fail> {
    Ok(write_super(alloc, STORE_TYPE, "c2pa", boxes.bytes.as_slice())?)
}

// Two stores joined: the joined boxes in hex, or where they clash.
fn joined(alloc: Global, old: &Boxes, other: &Boxes) -> Result<String, Fail> {
    let ours = store_of(alloc, old)?;
    let theirs = store_of(alloc, other)?;
    let tree = parse(alloc, ours.as_slice())?;
    let store = of_tree(alloc, &tree)?;
    let other_tree = parse(alloc, theirs.as_slice())?;
    let other_store = of_tree(alloc, &other_tree)?;
    let was = old.reached.as_slice();
    let reached = other.reached.as_slice();
    if was.len() != manifest_count(&store) {
        return Ok(String::from_str(alloc, "flags")?);
    }
    if reached.len() != manifest_count(&other_store) {
        return Ok(String::from_str(alloc, "other flags")?);
    }
    match join(
        alloc,
        &tree,
        &store,
        was,
        &other_tree,
        &other_store,
        reached,
    ) {
        Ok(bytes) => Ok(hex::encode(alloc, bytes.as_slice())?),
        Err(JoinError::LabelClash(i)) => Ok(format!(in alloc; "clash {i}")?),
        Err(JoinError::NoMemory) => Ok(String::from_str(alloc, "memory")?),
    }
}

// What is carried of a store, in hex.
fn carried(alloc: Global, other: &Boxes) -> Result<String, Fail> {
    let theirs = store_of(alloc, other)?;
    let tree = parse(alloc, theirs.as_slice())?;
    let store = of_tree(alloc, &tree)?;
    let reached = other.reached.as_slice();
    if reached.len() != manifest_count(&store) {
        return Ok(String::from_str(alloc, "flags")?);
    }
    let bytes = carry(alloc, &tree, &store, reached)?;
    Ok(hex::encode(alloc, bytes.as_slice())?)
}

// What a row wants: boxes in hex, or a clash.
fn wanted(alloc: Global, told: &str) -> Result<String, Fail> {
    if told.starts_with("clash") {
        return Ok(String::from_str(alloc, told)?);
    }
    let boxes = boxes_of(alloc, told)?;
    Ok(hex::encode(alloc, boxes.bytes.as_slice())?)
}

#[test]
fn two_stores_are_joined_or_clash(rt: HostRuntime) -> Result<(), Fail> {
    let alloc = rt.alloc();
    for row in JOINED.lines() {
        if let Some((stores, want)) = row.split_once(" => ") {
            if let Some((old, other)) = stores.split_once(" | ") {
                let ours = boxes_of(alloc, old)?;
                let theirs = boxes_of(alloc, other)?;
                let got = joined(alloc, &ours, &theirs)?;
                let want = wanted(alloc, want)?;
                assert_eq!(rt; got.as_str(), want.as_str(), "{row}");
            }
        }
    }
    Ok(())
}

#[test]
fn what_is_reached_is_carried(rt: HostRuntime) -> Result<(), Fail> {
    let alloc = rt.alloc();
    for row in CARRIED.lines() {
        if let Some((store, want)) = row.split_once(" => ") {
            let boxes = boxes_of(alloc, store)?;
            let got = carried(alloc, &boxes)?;
            let want = wanted(alloc, want)?;
            assert_eq!(rt; got.as_str(), want.as_str(), "{row}");
        }
    }
    Ok(())
}
