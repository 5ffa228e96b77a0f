// The C2PA box among the root boxes.
ghost use Rattle.std.specs.Prelude.{◌≡◌, ◌+◌, ◌-◌, ◌<◌, ◌≤◌, length, take, drop, min, All};
ghost use Rattle.std.specs.Prelude.{bytes_eq, is_some, IfOk, IfErr, IfSome, OnOk, Ok, Some};
ghost use Rattle.std.specs.Option.{ForSome};
ghost use Rattle.c2_base.specs.Causes.{HasCause};
ghost use Rattle.c2_base.specs.Source.{StaysSource};
ghost use Rattle.c2_bmff_boxes.specs.Causes.{IsBmffCaused, IsStoreCause, OrBmffFault};
ghost use Rattle.c2_bmff_boxes.specs.Provenance.{first_part, payload_part, store_by};
ghost use Rattle.c2_bmff_rows.specs.Rows.{payload_at, IsRowWithin, IsBoxWithin};
ghost use Rattle.c2_bmff_boxes.specs.Roots.{AreRootsOf};
ghost use Rattle.c2_base.specs.declared.limits.TheConstants.{MAX_STORE_LEN};
ghost use Rattle.c2_bmff_boxes.specs.Search.{FailsBy, IsFoundWithin, IsPartWithin, IsStoreOr};
ghost use Rattle.c2_bmff_boxes.specs.Search.{StepsBy};

use crate::header::{UUID, u32_at, u64_at};
use crate::root_boxes::{Roots, fill_first};
use c2_base::limits::MAX_STORE_LEN;
use c2_base::{Blob, Failed, Found, MediaError, Source, fill_at};
use c2_bmff_rows::RootBox;
use std::alloc::Global;

// The user type of the boxes of C2PA.
pub(crate) const C2PA_USER_TYPE: [u8; 16] = [
    0xD8, 0xFE, 0xC3, 0xD6, 0x1B, 0x0E, 0x48, 0x3C, 0x92, 0x97, 0x58, 0x28, 0x87, 0x7E, 0xC4, 0x81,
];

// Version and flags.
const VERSION: [u8; 4] = [0; 4];

// The purpose of a box that holds a store.
const MANIFEST: [u8; 9] = *b"manifest\0";

// What a root `uuid` box is to the store.
#[derive(Clone, Copy, Debug, PartialEq, Eq)]
pub enum Part {
    // No box of C2PA, or one for another purpose.
    Other,
    // One that hasn't its form.
    Bad,
    // One more with a store.
    Second,
    // One whose store states this length, which is too much.
    TooLarge(u64),
    // One that holds a store of this length.
    Holds(u64),
}

// Whether these bytes stand at a place.
fn stand_at(bytes: &[u8], at: usize, want: &[u8]) -> bool
    requires short { at + length want.now < 64 }
    requires some { 0 < length want.now }
    ensures { result ≡ bytes_eq (take (length want.now) (drop at bytes.now)) want.now }
{
    let end = at + want.len();
    if bytes.len() < end {
        return false;
    }
    &bytes[at..end] == want
}

// The length of the store's box, which begins at place 37, where `left` bytes of the payload are left from there.
#[tactic(auto, unfolding(crate::specs::Provenance::store_by))]
fn store_in(bytes: &[u8], left: u64) -> Option<u64>
    requires first { length bytes.now ≡ min 53 (left + 37) }
    ensures length { result ≡ store_by left bytes.now }
    ensures within { IfSome result (λ n. n ≤ left) }
{
    if left < 8 {
        return None;
    }
    let size = u32_at(bytes, 37);
    if size == 1 {
        if left < 16 {
            return None;
        }
        let total = u64_at(bytes, 45);
        if total < 16 || total > left {
            return None;
        }
        return Some(total);
    }
    let total = size as u64;
    if total < 8 || total > left {
        return None;
    }
    Some(total)
}

// What a `uuid` box is by the first bytes of its payload, which has `len` bytes.
#[tactic(auto, unfolding(crate::specs::Provenance::first_part))]
fn part_of(bytes: &[u8], len: u64, found: bool) -> Part
    requires first { length bytes.now ≡ min 53 len }
    ensures part { result ≡ first_part found len bytes.now }
    ensures within { IsPartWithin len result }
{
    if !stand_at(bytes, 0, &C2PA_USER_TYPE) {
        return Part::Other;
    }
    if !stand_at(bytes, 16, &VERSION) {
        return Part::Bad;
    }
    if !stand_at(bytes, 20, &MANIFEST) {
        return Part::Other;
    }
    if found {
        return Part::Second;
    }
    if len < 37 {
        return Part::Bad;
    }
    match store_in(bytes, len - 37) {
        None => Part::Bad,
        Some(total) if total > MAX_STORE_LEN => Part::TooLarge(total),
        Some(total) => Part::Holds(total),
    }
}

// What the `uuid` box of this row is, where a store was found before or not.
fn part_at<S: Source>(source: &mut S, row: RootBox, found: bool) -> Result<Part, Failed>
    requires inside { row.start + row.length ≤ S.len source.old }
    requires ordered { row.header ≤ row.length }
    ensures part { IfOk result
        (λ p. ForSome (S.known source.old) (λ file. p ≡ payload_part found (payload_at file row))) }
    ensures within { IfOk result (IsPartWithin (row.length - row.header)) }
    ensures stays { StaysSource S.len S.known S.faults source.old source.new }
    ensures cause { HasCause (S.faults source.old) (S.faults source.new) result }
{
    let mut bytes = [0; 53];
    let len = row.length - row.header;
    let count = len.min(53) as usize;
    fill_first(source, row.start + row.header, &mut bytes, count)?;
    Ok(part_of(&bytes[..count], len, found))
}

// The `total` bytes from `pos` on.
fn store_at<S: Source>(
    alloc: Global,
    source: &mut S,
    pos: u64,
    total: u64,
) -> Result<Blob, MediaError>
    requires inside { pos + total ≤ S.len source.old }
    requires small { total ≤ MAX_STORE_LEN }
    ensures bytes { IfOk result
        (λ b. ForSome (S.known source.old) (λ file. b ≡ take total (drop pos file))) }
    ensures length { IfOk result (λ b. length b ≡ total) }
    ensures stays { StaysSource S.len S.known S.faults source.old source.new }
    ensures count { OnOk result (S.faults source.new ≡ S.faults source.old) }
    ensures cause { IfErr result (IsBmffCaused (S.faults source.old) (S.faults source.new)) }
    ensures outside { IfErr result (λ e. OrBmffFault e ⊥) }
{
    let mut bytes = match vec![in alloc; 0; total as usize] {
        Ok(bytes) => bytes,
        Err(_) => return Err(MediaError::NoMemory),
    };
    fill_at(source, pos, &mut bytes)?;
    Ok(Blob::from_vec(bytes))
}

// Passes the `uuid` box of this row; `found` is the store that was found before, and then with this one.
fn step<S: Source>(
    alloc: Global,
    source: &mut S,
    row: RootBox,
    found: &mut Option<Found>,
) -> Result<(), MediaError>
    requires inside { row.start + row.length ≤ S.len source.old }
    requires ordered { row.header ≤ row.length }
    requires header { 8 ≤ row.header }
    requires before { IfSome found.old (IsFoundWithin (S.len source.old)) }
    ensures steps { OnOk result (ForSome (S.known source.old) (λ file.
        StepsBy (payload_part (is_some found.old) (payload_at file row)) row
        (payload_at file row) found.old found.new)) }
    ensures fails { IfErr result (λ e. ForSome (S.known source.old) (λ file.
        OrBmffFault e (FailsBy (payload_part (is_some found.old) (payload_at file row)) row e))) }
    ensures after { IfSome found.new (IsFoundWithin (S.len source.old)) }
    ensures stays { StaysSource S.len S.known S.faults source.old source.new }
    ensures count { OnOk result (S.faults source.new ≡ S.faults source.old) }
    ensures cause { IfErr result
        (IsStoreCause (S.len source.old) (S.faults source.old) (S.faults source.new)) }
{
    match part_at(source, row, found.is_some())? {
        Part::Other => Ok(()),
        Part::Bad => Err(MediaError::BadProvenanceBox(row.start)),
        Part::Second => Err(MediaError::TwoStores(row.start)),
        Part::TooLarge(total) => Err(MediaError::StoreTooLarge(total)),
        Part::Holds(total) => {
            // Matched and not handed up by `?`, here and below: each way out has clauses of its own.
            let store = match store_at(alloc, source, row.start + row.header + 37, total) {
                Ok(store) => store,
                Err(error) => return Err(error),
            };
            *found = Some(Found {
                start: row.start,
                length: row.length,
                store,
            });
            Ok(())
        }
    }
}

// The store among the root boxes of these rows.
fn search<S: Source>(
    alloc: Global,
    source: &mut S,
    rows: &[RootBox],
) -> Result<Option<Found>, MediaError>
    requires inside { All (IsRowWithin (S.len source.old)) rows.now }
    ensures found { ForSome (S.known source.old)
        (λ file. AreRootsOf file rows.now → IsStoreOr file result) }
    ensures within { IfOk result (λ found. IfSome found (IsFoundWithin (S.len source.old))) }
    ensures stays { StaysSource S.len S.known S.faults source.old source.new }
    ensures count { OnOk result (S.faults source.new ≡ S.faults source.old) }
    ensures cause { IfErr result
        (IsStoreCause (S.len source.old) (S.faults source.old) (S.faults source.new)) }
{
    let mut found = None;
    for row in rows {
        if row.kind == UUID {
            match step(alloc, source, *row, &mut found) {
                Ok(()) => {}
                Err(error) => return Err(error),
            }
        }
    }
    Ok(found)
}

/// The C2PA store among these root boxes, which are those of the source: its box's range and its bytes; `None` where no box has one
/// (C2PA Technical Specification 2.x, "Embedding manifests into BMFF-based assets").
///
/// The errors are the first test that fails, by C2PA boxes in order: [`MediaError::BadProvenanceBox`], [`MediaError::TwoStores`],
/// [`MediaError::StoreTooLarge`], with the place where the box begins or the length that the store states, also where the source tells no
/// bytes. [`MediaError::ReadFault`] comes only where the source failed, [`MediaError::NoMemory`] where memory ran out.
pub fn locate<S: Source>(
    alloc: Global,
    source: &mut S,
    roots: &Roots,
) -> Result<Option<Found>, MediaError>
    requires inside { All (IsBoxWithin (S.len source.old)) roots.now }
    ensures found { ForSome (S.known source.old)
        (λ file. AreRootsOf file roots.now → IsStoreOr file result) }
    ensures within { IfOk result (λ found. IfSome found (IsFoundWithin (S.len source.old))) }
    ensures stays { StaysSource S.len S.known S.faults source.old source.new }
    ensures count { OnOk result (S.faults source.new ≡ S.faults source.old) }
    ensures cause { IfErr result
        (IsStoreCause (S.len source.old) (S.faults source.old) (S.faults source.new)) }
{
    search(alloc, source, roots.as_slice())
}
