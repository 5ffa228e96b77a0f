// Whether two chain contents are equal.
ghost use Rattle.std.specs.Prelude.{◌≡◌, ◌<◌, false, true, IfOk, IfSome, Some, bytes_eq, length};
ghost use Rattle.std.specs.Prelude.{slice_get, option_map};
ghost use Rattle.std.specs.List.{list_all};
ghost use Rattle.std.specs.Option.{option_map_or};
ghost use Rattle.c2_compare_spec.specs.ChainContent as content;
ghost use Rattle.c2_compare_spec.specs.Deciding as form;
ghost use Rattle.c2_rules.specs.Chains.{any_below, passes_some};
ghost use Rattle.c2_rules.specs.Readings.{ReadBox, entries_in};
ghost use Rattle.c2_rules.specs.Rules.{box_with};
ghost use Rattle.c2_compare_sameness.specs.Alike.{alike};
ghost use Rattle.c2_compare_sameness.specs.Sides.{gives_listed, gives_named};

use crate::sides::Side;
use c2_base::NoMemory;
use c2_check_claim::{Labelled, entry_at, entry_count, find_box, is_listed, owner, with_labels};
use c2_compare_content::manifest_at;
use c2_read_manifests::{
    AssertionBox, Placed, ReadManifests, claim_bytes, entry_label, is_active, is_reached,
    is_redacted, label, manifests,
};
use c2_spec::Ref;
use std::alloc::Global;

/// The key of the manifest at a place.
fn key_at<'a>(all: &'a ReadManifests<'_>, n: usize) -> &'a str
    requires { n < length all.now }
    ensures { IfSome (slice_get all.now n) (λ r. result.now ≡ content.key_at all.now n r) }
{
    let last = is_active(all, n);
    if last {
        return "";
    }
    label(&manifests(all)[n])
}

/// Whether both lists are there and equal.
fn are_equal(left: Option<&[u8]>, right: Option<&[u8]>) -> bool
    ensures { result ≡ form.are_equal (option_map (λ b. b.now) left.entry)
        (option_map (λ b. b.now) right.entry) }
{
    match left {
        Some(left) => match right {
            Some(right) => left == right,
            None => false,
        },
        None => false,
    }
}

/// Whether the box with this label is there with these contents.
fn has_contents(own: &Labelled<'_, '_>, name: &str, contents: &[u8]) -> bool
    ensures { result ≡ passes_some (λ (b : ReadBox). bytes_eq b.boxed.contents contents.now)
        (box_with own.now name.now) }
{
    match find_box(own, name) {
        Some(found) => found.boxed.contents == contents,
        None => false,
    }
}

/// Whether a manifest has these contents under this label.
fn gives_box(right: &Side<'_, '_, '_>, name: &str, contents: &[u8]) -> bool
    ensures { let at = right.now.at.now in
        result ≡ form.gives_box at.all.now at.place right.now.own.now name.now contents.now }
{
    !is_redacted(right.at.all, right.at.place, name)
        && (is_listed(right.own, name) && has_contents(right.own, name, contents))
}

/// Whether the second manifest has what the first has under this label.
fn gives_label(left: &Side<'_, '_, '_>, right: &Side<'_, '_, '_>, name: &str) -> bool
    ensures { result ≡ gives_named left.now right.now name.now }
{
    is_redacted(left.at.all, left.at.place, name) || gives_found(left.own, right, name)
}

/// The contents of an assertion box.
fn contents<'a>(found: &AssertionBox<'a>) -> &'a [u8]
    ensures { result.now ≡ found.now.boxed.contents }
{
    found.boxed.contents
}

/// Whether the second manifest has the box with this label, where the first has it.
fn gives_found(left: &Labelled<'_, '_>, right: &Side<'_, '_, '_>, name: &str) -> bool
    ensures { let at = right.now.at.now in
        let gives = form.gives_box at.all.now at.place right.now.own.now name.now in
        result ≡ option_map_or (λ (b : ReadBox). gives b.boxed.contents)
        (box_with left.now name.now) true }
{
    match find_box(left, name) {
        Some(found) => gives_box(right, name, contents(found)),
        None => true,
    }
}

/// Whether the second manifest has what the first has under the label that an entry lists.
fn gives_entry(left: &Side<'_, '_, '_>, right: &Side<'_, '_, '_>, entry: &Ref) -> bool
    ensures { result ≡ gives_listed left.now right.now entry.now }
{
    match entry_label(owner(left.own), entry) {
        Some(name) => gives_label(left, right, name),
        None => true,
    }
}

/// Whether the second manifest has what the first has under the labels of all its entries.
#[tactic(auto, using(crate::proofs::Sameness::all_failed, crate::proofs::Sameness::all_passed))]
fn gives_entries(left: &Side<'_, '_, '_>, right: &Side<'_, '_, '_>) -> bool
    ensures { result
        ≡ list_all (gives_listed left.now right.now) (entries_in left.now.own.now) }
{
    for k in 0..entry_count(left.own) {
        let entry = entry_at(left.own, k);
        let gives = gives_entry(left, right, entry);
        if !gives {
            return false;
        }
    }
    true
}

/// Whether the second manifest is reached with the key of the first and its claim bytes.
fn is_alike(left: &Placed<'_, '_>, right: &Placed<'_, '_>) -> bool
    ensures { IfSome (slice_get left.now.all.now left.now.place) (λ r.
        IfSome (slice_get right.now.all.now right.now.place) (λ s.
        result ≡ alike left.now.all.now left.now.place r right.now.all.now right.now.place s)) }
{
    let own = &manifests(left.all)[left.place];
    let other = &manifests(right.all)[right.place];
    is_reached(right.all, right.place)
        && (key_at(right.all, right.place) == key_at(left.all, left.place)
            && are_equal(claim_bytes(own), claim_bytes(other)))
}

/// Whether the manifest at a place of the second store has all that the one at a place of the first has.
fn gives_at(alloc: Global, left: &Placed<'_, '_>, right: &Placed<'_, '_>) -> Result<bool, NoMemory>
    ensures { IfSome (slice_get left.now.all.now left.now.place) (λ r. IfOk result (λ b.
        b ≡ form.gives_at left.now.all.now left.now.place r right.now.all.now right.now.place)) }
{
    let alike = is_alike(left, right);
    if !alike {
        return Ok(false);
    }
    let own = with_labels(alloc, manifest_at(left.all, left.place))?;
    let other = with_labels(alloc, manifest_at(right.all, right.place))?;
    let first = Side {
        at: left,
        own: &own,
    };
    let second = Side {
        at: right,
        own: &other,
    };
    Ok(gives_entries(&first, &second))
}

/// Whether a manifest of the second store has all that the one at a place of the first has.
fn is_given(
    alloc: Global,
    left: &Placed<'_, '_>,
    second: &ReadManifests<'_>,
) -> Result<bool, NoMemory>
    ensures { IfSome (slice_get left.now.all.now left.now.place) (λ r. IfOk result (λ b.
        b ≡ any_below (form.gives_at left.now.all.now left.now.place r second.now)
        (length second.now))) }
{
    for m in (0..manifests(second).len()).rev() {
        let right = Placed {
            all: second,
            place: m,
        };
        let gives = gives_at(alloc, left, &right)?;
        if gives {
            return Ok(true);
        }
    }
    Ok(false)
}

/// Whether the manifest at a place is reached, and no manifest of the second store has all that it has.
fn is_missing(
    alloc: Global,
    first: &ReadManifests<'_>,
    second: &ReadManifests<'_>,
    n: usize,
) -> Result<bool, NoMemory>
    requires { n < length first.now }
    ensures { IfOk result (λ b. b ≡ form.is_missing first.now second.now n) }
{
    let reached = is_reached(first, n);
    if !reached {
        return Ok(false);
    }
    let left = Placed {
        all: first,
        place: n,
    };
    let given = is_given(alloc, &left, second)?;
    Ok(!given)
}

/// Whether the second chain content has all that the first has.
fn is_within(
    alloc: Global,
    first: &ReadManifests<'_>,
    second: &ReadManifests<'_>,
) -> Result<bool, NoMemory>
    ensures { IfOk result (λ b. b ≡ form.is_within first.now second.now) }
{
    for n in (0..manifests(first).len()).rev() {
        let missing = is_missing(alloc, first, second, n)?;
        if missing {
            return Ok(false);
        }
    }
    Ok(true)
}

/// Whether two chain contents are equal, place by place.
///
/// It is asked only of stores with a real difference, which no hash that is in use lets happen: it goes over all pairs of
/// manifests.
pub fn has_same_content(
    alloc: Global,
    first: &ReadManifests<'_>,
    second: &ReadManifests<'_>,
) -> Result<bool, NoMemory>
    ensures { IfOk result (λ b. b ≡ form.has_same_content first.now second.now) }
{
    let forth = is_within(alloc, first, second)?;
    if !forth {
        return Ok(false);
    }
    is_within(alloc, second, first)
}
