// The manifests that ingredients name, which correspond to each other by their labels.
ghost use Rattle.std.specs.Prelude.{◌≡◌, ◌<◌, IfOk, IfSome, Some, length, option_map, slice_get};
ghost use Rattle.c2_compare_spec.specs.Differences as form;
ghost use Rattle.c2_rules.specs.Chains.{label_in};
ghost use Rattle.c2_compare_content.specs.Targets.{equalities, equality_of, other_place};

use c2_base::NoMemory;
use c2_read_manifests::{
    ReadManifest, ReadManifests, claim_bytes as own_claim_bytes, label, manifests, place_of,
};
use std::alloc::Global;

/// Which lists of two manifests are equal.
#[derive(Clone, Copy, Debug)]
pub struct Equality {
    pub signatures: bool,
    pub claims: bool,
    pub contents: bool,
}

/// The manifest at a place.
pub fn manifest_at<'a, 't>(all: &'a ReadManifests<'t>, n: usize) -> &'a ReadManifest<'t>
    requires { n < length all.now }
    ensures { slice_get all.now n ≡ Some result.now }
{
    &manifests(all)[n]
}

/// The bytes of the claim of a manifest that may be missing; none where there is none.
pub fn claim_bytes<'a>(own: Option<&'a ReadManifest<'_>>) -> &'a [u8]
    ensures { result.now ≡ form.claim_list (option_map (λ k. k.now) own.entry) }
{
    match own {
        Some(own) => match own_claim_bytes(own) {
            Some(bytes) => bytes,
            None => &[],
        },
        None => &[],
    }
}

/// The contents of the signature box of a manifest that may be missing; none where there is no box.
pub fn signature_contents<'a>(own: Option<&'a ReadManifest<'_>>) -> &'a [u8]
    ensures { result.now ≡ (form.signature_box (option_map (λ k. k.now) own.entry)).contents }
{
    match own {
        Some(own) => match &own.signature {
            Some(found) => found.contents,
            None => &[],
        },
        None => &[],
    }
}

/// The contents of a manifest that may be missing.
pub fn whole_contents<'a>(own: Option<&'a ReadManifest<'_>>) -> &'a [u8]
    ensures { result.now ≡ form.whole_contents (option_map (λ k. k.now) own.entry) }
{
    match own {
        Some(own) => own.contents,
        None => &[],
    }
}

/// The place of the manifest with this label among those that aren't active.
fn other_among(all: &ReadManifests<'_>, name: &str) -> Option<usize>
    ensures place { result ≡ other_place all.now name.now }
    ensures inside { IfSome result (λ m. m < length all.now) }
{
    let count = manifests(all).len();
    match place_of(all, name) {
        Some(m) => { if m + 1 < count { Some(m) } else { None } }
        None => None,
    }
}

/// The manifest at a place of these.
fn kept_at<'a, 't>(kept: &'a [ReadManifest<'t>], m: usize) -> Option<&'a ReadManifest<'t>>
    ensures { option_map (λ k. k.now) result ≡ slice_get kept.now m }
{
    kept.get(m)
}

/// The manifest with this label among those that aren't active.
pub fn other<'a, 't>(all: &'a ReadManifests<'t>, name: &str) -> Option<&'a ReadManifest<'t>>
    ensures { option_map (λ k. k.now) result ≡ form.other_named all.now name.now }
{
    match other_among(all, name) {
        Some(m) => kept_at(manifests(all), m),
        None => None,
    }
}

/// Which lists of two manifests are equal, where one that is missing has empty ones.
fn compare_manifests(
    target: Option<&ReadManifest<'_>>,
    other: Option<&ReadManifest<'_>>,
) -> Equality
    ensures { result ≡ equality_of (option_map (λ k. k.now) target.entry)
        (option_map (λ k. k.now) other.entry) }
{
    Equality {
        signatures: signature_contents(target) == signature_contents(other),
        claims: claim_bytes(target) == claim_bytes(other),
        contents: whole_contents(target) == whole_contents(other),
    }
}

/// Which lists of a manifest of the first store and the one of the second with its label are equal, where one that is missing has empty
/// lists.
fn own_equality(own: &ReadManifest<'_>, second: &ReadManifests<'_>) -> Equality
    ensures { result ≡ equality_of (Some own.now)
        (form.other_named second.now (label_in own.now)) }
{
    compare_manifests(Some(own), other(second, label(own)))
}

/// Which lists are equal of each manifest of the first store and the one of the second with its label, in the order of the first store: each is
/// compared once.
pub fn all_equalities(
    alloc: Global,
    first: &ReadManifests<'_>,
    second: &ReadManifests<'_>,
) -> Result<Vec<Equality>, NoMemory>
    ensures { IfOk result (λ v. v.items ≡ equalities first.now second.now) }
{
    let found = manifests(first)
        .iter()
        .map(|own| own_equality(own, second))
        .collect(alloc)?;
    Ok(found)
}

/// Which lists are equal of the manifests with this label, where it was found out of all of the first store.
pub fn target_equality(
    first: &ReadManifests<'_>,
    second: &ReadManifests<'_>,
    known: &[Equality],
    name: &str,
) -> Equality
    requires { known.now ≡ equalities first.now second.now }
    ensures { result ≡ equality_of (form.other_named first.now name.now)
        (form.other_named second.now name.now) }
{
    match other_among(first, name) {
        Some(m) => known[m],
        None => compare_manifests(None, other(second, name)),
    }
}
