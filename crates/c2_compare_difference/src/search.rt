// The first difference of two chain contents.
ghost use Rattle.std.specs.Prelude.{◌≡◌, ◌<◌, ◌++◌, IfOk, length, option_map};
ghost use Rattle.c2_compare_spec.specs.Differences as form;
ghost use Rattle.c2_rules.specs.CheckList.{active_in};
ghost use Rattle.c2_compare_evidence.specs.Differing.{IsFirstOf};
ghost use Rattle.c2_compare_content.specs.Targets.{equalities};

use crate::pairs::{ingredients_difference, unredacted_difference};
use crate::stores::Stores;
use c2_base::NoMemory;
use c2_check_claim::with_labels;
use c2_compare_content::{Equality, all_equalities, manifest_at, other};
use c2_compare_evidence::Difference;
use c2_read_manifests::{ReadManifest, ReadManifests, is_active, is_reached, label, manifests};
use std::alloc::Global;

/// The active manifest of a store.
pub fn active<'a, 't>(all: &'a ReadManifests<'t>) -> Option<&'a ReadManifest<'t>>
    ensures { option_map (λ k. k.now) result ≡ active_in all.now }
{
    let count = manifests(all).len();
    if count == 0 {
        return None;
    }
    manifests(all).get(count - 1)
}

/// The counterpart of the manifest at a place of the first store.
fn counterpart_at<'a, 't>(
    first: &ReadManifests<'_>,
    second: &'a ReadManifests<'t>,
    n: usize,
) -> Option<&'a ReadManifest<'t>>
    requires { n < length first.now }
    ensures { option_map (λ k. k.now) result ≡ form.counterpart_at first.now second.now n }
{
    let is_last = is_active(first, n);
    if is_last {
        return active(second);
    }
    other(second, label(manifest_at(first, n)))
}

/// What leads from the manifest at a place to its ingredients, where it differs.
fn ingredients_at<'a>(
    alloc: Global,
    first: &'a ReadManifests<'_>,
    second: &'a ReadManifests<'_>,
    known: &[Equality],
    n: usize,
) -> Result<Option<Difference<'a>>, NoMemory>
    requires inside { n < length first.now }
    requires known { known.now ≡ equalities first.now second.now }
    ensures { IfOk result (IsFirstOf (form.ingredients_at first.now second.now n)) }
{
    let reached = is_reached(first, n);
    if !reached {
        return Ok(None);
    }
    match counterpart_at(first, second, n) {
        Some(own) => {
            let left = with_labels(alloc, manifest_at(first, n))?;
            let right = with_labels(alloc, own)?;
            let stores = Stores {
                first,
                second,
                known,
            };
            Ok(ingredients_difference(&stores, &left, &right))
        }
        None => Ok(None),
    }
}

/// What leads to ingredients from all reached manifests, the last manifest first, where it differs.
#[tactic(auto, using(crate::proofs::Found::down_found, crate::proofs::Found::down_passed))]
fn all_ingredients<'a>(
    alloc: Global,
    first: &'a ReadManifests<'_>,
    second: &'a ReadManifests<'_>,
) -> Result<Option<Difference<'a>>, NoMemory>
    ensures { IfOk result (IsFirstOf (form.all_ingredients first.now second.now)) }
{
    let known = all_equalities(alloc, first, second)?;
    for n in (0..manifests(first).len()).rev() {
        let found = ingredients_at(alloc, first, second, known.as_slice(), n)?;
        if let Some(found) = found {
            return Ok(Some(found));
        }
    }
    Ok(None)
}

/// The assertions of the manifest at a place that aren't redacted, where they differ.
fn unredacted_at<'a>(
    alloc: Global,
    first: &'a ReadManifests<'_>,
    second: &'a ReadManifests<'_>,
    n: usize,
) -> Result<Option<Difference<'a>>, NoMemory>
    requires { n < length first.now }
    ensures { IfOk result (IsFirstOf (form.unredacted_at first.now second.now n)) }
{
    let reached = is_reached(first, n);
    if !reached {
        return Ok(None);
    }
    match counterpart_at(first, second, n) {
        Some(own) => {
            let left = with_labels(alloc, manifest_at(first, n))?;
            let right = with_labels(alloc, own)?;
            Ok(unredacted_difference(first, n, &left, &right))
        }
        None => Ok(None),
    }
}

/// The assertions of all reached manifests that aren't redacted, the last manifest first, where they differ.
#[tactic(auto, using(crate::proofs::Found::down_found, crate::proofs::Found::down_passed))]
fn all_unredacted<'a>(
    alloc: Global,
    first: &'a ReadManifests<'_>,
    second: &'a ReadManifests<'_>,
) -> Result<Option<Difference<'a>>, NoMemory>
    ensures { IfOk result (IsFirstOf (form.all_unredacted first.now second.now)) }
{
    for n in (0..manifests(first).len()).rev() {
        let found = unredacted_at(alloc, first, second, n)?;
        if let Some(found) = found {
            return Ok(Some(found));
        }
    }
    Ok(None)
}

/// The first difference of two chain contents: of what leads to ingredients, and then of the assertions that aren't redacted.
pub fn chain_difference<'a>(
    alloc: Global,
    first: &'a ReadManifests<'_>,
    second: &'a ReadManifests<'_>,
) -> Result<Option<Difference<'a>>, NoMemory>
    ensures { let pairs = form.all_ingredients first.now second.now
        ++ form.all_unredacted first.now second.now in
        IfOk result (IsFirstOf pairs) }
{
    let found = all_ingredients(alloc, first, second)?;
    if let Some(found) = found {
        return Ok(Some(found));
    }
    all_unredacted(alloc, first, second)
}
