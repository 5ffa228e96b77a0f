// Where the manifests stand that ingredients name.
ghost use Rattle.std.specs.Prelude.{◌≡◌, ◌<◌, IfOk, length, filter_map, option_and_then};
ghost use Rattle.std.specs.Prelude.{option_map, Some};
ghost use Rattle.c2_spec.specs.C2pa.Assertion.{manifest_named};
ghost use Rattle.c2_rules.specs.Chains as form;
ghost use Rattle.c2_rules.specs.declared.parsed.Parsed.TheVariants.{Value};

use crate::kept::{AssertionBox, boxes, ingredient};
use crate::labelled::{Manifests, kept, place_among};
use c2_base::NoMemory;
use c2_rules::Parsed;
use c2_spec::Ingredient;
use c2_uri::{Target, parse};
use std::alloc::Global;

/// The label of the manifest that a URI names as a whole.
pub fn named(url: &str) -> Option<&str>
    ensures { option_map (λ m. m.now) result ≡ manifest_named url.now }
{
    match parse(url) {
        Some(uri) => match uri.target {
            Target::Whole => uri.manifest,
            Target::Assertion(_) | Target::Signature | Target::Other(_) => None,
        },
        None => None,
    }
}

/// The place of the manifest with this label, where it stands before place `n`.
fn place_before(all: &Manifests<'_>, n: usize, name: &str) -> Option<usize>
    ensures { result ≡ form.place_before n (form.place_of all.now name.now) }
{
    match place_among(all, name) {
        Some(m) => { if m < n { Some(m) } else { None } }
        None => None,
    }
}

/// The place of the child that an ingredient of the manifest at `n` names.
fn child_named(all: &Manifests<'_>, n: usize, g: &Ingredient) -> Option<usize>
    ensures { result ≡ form.place_before n
        (option_and_then (form.place_of all.now) (form.named_by (Some g.now))) }
{
    let Some(manifest) = &g.manifest else {
        return None;
    };
    match named(manifest.url.as_str()) {
        Some(name) => place_before(all, n, name),
        None => None,
    }
}

/// The place of the child that this box of the manifest at `n` names.
pub fn child_among(all: &Manifests<'_>, n: usize, b: &AssertionBox<'_>) -> Option<usize>
    ensures { result ≡ form.child_of all.now n b.now }
{
    match ingredient(b) {
        Parsed::Value(g) => child_named(all, n, g),
        Parsed::NoItem | Parsed::NoForm => None,
    }
}

/// The places of the children that these boxes of the manifest at `n` name.
fn children_of(
    alloc: Global,
    all: &Manifests<'_>,
    n: usize,
    boxes: &[AssertionBox<'_>],
) -> Result<Vec<usize>, NoMemory>
    ensures { IfOk result (λ v. v.items ≡ filter_map (form.child_of all.now n) boxes.now) }
{
    let found = boxes
        .iter()
        .filter_map(|b| child_among(all, n, b))
        .collect(alloc)?;
    Ok(found)
}

/// The places of the children of the manifest at `n`, box by box.
pub fn children_among(alloc: Global, all: &Manifests<'_>, n: usize) -> Result<Vec<usize>, NoMemory>
    requires { n < length all.now }
    ensures { IfOk result (λ v. v.items ≡ form.children all.now n) }
{
    let found = children_of(alloc, all, n, boxes(&kept(all)[n]))?;
    Ok(found)
}
