// Assertion boxes by their indices in the tree of the store.
ghost use Rattle.std.specs.Prelude.{◌≡◌, ◌<◌, ◌==◌, ℕ, option_map, position};
ghost use Rattle.c2_rules.specs.BoxPlaces as form;
ghost use Rattle.c2_rules.specs.Claims.{chained_of};
ghost use Rattle.c2_rules.specs.Readings.{value_in};
ghost use Rattle.c2_check_facts.specs.Indices.{pair_of};

use c2_read_manifests::{AssertionBox, ReadManifests, boxes, child_of, ingredient, manifests};
use c2_rules::Parsed;
use c2_spec::Ingredient;
use c2_store::{Store, assertions, manifest_count};

/// Where an assertion box stands: the place of its manifest, and its own in the assertion store.
#[derive(Clone, Copy, Debug)]
pub struct Place {
    pub manifest: usize,
    pub index: usize,
}

/// The place of an index among these.
fn place_among(indices: &[usize], at: usize) -> Option<usize>
    ensures { result ≡ position (λ (j : ℕ). j == at) indices.now }
{
    indices.iter().position(|j| *j == at)
}

/// Where the box with this index stands among the assertion boxes of the manifests.
#[tactic(auto, using(crate::proofs::PlaceLemmas::nowhere))]
fn place_of(store: &Store, at: usize) -> Option<Place>
    ensures { option_map pair_of result ≡ form.box_place store.now at }
{
    for i in 0..manifest_count(store) {
        match place_among(assertions(store, i), at) {
            Some(index) => return Some(Place { manifest: i, index }),
            None => {}
        }
    }
    None
}

/// The assertion box at a place.
fn box_at<'c, 't>(all: &'c ReadManifests<'t>, place: &Place) -> Option<&'c AssertionBox<'t>>
    ensures { option_map (λ b. b.now) result ≡ form.box_at_place all.now (pair_of place.now) }
{
    match manifests(all).get(place.manifest) {
        Some(own) => boxes(own).get(place.index),
        None => None,
    }
}

/// The ingredient that an assertion box is read as.
fn read_in<'c>(b: &'c AssertionBox<'_>) -> Option<&'c Ingredient>
    ensures { option_map (λ g. g.now) result ≡ value_in b.now.ingredient }
{
    match ingredient(b) {
        Parsed::Value(g) => Some(g),
        Parsed::NoItem | Parsed::NoForm => None,
    }
}

/// The ingredient that the assertion box with this index is read as.
pub fn ingredient_in<'c>(
    store: &Store,
    all: &'c ReadManifests<'_>,
    at: usize,
) -> Option<&'c Ingredient>
    ensures { option_map (λ g. g.now) result ≡ form.ingredient_at (chained_of store.now all.now)
        at }
{
    let Some(place) = place_of(store, at) else {
        return None;
    };
    match box_at(all, &place) {
        Some(b) => read_in(b),
        None => None,
    }
}

/// The place of the child that the assertion box with this index names.
pub fn child_in(store: &Store, all: &ReadManifests<'_>, at: usize) -> Option<usize>
    ensures { result ≡ form.child_at (chained_of store.now all.now) at }
{
    let Some(place) = place_of(store, at) else {
        return None;
    };
    match box_at(all, &place) {
        Some(b) => child_of(all, place.manifest, b),
        None => None,
    }
}
