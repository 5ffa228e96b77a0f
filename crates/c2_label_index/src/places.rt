// Where labels stand first.
ghost use Rattle.std.specs.Prelude.{◌≡◌, ◌++◌, [], ◌∷◌, ℕ, List, Option, Some, OnOk, bytes_eq};
ghost use Rattle.std.specs.Prelude.{length, option_map};
ghost use Rattle.std.specs.Map.{update};
ghost use Rattle.c2_label_index.specs.Places.{kept_place, ArePlaces};

use c2_base::NoMemory;
use std::alloc::Global;
use std::collections::BTreeMap;

/// Labels with the place where each stands first.
#[derive(Drop)]
pub struct Places<'t> {
    pub first: BTreeMap<&'t str, usize>,
}

/// The index of no labels.
pub fn no_places<'t>(alloc: Global) -> Places<'t>
    ensures { ArePlaces [] result }
{
    Places {
        first: BTreeMap::new(alloc),
    }
}

/// The first place of a label. Takes no memory.
pub fn first_place(places: &Places<'_>, label: &str) -> Option<usize>
    ensures { result ≡ kept_place places.now label.now }
{
    places.first.get(label).copied()
}

/// Keeps this place of a label, in the stead of the one that it had.
fn keep<'t>(places: &mut Places<'t>, label: &'t str, place: usize) -> Result<(), NoMemory>
    ensures { OnOk result
        ((other : List ℕ) → kept_place places.new other
        ≡ update bytes_eq (kept_place places.old) label.now (Some place) other) }
{
    places.first.insert(label, place)?;
    Ok(())
}

/// Adds what stands at the next place: a label, or something without one.
pub fn add_place<'t>(
    places: &mut Places<'t>,
    label: Option<&'t str>,
    place: usize,
) -> Result<(), NoMemory>
    ensures { (labels : List (Option (List ℕ))) → ArePlaces labels places.old
        → place ≡ length labels → OnOk result
        (ArePlaces (labels ++ option_map (λ x. x.now) label.entry ∷ []) places.new) }
{
    if let Some(text) = label {
        if first_place(places, text).is_none() {
            keep(places, text, place)?;
        }
    }
    Ok(())
}
