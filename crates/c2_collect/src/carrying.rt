// Which manifests of a store are carried behind the boxes of another.
ghost use Rattle.std.specs.Prelude.{◌≡◌, ◌<◌, ◌++◌, ◌∷◌, ◌&&◌, [], ℕ, Err, IfOk, OnOk, bytes_eq};
ghost use Rattle.std.specs.Prelude.{length};
ghost use Rattle.c2_collect_spec.specs.Sides.{ClashFirst};
ghost use Rattle.c2_collect.specs.Marked.{is_marked, manifests_in};
ghost use Rattle.c2_collect.specs.Carried.{AreCarried, FindsLabels, IsFound, IsShared};
ghost use Rattle.c2_collect.specs.declared.error.JoinError.TheVariants.{LabelClash};

use crate::error::JoinError;
use crate::side::Side;
use c2_base::NoMemory;
use c2_label_index::{Places, add_place, first_place, no_places};
use std::alloc::Global;

/// Where the labels of a store's manifests stand.
pub fn places_of<'s>(alloc: Global, side: &Side<'s, '_, '_>) -> Result<Places<'s>, NoMemory>
    ensures { IfOk result (FindsLabels (manifests_in side.now)) }
{
    let mut places = no_places(alloc);
    for i in 0..side.len() {
        add_place(&mut places, Some(side.label(i)), i)?;
    }
    Ok(places)
}

/// Whether this manifest is reached, and has the bytes of another.
fn is_same(is_reached: bool, ours: &[u8], theirs: &[u8]) -> bool
    ensures { result ≡ (is_reached && bytes_eq ours.now theirs.now) }
{
    is_reached && ours == theirs
}

/// Whether a manifest of the one store is reached there, and has the bytes of one of the other.
fn is_shared(old: &Side<'_, '_, '_>, at: usize, other: &Side<'_, '_, '_>, i: usize) -> bool
    requires ours { at < length (manifests_in old.now) }
    requires theirs { i < length (manifests_in other.now) }
    ensures { IsShared old.now other.now at i result }
{
    let ours = old.manifest(at);
    let theirs = other.manifest(i);
    is_same(old.is_reached(at), ours, theirs)
}

/// Whether the manifest at a place of the other store is carried; none where the stores clash at it.
fn is_carried(
    old: &Side<'_, '_, '_>,
    places: &Places<'_>,
    other: &Side<'_, '_, '_>,
    i: usize,
) -> Option<bool>
    requires places { FindsLabels (manifests_in old.now) places.now }
    requires inside { i < length (manifests_in other.now) }
    ensures { IsFound old.now other.now i result }
{
    if !other.is_reached(i) {
        return Some(false);
    }
    let Some(at) = first_place(places, other.label(i)) else {
        return Some(true);
    };
    if is_shared(old, at, other, i) {
        return Some(false);
    }
    None
}

/// One flag more.
fn push_flag(flags: &mut Vec<bool>, flag: bool) -> Result<(), NoMemory>
    ensures { OnOk result (flags.new.items ≡ flags.old.items ++ flag ∷ []) }
{
    flags.push(flag)?;
    Ok(())
}

/// Which manifests of the other store are carried.
pub fn carried_of(
    alloc: Global,
    old: &Side<'_, '_, '_>,
    places: &Places<'_>,
    other: &Side<'_, '_, '_>,
) -> Result<Vec<bool>, JoinError>
    requires { FindsLabels (manifests_in old.now) places.now }
    ensures carried { IfOk result (λ flags. AreCarried old.now other.now flags.items
        (length (manifests_in other.now))) }
    ensures clash { (i : ℕ) → result ≡ Err (LabelClash i)
        → ClashFirst (manifests_in old.now) (is_marked old.now) (manifests_in other.now)
        (is_marked other.now) i }
{
    let mut flags = Vec::new(alloc);
    for i in 0..other.len() {
        let Some(flag) = is_carried(old, places, other, i) else {
            return Err(JoinError::LabelClash(i));
        };
        push_flag(&mut flags, flag)?;
    }
    Ok(flags)
}
