// The boxes of two stores joined.
ghost use Rattle.std.specs.Prelude.{◌≡◌, ◌++◌, [], ℕ, Err, IfOk, OnOk, length};
ghost use Rattle.c2_spec.specs.C2pa.Manifest.{IsStoreOf};
ghost use Rattle.c2_spec.specs.Jumbf.Tree.{none, trees_bytes};
ghost use Rattle.c2_new_file_spec.specs.Manifests.{supers_in};
ghost use Rattle.c2_new_file_spec.specs.Redacting.{boxes_in, redacted_boxes};
ghost use Rattle.c2_collect_spec.specs.Sides.{ClashFirst, DoNotClash, carried_trees, joined_boxes};
ghost use Rattle.c2_collect.specs.Marked.{flag_at, is_marked, manifests_in};
ghost use Rattle.c2_collect.specs.declared.error.JoinError.TheVariants.{LabelClash};

use crate::appending::{append_both_less, append_one_less, append_with, wanted_count};
use crate::carrying::{carried_of, places_of};
use crate::error::JoinError;
use crate::side::Side;
use c2_base::{Blob, NoMemory};
use c2_jumbf::Tree;
use c2_parent::Redactions;
use c2_store::Store;
use std::alloc::Global;

/// Appends the boxes of a media file's store, and behind them the manifests of another store that are reached there and whose labels it
/// doesn't have, all as they stand. The room for them is reserved first. `LabelClash` names the first manifest of the other store at
/// which the two clash. Where memory runs out some of them may have been appended.
pub fn join_into(
    alloc: Global,
    out: &mut Vec<u8>,
    old: &Side<'_, '_, '_>,
    other: &Side<'_, '_, '_>,
) -> Result<(), JoinError>
    ensures joined { OnOk result (out.new.items ≡ out.old.items
        ++ trees_bytes (joined_boxes old.now.boxes (is_marked other.now) other.now.boxes)) }
    ensures apart { OnOk result (DoNotClash (manifests_in old.now) (is_marked old.now)
        (manifests_in other.now) (is_marked other.now)) }
    ensures clash { (i : ℕ) → result ≡ Err (LabelClash i)
        → ClashFirst (manifests_in old.now) (is_marked old.now) (manifests_in other.now)
        (is_marked other.now) i }
    ensures untouched { (i : ℕ) → result ≡ Err (LabelClash i) → out.new.items ≡ out.old.items }
{
    let places = places_of(alloc, old)?;
    // Matched and not handed up by `?`: a clash has a clause of its own.
    let carried = match carried_of(alloc, old, &places, other) {
        Ok(carried) => carried,
        Err(error) => return Err(error),
    };
    append_with(out, old.boxes(), other, &carried)?;
    Ok(())
}

/// Appends the manifests of a store that are reached, as they stand, where there is no other store. The room for them is reserved first.
/// Where memory runs out some of them may have been appended.
pub fn carry_into(out: &mut Vec<u8>, other: &Side<'_, '_, '_>) -> Result<(), NoMemory>
    ensures { OnOk result (out.new.items ≡ out.old.items
        ++ trees_bytes (joined_boxes none (is_marked other.now) other.now.boxes)) }
{
    append_with(out, &[], other, other.reached())?;
    Ok(())
}

/// Appends the same boxes as `join_into`, each manifest less what is redacted of it, and tells how many manifests of the other store are among
/// them. The room that they take as they stand is reserved first. `LabelClash` names the first manifest of the other store at which the two
/// clash, whatever is redacted. Where memory runs out some of them may have been appended.
pub fn join_less_into<'s>(
    alloc: Global,
    out: &mut Vec<u8>,
    old: &Side<'s, '_, '_>,
    other: &Side<'s, '_, '_>,
    redactions: &Redactions<'s>,
) -> Result<usize, JoinError>
    ensures joined { OnOk result (out.new.items ≡ out.old.items
        ++ trees_bytes (redacted_boxes redactions.now
        (joined_boxes old.now.boxes (is_marked other.now) other.now.boxes))) }
    ensures count { IfOk result (λ n. n ≡ length (carried_trees (manifests_in old.now)
        (is_marked other.now) (manifests_in other.now))) }
    ensures apart { OnOk result (DoNotClash (manifests_in old.now) (is_marked old.now)
        (manifests_in other.now) (is_marked other.now)) }
    ensures clash { (i : ℕ) → result ≡ Err (LabelClash i)
        → ClashFirst (manifests_in old.now) (is_marked old.now) (manifests_in other.now)
        (is_marked other.now) i }
    ensures untouched { (i : ℕ) → result ≡ Err (LabelClash i) → out.new.items ≡ out.old.items }
{
    let places = places_of(alloc, old)?;
    // Matched and not handed up by `?`: a clash has a clause of its own.
    let carried = match carried_of(alloc, old, &places, other) {
        Ok(carried) => carried,
        Err(error) => return Err(error),
    };
    let wanted = carried.as_slice();
    append_both_less(out, old, other, wanted, redactions)?;
    Ok(wanted_count(wanted))
}

/// Appends the same manifests as `carry_into`, each less what is redacted of it, and tells how many they are. The room that they take as they
/// stand is reserved first. Where memory runs out some of them may have been appended.
pub fn carry_less_into<'s>(
    out: &mut Vec<u8>,
    other: &Side<'s, '_, '_>,
    redactions: &Redactions<'s>,
) -> Result<usize, NoMemory>
    ensures joined { OnOk result (out.new.items ≡ out.old.items
        ++ trees_bytes (redacted_boxes redactions.now
        (joined_boxes none (is_marked other.now) other.now.boxes))) }
    ensures count { IfOk result
        (λ n. n ≡ length (carried_trees [] (is_marked other.now) (manifests_in other.now))) }
{
    let wanted = other.reached();
    append_one_less(out, other, wanted, redactions)?;
    Ok(wanted_count(wanted))
}

/// The boxes of a media file's store, and behind them the manifests of another store that are reached there and whose labels it
/// doesn't have, all as they stand. The flags say which manifests are reached. `LabelClash` names the first manifest of the other
/// store at which the two clash.
pub fn join(
    alloc: Global,
    old: &Tree<'_>,
    old_store: &Store,
    old_reached: &[bool],
    other: &Tree<'_>,
    other_store: &Store,
    other_reached: &[bool],
) -> Result<Blob, JoinError>
    requires old { IsStoreOf old.now old_store.now }
    requires other { IsStoreOf other.now other_store.now }
    requires was { length old_reached.now ≡ length old_store.now }
    requires reached { length other_reached.now ≡ length other_store.now }
    ensures joined { IfOk result (λ b. b ≡ trees_bytes (joined_boxes (boxes_in old.now)
        (flag_at other_reached.now) (boxes_in other.now))) }
    ensures apart { OnOk result (DoNotClash (supers_in (boxes_in old.now))
        (flag_at old_reached.now) (supers_in (boxes_in other.now)) (flag_at other_reached.now)) }
    ensures clash { (i : ℕ) → result ≡ Err (LabelClash i)
        → ClashFirst (supers_in (boxes_in old.now)) (flag_at old_reached.now)
        (supers_in (boxes_in other.now)) (flag_at other_reached.now) i }
{
    let ours = Side::new(old, old_store, old_reached);
    let theirs = Side::new(other, other_store, other_reached);
    let mut out = Vec::new(alloc);
    match join_into(alloc, &mut out, &ours, &theirs) {
        Ok(()) => Ok(Blob::from_vec(out)),
        Err(error) => Err(error),
    }
}

/// The manifests of a store that are reached, as they stand, where there is no other store. The flags say which these are.
pub fn carry(
    alloc: Global,
    other: &Tree<'_>,
    other_store: &Store,
    other_reached: &[bool],
) -> Result<Blob, NoMemory>
    requires store { IsStoreOf other.now other_store.now }
    requires reached { length other_reached.now ≡ length other_store.now }
    ensures { IfOk result (λ b. b ≡ trees_bytes (joined_boxes none (flag_at other_reached.now)
        (boxes_in other.now))) }
{
    let theirs = Side::new(other, other_store, other_reached);
    let mut out = Vec::new(alloc);
    carry_into(&mut out, &theirs)?;
    Ok(Blob::from_vec(out))
}
