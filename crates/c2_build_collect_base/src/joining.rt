// The boxes that stand before the new manifest.
ghost use Rattle.std.specs.Prelude.{◌≡◌, ◌+◌, ◌<◌, ◌≤◌, ℕ, List, [], IfErr, IfOk, Some, length};
ghost use Rattle.std.specs.Prelude.{slice_get};
ghost use Rattle.c2_spec.specs.Jumbf.Tree.{none};
ghost use Rattle.c2_collect.specs.Marked.{box_labels, manifests_in};
ghost use Rattle.c2_build_refusals.specs.Kinds.{WithoutFault};
ghost use Rattle.c2_build_refusals.specs.declared.error.BuildError.TheVariants.{LabelClash};
ghost use Rattle.c2_build_collect_base.specs.Steps.{AreJoined, IsClashError, IsInner, IsReadOrNone};
ghost use Rattle.c2_build_collect_base.specs.Steps.{IsReadStore, boxes_of, old_boxes, old_readings};
ghost use Rattle.c2_build_collect_base.specs.Steps.{readings_of};

use crate::stores::{ReadStore, flags_of};
use c2_base::{Blob, NoMemory, Text};
use c2_build_refusals::BuildError;
use c2_chain::labels_of_a_store_differ;
use c2_collect::{JoinError, Side, carry_less_into, join_less_into};
use c2_jumbf::count;
use c2_parent::Redactions;
use std::alloc::Global;

/// Boxes that stand before a new manifest.
#[derive(Drop)]
pub(crate) struct JoinedBoxes {
    /// The boxes, one after the other.
    pub(crate) boxes: Blob,

    /// How many manifests the boxes are with the new one.
    pub(crate) manifests: u64,
}

// How many manifests a new store has, where one store has a flag for each and so many of the other's are carried.
fn manifests_with(ours: &[bool], theirs: &[bool], carried: usize) -> u64
    requires { carried ≤ length theirs.now }
    ensures { result ≡ length ours.now + carried + 1 }
{
    // Only the prover needs this: so many fit into memory.
    let _most = theirs.len();
    ours.len() as u64 + carried as u64 + 1
}

// The manifests that are carried of the other file, where the media file has no store, each less what is redacted of it.
fn carried<'s>(
    alloc: Global,
    theirs: &ReadStore<'s, '_, '_>,
    redactions: &Redactions<'s>,
) -> Result<JoinedBoxes, NoMemory>
    requires { IsReadStore theirs.now }
    ensures { IfOk result (AreJoined redactions.now none [] (boxes_of theirs.now)
        (readings_of theirs.now)) }
{
    // Only the prover needs this law, and the count: it takes from here that the tree is legal.
    labels_of_a_store_differ();
    let _boxes = count(&theirs.older.tree);
    let flags = flags_of(alloc, theirs.chain)?;
    let reached = flags.as_slice();
    let side = Side::new(&theirs.older.tree, &theirs.older.store, reached);
    let mut out = Vec::new(alloc);
    let carried = carry_less_into(&mut out, &side, redactions)?;
    Ok(JoinedBoxes {
        boxes: Blob::from_vec(out),
        manifests: manifests_with(&[], reached, carried),
    })
}

// The error of a clash at this manifest of a store.
fn clash_at(alloc: Global, side: &Side<'_, '_, '_>, i: usize) -> BuildError
    requires { i < length (manifests_in side.now) }
    ensures told { WithoutFault result ((label : List ℕ)
        × (slice_get (box_labels (manifests_in side.now)) i ≡ Some (Some label))
        × (result ≡ LabelClash label)) }
    ensures inner { IsInner result }
{
    match Text::copied(alloc, side.label(i)) {
        Ok(label) => BuildError::LabelClash(label),
        Err(_) => BuildError::NoMemory,
    }
}

// The boxes of the media file's store, and behind them the manifests that are carried of the other file, each less what is redacted of it.
fn joined<'s>(
    alloc: Global,
    ours: &ReadStore<'s, '_, '_>,
    theirs: &ReadStore<'s, '_, '_>,
    redactions: &Redactions<'s>,
) -> Result<JoinedBoxes, BuildError>
    requires ours { IsReadStore ours.now }
    requires theirs { IsReadStore theirs.now }
    ensures joined { IfOk result (AreJoined redactions.now (boxes_of ours.now)
        (readings_of ours.now) (boxes_of theirs.now) (readings_of theirs.now)) }
    ensures clash { IfErr result (λ e. WithoutFault e (IsClashError (boxes_of ours.now)
        (readings_of ours.now) (boxes_of theirs.now) (readings_of theirs.now) e)) }
    ensures inner { IfErr result IsInner }
{
    // Only the prover needs this law, and the counts: it takes from here that the trees are legal.
    labels_of_a_store_differ();
    let _boxes = count(&ours.older.tree);
    let _their_boxes = count(&theirs.older.tree);
    let our_flags = flags_of(alloc, ours.chain)?;
    let their_flags = flags_of(alloc, theirs.chain)?;
    let was = our_flags.as_slice();
    let reached = their_flags.as_slice();
    let old = Side::new(&ours.older.tree, &ours.older.store, was);
    let other = Side::new(&theirs.older.tree, &theirs.older.store, reached);
    let mut out = Vec::new(alloc);
    let error = match join_less_into(alloc, &mut out, &old, &other, redactions) {
        Ok(carried) => {
            return Ok(JoinedBoxes {
                boxes: Blob::from_vec(out),
                manifests: manifests_with(was, reached, carried),
            });
        }
        Err(error) => error,
    };
    match error {
        JoinError::LabelClash(i) => Err(clash_at(alloc, &other, i)),
        JoinError::NoMemory => Err(BuildError::NoMemory),
    }
}

/// The boxes that stand before the new manifest: those of the media file's store, where it has one, and behind them the manifests that are
/// carried of the other file, each less what is redacted of it. `LabelClash` comes where the two stores clash.
pub(crate) fn joined_boxes<'s>(
    alloc: Global,
    ours: &Option<ReadStore<'s, '_, '_>>,
    theirs: &ReadStore<'s, '_, '_>,
    redactions: &Redactions<'s>,
) -> Result<JoinedBoxes, BuildError>
    requires ours { IsReadOrNone ours.now }
    requires theirs { IsReadStore theirs.now }
    ensures joined { IfOk result (AreJoined redactions.now (old_boxes ours.now)
        (old_readings ours.now) (boxes_of theirs.now) (readings_of theirs.now)) }
    ensures clash { IfErr result (λ e. WithoutFault e (IsClashError (old_boxes ours.now)
        (old_readings ours.now) (boxes_of theirs.now) (readings_of theirs.now) e)) }
    ensures inner { IfErr result IsInner }
{
    match ours {
        Some(ours) => joined(alloc, ours, theirs, redactions),
        None => match carried(alloc, theirs, redactions) {
            Ok(joined) => Ok(joined),
            Err(NoMemory) => Err(BuildError::NoMemory),
        },
    }
}
