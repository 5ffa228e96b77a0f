// The numbers of a new file, that are known before anything is digested.
ghost use Rattle.std.specs.Prelude.{◌≡◌, ℕ, ◌<◌, ◌≤◌, List, IfErr, IfOk, None, Some, OnOk};
ghost use Rattle.c2_base.specs.declared.limits.TheConstants as limits;
ghost use Rattle.c2_spec.specs.Digest.{zero_digest};
ghost use Rattle.c2_spec.specs.Jpeg.Writing as jpeg;
ghost use Rattle.c2_spec.specs.declared.packets.TheConstants.{LEAST_STORE_LEN};
ghost use Rattle.c2_new_file_spec.specs.Store.{Content};
ghost use Rattle.c2_new_file_spec.specs.Places.{IsPlace, Place};
ghost use Rattle.c2_build_refusals.specs.Kinds.{IsOlderQuiet, IsQuiet};
ghost use Rattle.c2_build_refusals.specs.Refusals.{box_tests, first_refusal, number_tests};
ghost use Rattle.c2_build_refusals.specs.Refusals.{place_tests};
ghost use Rattle.c2_build_refusals.specs.InsertPoints.{IsInsertPoint, IsInsertPointIn};
ghost use Rattle.c2_build_parts.specs.Bound.{point_binding, point_range_len, point_store_len};
ghost use Rattle.c2_build_in_place.specs.Numbers.{HasLen, IsDraft, IsFitted, IsToldLen};

use c2_base::limits::{FILE_LEN_LIMIT, MAX_MANIFESTS, MAX_ROOT_BOXES, MAX_STORE_LEN};
use c2_base::{MediaError, NoMemory, Range};
use c2_bmff_boxes::insert_place;
use c2_build_parts::binding_at;
use c2_build_refusals::{BuildError, Draft, InsertPoint, Put};
use c2_definition::NewAssertion;
use c2_hash::{Alg, Digest};
use c2_jpegseg::segments_len;
use c2_spec::Reason;
use std::alloc::Global;

// How many bytes the C2PA box of a store has before the store.
const BOX_FRAME_LEN: u64 = 45;

// What stands for a range that isn't known yet.
const NO_RANGE: Range = Range {
    start: 0,
    length: 0,
};

/// The new binding at this place with no range and a digest of zero bytes: it has as many bytes as each new binding by this algorithm there.
/// `NoMemory` comes where memory ran out.
pub fn blank_binding(alloc: Global, alg: Alg, point: &InsertPoint) -> Result<NewAssertion, NoMemory>
    ensures { IfOk result (λ a. a ≡ point_binding alg point.now 0 0 (zero_digest alg)) }
{
    let blank = Digest::zeros(alg);
    binding_at(alloc, alg, point, NO_RANGE, &blank)
}

// The place of the first byte that is put in, and what is put in, where something can be put in at this place.
fn put_at(point: &InsertPoint) -> Result<(u64, Put), BuildError>
    ensures passed { IfOk result (λ r. (base : List ℕ) (p : Place) → IsPlace base p
        → IsInsertPoint point.now p → IsFitted r.0 r.1 p) }
    ensures refused { IfErr result (λ e. (base : List ℕ) (p : Place) → IsPlace base p
        → IsInsertPoint point.now p → first_refusal (place_tests p) ≡ Some e) }
    ensures inside { IfOk result (λ r. (len : ℕ) → IsInsertPointIn len point.now → r.0 ≤ len) }
    ensures quiet { IfErr result IsOlderQuiet }
{
    match point {
        InsertPoint::Segments { start, number } => match number {
            Some(number) => Ok((*start, Put::Packets(*number))),
            None => Err(BuildError::NoInstance),
        },
        InsertPoint::Boxes(roots) => match insert_place(roots, None) {
            Ok(start) => Ok((start, Put::Box)),
            Err(error) => match error {
                MediaError::BadBox(at) => Err(BuildError::OpenBox(at)),
                _ => unreachable!(),
            },
        },
    }
}

// How many bytes are put in of a store of so many.
fn range_len(point: &InsertPoint, store_len: u64) -> u64
    requires { jpeg.IsStoreLen store_len }
    ensures len { (c : Content) → point_store_len point.now c ≡ store_len
        → result ≡ point_range_len point.now c }
    ensures small { result < limits.FILE_LEN_LIMIT }
{
    match point {
        InsertPoint::Segments { .. } => segments_len(store_len),
        InsertPoint::Boxes(_) => BOX_FRAME_LEN + store_len,
    }
}

// Refuses a file that has as many root boxes as it may have.
fn check_boxes(point: &InsertPoint) -> Result<(), BuildError>
    ensures passed { OnOk result ((p : Place) → IsInsertPoint point.now p
        → first_refusal (box_tests p) ≡ None) }
    ensures refused { IfErr result (λ e. (p : Place) → IsInsertPoint point.now p
        → first_refusal (box_tests p) ≡ Some e) }
    ensures quiet { IfErr result IsQuiet }
{
    match point {
        InsertPoint::Segments { .. } => Ok(()),
        InsertPoint::Boxes(roots) => {
            if roots.as_slice().len() as u64 >= MAX_ROOT_BOXES {
                return Err(BuildError::MediaRefused(Reason::TooManyBoxes, MAX_ROOT_BOXES));
            }
            Ok(())
        }
    }
}

/// The numbers of a new file at a place that was found in a base of so many bytes, with a store of so many manifests and of so many bytes,
/// as 64 bits tell it, where no test on them refuses it.
///
/// In this order: `NoInstance` or `OpenBox`, where nothing can be put in; `TooManyManifests` and `StoreTooLarge` of the store; and
/// `MediaRefused` where the new file would be too long or have too many root boxes. No other error comes, as no memory is taken. The greatest
/// number of 64 bits stands for each length that is no less: it is refused like any other that is too large.
pub fn draft_at(
    point: &InsertPoint,
    size: u64,
    manifests: u64,
    store_len: u64,
) -> Result<Draft, BuildError>
    requires short { size < limits.FILE_LEN_LIMIT }
    requires inside { IsInsertPointIn size point.now }
    requires least { LEAST_STORE_LEN ≤ store_len }
    ensures passed { OnOk result ((c : Content) (base : List ℕ) (p : Place)
        → IsToldLen point.now c store_len → IsPlace base p → IsInsertPoint point.now p
        → first_refusal (number_tests size manifests c p) ≡ None) }
    ensures refused { IfErr result (λ e. (c : Content) (base : List ℕ) (p : Place)
        → IsToldLen point.now c store_len → HasLen point.now c → IsPlace base p
        → IsInsertPoint point.now p
        → first_refusal (number_tests size manifests c p) ≡ Some e) }
    ensures draft { IfOk result (λ f. (c : Content) → IsToldLen point.now c store_len
        → IsDraft c point.now size f) }
    ensures quiet { IfErr result IsOlderQuiet }
{
    // Matched and not handed up by `?`, here and below: each way out has clauses of its own.
    let (start, put) = match put_at(point) {
        Ok(at) => at,
        Err(error) => return Err(error),
    };
    if manifests > MAX_MANIFESTS as u64 {
        return Err(BuildError::TooManyManifests(manifests));
    }
    if store_len > MAX_STORE_LEN {
        return Err(BuildError::StoreTooLarge(store_len));
    }
    let length = range_len(point, store_len);
    let file_len = size + length;
    if file_len >= FILE_LEN_LIMIT {
        return Err(BuildError::MediaRefused(Reason::FileTooLarge, file_len));
    }
    match check_boxes(point) {
        Ok(()) => Ok(Draft {
            start,
            length,
            size,
            put,
        }),
        Err(error) => Err(error),
    }
}
