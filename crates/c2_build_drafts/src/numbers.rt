// The numbers of a new file over a ground, that are known before anything is digested.
ghost use Rattle.std.specs.Prelude.{◌≡◌, ◌<◌, ◌≤◌, IfErr, IfOk, List, None, OnOk, Some, ℕ};
ghost use Rattle.c2_base.specs.declared.limits.TheConstants as limits;
ghost use Rattle.c2_spec.specs.declared.packets.TheConstants.{LEAST_STORE_LEN};
ghost use Rattle.c2_new_file_spec.specs.Store.{Content};
ghost use Rattle.c2_layout.specs.Parts.{IsContent};
ghost use Rattle.c2_new_file_spec.specs.Places.{IsPlace, Place};
ghost use Rattle.c2_build_refusals.specs.Kinds.{IsOlderQuiet, WithoutFault};
ghost use Rattle.c2_build_refusals.specs.Refusals.{first_refusal, number_tests};
ghost use Rattle.c2_build_refusals.specs.InsertPoints.{IsInsertPoint, IsInsertPointIn};
ghost use Rattle.c2_build_in_place.specs.Numbers.{HasLen, IsDraft, IsToldLen};

use c2_base::NoMemory;
use c2_build_in_place::{blank_binding, draft_at};
use c2_build_place::SizedPoint;
use c2_build_refusals::{BuildBase, BuildError, Draft, InsertPoint};
use c2_definition::Definition;
use c2_layout::{Carried, bound_size};
use std::alloc::Global;

// The length of the new store at this place; 2^64 - 1 where 64 bits can't hold it.
fn store_len(
    alloc: Global,
    definition: &Definition,
    carried: &Carried,
    point: &InsertPoint,
) -> Result<u64, NoMemory>
    ensures len { IfOk result (λ n. (hash : List ℕ → List ℕ) (c : Content)
        → IsContent hash definition.now carried.now c → IsToldLen point.now c n) }
    ensures least { IfOk result (λ n. LEAST_STORE_LEN ≤ n) }
{
    let binding = blank_binding(alloc, definition.alg, point)?;
    bound_size(alloc, definition, carried, &binding)
}

/// The numbers of a new file over a ground, at a place that was found in what is left of the media, where no test on them refuses it.
pub(crate) fn numbers_of(
    alloc: Global,
    definition: &Definition,
    ground: &BuildBase,
    point: &SizedPoint,
) -> Result<Draft, BuildError>
    requires short { point.now.size < limits.FILE_LEN_LIMIT }
    requires inside { IsInsertPointIn point.now.size point.now.point }
    ensures passed { OnOk result ((hash : List ℕ → List ℕ) (c : Content) (base : List ℕ) (p : Place)
        → IsContent hash definition.now ground.now.carried c → IsPlace base p
        → IsInsertPoint point.now.point p
        → first_refusal (number_tests point.now.size ground.now.manifests c p) ≡ None) }
    ensures refused { IfErr result (λ e. (hash : List ℕ → List ℕ) (c : Content) (base : List ℕ)
        (p : Place) → IsContent hash definition.now ground.now.carried c
        → HasLen point.now.point c → IsPlace base p → IsInsertPoint point.now.point p
        → WithoutFault e
        (first_refusal (number_tests point.now.size ground.now.manifests c p) ≡ Some e)) }
    ensures draft { IfOk result (λ f. (hash : List ℕ → List ℕ) (c : Content)
        → IsContent hash definition.now ground.now.carried c
        → IsDraft c point.now.point point.now.size f) }
    ensures quiet { IfErr result IsOlderQuiet }
{
    let len = match store_len(alloc, definition, &ground.carried, &point.point) {
        Ok(len) => len,
        Err(NoMemory) => return Err(BuildError::NoMemory),
    };
    // Matched and not handed up: each way out has clauses of its own.
    match draft_at(&point.point, point.size, ground.manifests, len) {
        Ok(draft) => Ok(draft),
        Err(error) => Err(error),
    }
}
