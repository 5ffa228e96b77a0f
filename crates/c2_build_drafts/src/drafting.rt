// What is to be built in its place.
ghost use Rattle.std.specs.Prelude.{◌≡◌, IfErr, IfOk, List, ℕ};
ghost use Rattle.c2_container.specs.Contained.{IsWithin};
ghost use Rattle.c2_without_store.specs.Clears.{cleared_len};
ghost use Rattle.c2_build_base.specs.Grounds.{IsGround, IsSomeGround};
ghost use Rattle.c2_build_place.specs.PointsLeft.{clearing_for};
ghost use Rattle.c2_build_refusals.specs.Kinds.{IsOlderQuiet, WithoutFault};
ghost use Rattle.c2_build_refusals.specs.Refusals.{Ground};
ghost use Rattle.c2_build_parts.specs.Bound.{IsSmall};
ghost use Rattle.c2_build_drafts.specs.Drafts.{HasEachLen, IsDraftedOver, IsOpenedIn, IsRefusedAt};

use crate::numbers::numbers_of;
use c2_base::NoMemory;
use c2_build_place::find_insert_point;
use c2_build_refusals::{BuildBase, BuildError, Drafted};
use c2_container::Contained;
use c2_definition::Definition;
use std::alloc::Global;

/// What is to be built over a ground, in its place in what is left of a media file that was opened so. The file isn't read.
///
/// These errors come in this order: `NoInstance` or `OpenBox`, where nothing can be put in there; `TooManyManifests` and `StoreTooLarge` of the
/// new store; and `MediaRefused` where the new file would be too long or have too many root boxes. `NoMemory` comes where memory ran out.
pub fn draft_in_place(
    alloc: Global,
    file: &Contained,
    definition: &Definition,
    kept: BuildBase,
) -> Result<Drafted, BuildError>
    requires within { (len : ℕ) × IsWithin len file.now }
    requires clears { kept.clearing ≡ clearing_for file.now }
    ensures passed { IfOk result (λ w. (bytes : List ℕ) (hash : List ℕ → List ℕ) (g : Ground)
        → IsOpenedIn bytes file.now → IsGround hash bytes definition.now kept g
        → IsDraftedOver hash bytes definition.now w g) }
    ensures refused { IfErr result (λ e. (bytes : List ℕ) (hash : List ℕ → List ℕ) (g : Ground)
        → IsOpenedIn bytes file.now → IsGround hash bytes definition.now kept g
        → HasEachLen g → WithoutFault e (IsRefusedAt g e)) }
    ensures small { IfOk result (λ w. (len : ℕ) (hash : List ℕ → List ℕ)
        → IsWithin len file.now → IsSomeGround hash definition.now (clearing_for file.now) kept
        → IsSmall hash (cleared_len w.ground.clearing len) definition.now w) }
    ensures quiet { IfErr result IsOlderQuiet }
{
    let point = match find_insert_point(alloc, file) {
        Ok(point) => point,
        Err(NoMemory) => return Err(BuildError::NoMemory),
    };
    // Matched and not handed up by `?`: each way out has clauses of its own.
    match numbers_of(alloc, definition, &kept, &point) {
        Ok(draft) => Ok(Drafted {
            ground: kept,
            point: point.point,
            draft,
        }),
        Err(error) => Err(error),
    }
}
