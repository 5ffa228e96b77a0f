// What is to be built in front of a film, by what is known before anything is digested.
ghost use Rattle.std.specs.Prelude.{◌≡◌, ℕ, ◌+◌, ◌<◌, ◌≤◌, ◌^◌, All, [], List, None, IfErr, IfOk};
ghost use Rattle.std.specs.Prelude.{OnOk, length, option_map};
ghost use Rattle.std.specs.Option.{ForSome, option_to_list};
ghost use Rattle.c2_base.specs.Source.{ReadsSource};
ghost use Rattle.c2_bmff_rows.specs.Rows.{IsBoxWithin, rows_of};
ghost use Rattle.c2_new_file_spec.specs.Refusing.{redaction_refusal};
ghost use Rattle.c2_definition.specs.DefinitionFile.{IsWellFormed};
ghost use Rattle.c2_bmff_binding_front.specs.Putting.{FitsIn};
ghost use Rattle.c2_new_front_spec.specs.InFront.{front_place, open_first};
ghost use Rattle.c2_new_front_spec.specs.Order.{open_box, plan_refusals, redaction_refused};
ghost use Rattle.c2_new_front_spec.specs.Order.{size_refusals};
ghost use Rattle.c2_build_base.specs.Grounds.{IsKind, IsReadIn};
ghost use Rattle.c2_build_refusals.specs.Kinds.{IsQuiet, WithoutFault};
ghost use Rattle.c2_build_refusals.specs.Stages.{MediaKind};
ghost use Rattle.c2_spec.specs.Bmff.Boxes.{Box, HasRoots};
ghost use Rattle.c2_build_front.specs.Steps.{HasSize, IsDrafted, IsDraftedOver, IsFirstError};
ghost use Rattle.c2_build_front.specs.Steps.{IsPlanStep, IsRefusedOver, IsSized, box_len};
ghost use Rattle.c2_build_front.specs.Steps.{error_of_shift, store_size};

use crate::sizes::{check_sizes, small_store_len};
use c2_base::{Failed, NoMemory, Source};
use c2_bmff_binding_front::{FRAME_LEN, Front};
use c2_bmff_boxes::types::Roots;
use c2_build_base::MediaRead;
use c2_build_refusals::BuildError;
use c2_definition::Definition;
use c2_parent::refused_without_store;
use c2_shift::{ShiftError, check_shift, tables};
use c2_validate::Container;
use std::alloc::Global;

/// The sizes of a new store and of the media.
#[derive(Clone, Copy, Debug)]
pub(crate) struct Sizes {
    /// How many bytes the new store has.
    pub(crate) store_len: u64,

    /// How many bytes the media has.
    pub(crate) size: u64,
}

// The error of a build that an error of a shift is.
fn shift_error(error: ShiftError) -> BuildError
    ensures { result ≡ error_of_shift error }
{
    match error {
        ShiftError::OffsetTable(at) => BuildError::OffsetTable(at),
        ShiftError::BadTree(at) => BuildError::BadTree(at),
        ShiftError::BadTable(at) => BuildError::BadTable(at),
        ShiftError::Overflow(at) => BuildError::Overflow(at),
        ShiftError::ReadFault => BuildError::ReadFault,
        ShiftError::NoMemory => BuildError::NoMemory,
    }
}

// Where the first root box ends, which says its size; it begins where the file does.
fn first_end(roots: &Roots) -> Result<u64, BuildError>
    ensures passed { IfOk result (λ at. (file : List ℕ) (boxes : List Box) → HasRoots file boxes
        → roots.now ≡ rows_of boxes → (open_first boxes ≡ None) × (at ≡ front_place boxes)) }
    ensures refused { IfErr result (λ e. (boxes : List Box) → roots.now ≡ rows_of boxes
        → IsFirstError (option_to_list (option_map open_box (open_first boxes))) e) }
    ensures inside { IfOk result (λ at. (len : ℕ) → All (IsBoxWithin len) roots.now
        → at ≤ len) }
    ensures quiet { IfErr result IsQuiet }
{
    match roots.as_slice() {
        [] => Ok(0),
        [first, ..] => {
            if first.to_end {
                return Err(BuildError::OpenBox(0));
            }
            Ok(first.length)
        }
    }
}

// Refuses the first redaction: there is no older store.
fn check_redactions(alloc: Global, definition: &Definition) -> Result<(), BuildError>
    ensures passed { OnOk result
        (redaction_refusal definition.now.label [] definition.now.redact ≡ None) }
    ensures refused { IfErr result (λ e. WithoutFault e (IsFirstError
        (option_to_list (option_map redaction_refused
        (redaction_refusal definition.now.label [] definition.now.redact))) e)) }
    ensures quiet { IfErr result IsQuiet }
{
    let own = definition.label.as_str();
    match refused_without_store(alloc, own, definition.redact.as_slice()) {
        Ok(None) => Ok(()),
        Ok(Some(refused)) => Err(BuildError::RedactionRefused(refused.text, refused.code)),
        Err(NoMemory) => Err(BuildError::NoMemory),
    }
}

// The sizes of what is to be built over a media file with so many root boxes, where none is too large.
fn sized<A: Source>(
    alloc: Global,
    media: &mut A,
    boxes: usize,
    definition: &Definition,
) -> Result<Sizes, BuildError>
    ensures sized { IfOk result (IsSized (A.len media.old) definition.now) }
    ensures passed { IfOk result (λ s. ForSome (A.known media.old) (λ file.
        size_refusals (store_size definition.now) (length file + box_len definition.now) boxes
        ≡ [])) }
    ensures refused { IfErr result (λ e. ForSome (A.known media.old) (λ file.
        length file < 2 ^ 62 → HasSize definition.now → WithoutFault e (IsFirstError
        (size_refusals (store_size definition.now) (length file + box_len definition.now) boxes)
        e))) }
    ensures reads { ReadsSource A.len A.known A.faults IsPlanStep media.old media.new result }
{
    let store_len = match small_store_len(alloc, definition) {
        Ok(len) => len,
        Err(error) => return Err(error),
    };
    let size = match media.size() {
        Ok(size) => size,
        Err(Failed) => return Err(BuildError::ReadFault),
    };
    let file_len = size.saturating_add(FRAME_LEN + store_len);
    match check_sizes(file_len, boxes) {
        Ok(()) => Ok(Sizes { store_len, size }),
        Err(error) => Err(error),
    }
}

// What is to be built over a media file with these root boxes.
fn draft_over<A: Source>(
    alloc: Global,
    media: &mut A,
    roots: &Roots,
    definition: &Definition,
) -> Result<Front, BuildError>
    requires inside { All (IsBoxWithin (A.len media.old)) roots.now }
    ensures drafted { IfOk result (λ f. ForSome (A.known media.old) (λ file. (boxes : List Box)
        → HasRoots file boxes → roots.now ≡ rows_of boxes
        → IsDrafted file boxes definition.now f)) }
    ensures refused { IfErr result (λ e. ForSome (A.known media.old) (λ file. (boxes : List Box)
        → HasRoots file boxes → roots.now ≡ rows_of boxes → HasSize definition.now
        → WithoutFault e (IsFirstError (plan_refusals file boxes definition.now) e))) }
    ensures fits { IfOk result (FitsIn (A.len media.old)) }
    ensures store { IfOk result (λ f. f.store_len ≡ store_size definition.now) }
    ensures reads { ReadsSource A.len A.known A.faults IsPlanStep media.old media.new result }
{
    // Matched and not handed up by `?`, here and below: each way out has clauses of its own.
    let place = match first_end(roots) {
        Ok(place) => place,
        Err(error) => return Err(error),
    };
    match check_redactions(alloc, definition) {
        Ok(()) => {}
        Err(error) => return Err(error),
    }
    let tables = match tables(alloc, media, roots) {
        Ok(tables) => tables,
        Err(error) => return Err(shift_error(error)),
    };
    let sizes = match sized(alloc, media, roots.as_slice().len(), definition) {
        Ok(sizes) => sizes,
        Err(error) => return Err(error),
    };
    match check_shift(media, &tables, place, FRAME_LEN + sizes.store_len) {
        Ok(()) => Ok(Front {
            tables,
            place,
            store_len: sizes.store_len,
            size: sizes.size,
        }),
        Err(error) => Err(shift_error(error)),
    }
}

/// What is to be built, where this was read of a media file: a BMFF file without a store, of which nothing is refused of a plan.
pub(crate) fn drafted<A: Source>(
    alloc: Global,
    media: &mut A,
    file: &MediaRead<'_>,
    definition: &Definition,
) -> Result<Front, BuildError>
    requires formed { IsWellFormed definition.now }
    requires read { IsReadIn (A.len media.old) file.now }
    ensures drafted { IfOk result (λ f. ForSome (A.known media.old) (λ bytes. (kind : MediaKind)
        → (is : IsKind bytes file.now kind)
        → IsDraftedOver bytes is.stage.0 definition.now f)) }
    ensures refused { IfErr result (λ e. ForSome (A.known media.old) (λ bytes. (kind : MediaKind)
        → (is : IsKind bytes file.now kind) → HasSize definition.now
        → WithoutFault e (IsRefusedOver bytes is.stage.0 definition.now e))) }
    ensures fits { IfOk result (FitsIn (A.len media.old)) }
    ensures store { IfOk result (λ f. f.store_len ≡ store_size definition.now) }
    ensures reads { ReadsSource A.len A.known A.faults IsPlanStep media.old media.new result }
{
    let Container::Bmff(roots) = &file.contained.container else {
        return Err(BuildError::NotBmff);
    };
    if file.older.is_some() {
        return Err(BuildError::HasStore);
    }
    draft_over(alloc, media, roots, definition)
}
