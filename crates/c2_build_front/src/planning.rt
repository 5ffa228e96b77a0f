// What is to be signed of a new manifest whose store stands in front.
ghost use Rattle.std.specs.Prelude.{◌≡◌, ℕ, List};
ghost use Rattle.std.specs.Option.{ForSome};
ghost use Rattle.c2_lemmas.specs.Stages.{Then};
ghost use Rattle.c2_base.specs.Source.{ReadsSource};
ghost use Rattle.c2_container.specs.Contained.{IsWithin};
ghost use Rattle.c2_build_endings.specs.Sources.{ReadsPlanned, use_of};
ghost use Rattle.c2_definition.specs.DefinitionFile.{IsWellFormed};
ghost use Rattle.c2_bmff_binding_front.specs.Putting.{FitsIn};
ghost use Rattle.c2_new_front_spec.specs.Outcomes.{IsBmffStage, IsFrontPlanned, IsPlannedIn};
ghost use Rattle.c2_build_base.specs.Grounds.{IsFoundIn, IsKind, IsReadIn};
ghost use Rattle.c2_build_refusals.specs.Stages.{IsDefinitionTold, IsMediaRefused, MediaKind};
ghost use Rattle.c2_spec.specs.Jumbf.Tree.{Tree};
ghost use Rattle.c2_spec.specs.Located.{Opening};
ghost use Rattle.c2_build_front.specs.Answers.{IsPlanCause};
ghost use Rattle.c2_build_front.specs.Errors.{IsAnswerTo};
ghost use Rattle.c2_build_front.specs.Steps.{HasSize, IsDraftedOver, IsPlanStep, store_size};

use crate::drafting::drafted;
use crate::parts::parts_over;
use c2_base::limits::PIECE_LEN;
use c2_base::{Blob, NoMemory, Source};
use c2_bmff_binding_front::Front;
use c2_build_base::{MediaRead, open_media, read_media};
use c2_build_refusals::{BuildError, read_definition_file, signed_over};
use c2_container::Contained;
use c2_definition::Definition;
use c2_hash::Hashing;
use std::alloc::Global;

// What is to be signed, of what was drafted over a media file.
fn plan_with<A: Source, H: Hashing>(
    alloc: Global,
    hashing: &H,
    media: &mut A,
    front: &Front,
    definition: &Definition,
) -> Result<Blob, BuildError>
    requires formed { IsWellFormed definition.now }
    requires fits { FitsIn (A.len media.old) front.now }
    requires store { front.now.store_len ≡ store_size definition.now }
    ensures planned { ForSome (A.known media.old) (λ file. (what : Opening Tree)
        → IsDraftedOver file what definition.now front.now
        → IsAnswerTo (Then (IsBmffStage file what)
        (IsPlannedIn H.digest_of file definition.now)) result) }
    ensures reads { ReadsSource A.len A.known A.faults IsPlanStep media.old media.new result }
{
    let Ok(mut buf) = vec![in alloc; 0u8; PIECE_LEN] else {
        return Err(BuildError::NoMemory);
    };
    // Matched and not handed up by `?`, here and below: each way out has clauses of its own.
    let parts = match parts_over(alloc, hashing, media, front, definition, &mut buf) {
        Ok(parts) => parts,
        Err(error) => return Err(error),
    };
    match signed_over(alloc, definition, parts.claim.as_slice()) {
        Ok(tbs) => Ok(tbs),
        Err(NoMemory) => Err(BuildError::NoMemory),
    }
}

// What is to be signed, where this was read of a media file, of a definition.
fn plan_over<A: Source, H: Hashing>(
    alloc: Global,
    hashing: &H,
    media: &mut A,
    file: &MediaRead<'_>,
    definition: &Definition,
) -> Result<Blob, BuildError>
    requires formed { IsWellFormed definition.now }
    requires read { IsReadIn (A.len media.old) file.now }
    ensures planned { ForSome (A.known media.old) (λ bytes. (kind : MediaKind)
        → (is : IsKind bytes file.now kind) → HasSize definition.now
        → IsAnswerTo (Then (IsBmffStage bytes is.stage.0)
        (IsPlannedIn H.digest_of bytes definition.now)) result) }
    ensures reads { ReadsSource A.len A.known A.faults IsPlanStep media.old media.new result }
{
    let front = match drafted(alloc, media, file, definition) {
        Ok(front) => front,
        Err(error) => return Err(error),
    };
    plan_with(alloc, hashing, media, &front, definition)
}

// What is to be signed, where this was found of a media file, of a definition file.
fn plan_in<A: Source, B: Source, H: Hashing>(
    alloc: Global,
    hashing: &H,
    media: &mut A,
    file: &Contained,
    definition: &mut B,
) -> Result<Blob, BuildError>
    requires inside { IsWithin (A.len media.old) file.now }
    requires found { ForSome (A.known media.old) (λ bytes. IsFoundIn bytes file.now) }
    ensures planned { ForSome (A.known media.old) (λ file. (bytes : List ℕ)
        → IsDefinitionTold file (B.known definition.old) bytes
        → IsAnswerTo (IsFrontPlanned H.digest_of file bytes) result) }
    ensures not_due { ForSome (A.known media.old) (λ file.
        IsMediaRefused file → definition.new ≡ definition.old) }
    ensures sources { ReadsPlanned IsPlanCause
        (use_of A.len A.known A.faults media.old media.new)
        (use_of B.len B.known B.faults definition.old definition.new) result }
{
    let read = match read_media(alloc, file) {
        Ok(read) => read,
        Err(error) => return Err(error),
    };
    let definition = match read_definition_file(alloc, definition) {
        Ok(definition) => definition,
        Err(error) => return Err(error),
    };
    plan_over(alloc, hashing, media, &read, &definition)
}

/// The bytes that are to be signed for the manifest that `embed_front` writes: the Sig_structure of its claim, with the protected header of
/// the definition (RFC 9052, section 4.4).
///
/// The media is refused by `MediaRefused`, then the definition by `BadDefinition`. Then come `NotBmff` for a JPEG file, `HasStore` for a file
/// that has a store, `OpenBox` where the first root box says no size, `RedactionRefused` for each redaction, as there is no older store;
/// `OffsetTable`, `BadTree` or `BadTable` for the first thing that stands in the way of moving chunk offsets; `StoreTooLarge` of the new
/// store, `MediaRefused` where the new file would be too long or have too many root boxes, and `Overflow` for the first chunk offset that
/// doesn't fit into its field once it is moved. Over known bytes the error is the first of these whose condition holds. `ReadFault` comes
/// only where one of the two sources counted a fault in this call, and `NoMemory` where memory ran out; no other error comes.
///
/// The definition isn't read where the media is refused. The media is opened once, and read in pieces.
pub fn plan_front<A: Source, B: Source, H: Hashing>(
    alloc: Global,
    hashing: &H,
    media: &mut A,
    definition: &mut B,
) -> Result<Blob, BuildError>
    // Where the bytes that are due are known: this is what they come to.
    ensures planned { ForSome (A.known media.old) (λ file. (bytes : List ℕ)
        → IsDefinitionTold file (B.known definition.old) bytes
        → IsAnswerTo (IsFrontPlanned H.digest_of file bytes) result) }
    ensures not_due { ForSome (A.known media.old) (λ file.
        IsMediaRefused file → definition.new ≡ definition.old) }

    // These hold of every source.
    ensures sources { ReadsPlanned IsPlanCause
        (use_of A.len A.known A.faults media.old media.new)
        (use_of B.len B.known B.faults definition.old definition.new) result }
{
    let file = match open_media(alloc, media) {
        Ok(file) => file,
        Err(error) => return Err(error),
    };
    plan_in(alloc, hashing, media, &file, definition)
}
