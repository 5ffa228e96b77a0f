// What is to be signed of a new manifest.
ghost use Rattle.std.specs.Prelude.{◌≡◌, map, ℕ, List};
ghost use Rattle.std.specs.Option.{ForSome};
ghost use Rattle.c2_base.specs.Source.{ReadsSource};
ghost use Rattle.c2_build_endings.specs.Sources.{ReadsPlanned, use_of};
ghost use Rattle.c2_spec.specs.Judges.Panel.{panel_says};
ghost use Rattle.c2_rules.specs.Asking.{HearsPanel};
ghost use Rattle.c2_container.specs.Contained.{IsWithin};
ghost use Rattle.c2_definition.specs.DefinitionFile.{IsWellFormed};
ghost use Rattle.c2_build_plain.specs.Answers.{AsksPlanned, IsPlanCause};
ghost use Rattle.c2_build_refusals.specs.Kinds.{HasOutcome, IsAskCause, build_heard};
ghost use Rattle.c2_build_plain.specs.Building.{IsPlanned, IsPlannedOver};
ghost use Rattle.c2_build_refusals.specs.Stages.{IsDefinitionTold, IsMediaRefused, MediaKind};
ghost use Rattle.c2_build_in_place.specs.Numbers.{IsOfFile};
ghost use Rattle.c2_build_base.specs.Grounds.{IsFoundIn, IsKind, IsReadIn, KindHears};

use crate::draft::draft_over;
use c2_base::{Blob, Source};
use c2_build_base::{MediaRead, open_media, read_media};
use c2_build_drafts::signed_draft;
use c2_build_refusals::{BuildError, read_definition_file};
use c2_container::Contained;
use c2_definition::Definition;
use c2_hash::Hashing;
use c2_judge::Judge;
use std::alloc::Global;

// What is to be signed, where this was read of a media file, of a definition.
fn plan_over<A: Source, H: Hashing>(
    alloc: Global,
    hashing: &H,
    media: &mut A,
    file: &MediaRead<'_>,
    definition: &Definition,
    judges: &mut Vec<Box<dyn Judge>>,
) -> Result<Blob, BuildError>
    requires formed { IsWellFormed definition.now }
    requires read { IsReadIn (A.len media.old) file.now }
    ensures planned { let said = panel_says (map says judges.old.items) in
        ForSome (A.known media.old) (λ bytes. (kind : MediaKind) → IsKind bytes file.now kind
        → IsOfFile definition.now
        → HasOutcome (IsPlannedOver H.digest_of said bytes kind definition.now) result) }
    ensures reads { ReadsSource A.len A.known A.faults IsAskCause media.old media.new result }
    ensures panel { HearsPanel says asked_times judge_faults build_heard
        (KindHears H.digest_of (A.known media.old) file.now) judges.old judges.new result }
{
    // Matched and not handed up by `?`, here and below: each way out has clauses of its own.
    let drafted = match draft_over(alloc, hashing, media, file, definition, judges) {
        Ok(drafted) => drafted,
        Err(error) => return Err(error),
    };
    signed_draft(alloc, hashing, media, definition, &drafted)
}

// What is to be signed, where this was found of a media file, of a definition file.
fn plan_in<A: Source, B: Source, H: Hashing>(
    alloc: Global,
    hashing: &H,
    media: &mut A,
    file: &Contained,
    definition: &mut B,
    judges: &mut Vec<Box<dyn Judge>>,
) -> Result<Blob, BuildError>
    requires inside { IsWithin (A.len media.old) file.now }
    requires found { ForSome (A.known media.old) (λ bytes. IsFoundIn bytes file.now) }
    ensures planned { let said = panel_says (map says judges.old.items) in
        ForSome (A.known media.old) (λ file. (bytes : List ℕ)
        → IsDefinitionTold file (B.known definition.old) bytes
        → HasOutcome (IsPlanned H.digest_of said file bytes) result) }
    ensures not_due { ForSome (A.known media.old) (λ file.
        IsMediaRefused file → definition.new ≡ definition.old) }
    ensures sources { ReadsPlanned IsPlanCause
        (use_of A.len A.known A.faults media.old media.new)
        (use_of B.len B.known B.faults definition.old definition.new) result }
    ensures panel { HearsPanel says asked_times judge_faults build_heard
        (AsksPlanned H.digest_of (A.known media.old) (B.known definition.old))
        judges.old judges.new result }
{
    let read = match read_media(alloc, file) {
        Ok(read) => read,
        Err(error) => return Err(error),
    };
    let definition = match read_definition_file(alloc, definition) {
        Ok(definition) => definition,
        Err(error) => return Err(error),
    };
    plan_over(alloc, hashing, media, &read, &definition, judges)
}

/// The bytes that are to be signed for the manifest that `embed` writes: the Sig_structure of its claim, with the protected header
/// of the definition (RFC 9052, section 4.4).
///
/// The media is refused by `MediaRefused`, then the definition by `BadDefinition`. Over media with a store come `ParentFails`, where a rule
/// of the store's check fails, and `LabelTaken`, where one of its manifests has the new label; over all media then `RedactionRefused`,
/// where a redaction can't be made, `OpenBox` and `NoInstance`, where nothing can be put in, `TooManyManifests` and `StoreTooLarge` of the
/// new store, and `MediaRefused` where the new file would be too long or have too many root boxes. Over known bytes the error is the
/// first of these whose condition holds. `ReadFault` comes only where one of the two sources failed in this call, `JudgeFault` only where
/// a judge did, and `NoMemory` where memory ran out; `BadSignature`, `ReserveTooSmall` and `WriteFault` don't come.
///
/// The judges are asked what the check of the media's store asks, where it has one and the definition isn't refused, and nothing
/// otherwise. The definition isn't read where the media is refused. The media is opened once, and read in pieces.
// The condition always holds: a function that is lent boxed judges is called under a contract only where it has one.
pub fn plan<A: Source, B: Source, H: Hashing>(
    alloc: Global,
    hashing: &H,
    media: &mut A,
    definition: &mut B,
    judges: &mut Vec<Box<dyn Judge>>,
) -> Result<Blob, BuildError>
    requires { Unit {0} }
    // Where the bytes that are due are known: this is what they come to.
    ensures planned { let said = panel_says (map says judges.old.items) in
        ForSome (A.known media.old) (λ file. (bytes : List ℕ)
        → IsDefinitionTold file (B.known definition.old) bytes
        → HasOutcome (IsPlanned H.digest_of said file bytes) result) }
    ensures not_due { ForSome (A.known media.old) (λ file.
        IsMediaRefused file → definition.new ≡ definition.old) }

    // These hold of every source; just the questions of the build are asked where the bytes are known that tell them.
    ensures sources { ReadsPlanned IsPlanCause
        (use_of A.len A.known A.faults media.old media.new)
        (use_of B.len B.known B.faults definition.old definition.new) result }
    ensures panel { HearsPanel says asked_times judge_faults build_heard
        (AsksPlanned H.digest_of (A.known media.old) (B.known definition.old))
        judges.old judges.new result }
{
    let file = match open_media(alloc, media) {
        Ok(file) => file,
        Err(error) => return Err(error),
    };
    plan_in(alloc, hashing, media, &file, definition, judges)
}
