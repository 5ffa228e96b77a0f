// What is to be signed of a new manifest whose store collects.
ghost use Rattle.std.specs.Prelude.{map};
ghost use Rattle.c2_lemmas.specs.Stages.{Then};
ghost use Rattle.c2_base.specs.Causes.{Rose};
ghost use Rattle.c2_base.specs.Source.{ReadsSource};
ghost use Rattle.c2_build_endings.specs.Sources.{use_of};
ghost use Rattle.c2_spec.specs.Judges.Panel.{panel_says};
ghost use Rattle.c2_rules.specs.Asking.{HearsPanel};
ghost use Rattle.c2_collect_spec.specs.Outcomes.{IsCollectPlanned, IsPairStage, IsPlannedOver};
ghost use Rattle.c2_build_refusals.specs.Kinds.{build_heard};
ghost use Rattle.c2_build_base.specs.Grounds.{IsReadIn};
ghost use Rattle.c2_build_in_place.specs.Numbers.{IsOfFile};
ghost use Rattle.c2_build_collect_base.specs.Errors.{IsAnswerTo};
ghost use Rattle.c2_build_collect_base.specs.Grounds.{IsGroundCause, PairHears};
ghost use Rattle.c2_build_collect.specs.Answers.{AsksPlanned, ForPlanInputs, LeavesPlanUndue};
ghost use Rattle.c2_build_collect.specs.Answers.{ReadsPlannedPair};
ghost use Rattle.c2_build_collect.specs.Steps.{ForFiles, IsBuildRead, IsFileFound, IsOfSomeKind};
ghost use Rattle.c2_build_collect.specs.Steps.{LeavesOther};

use crate::drafting::{Build, Drafter};
use crate::ready::Builder;
use c2_base::{Blob, Source};
use c2_build_base::{open_media, read_media};
use c2_build_drafts::signed_draft;
use c2_build_refusals::{BuildError, read_definition_file};
use c2_hash::Hashing;
use c2_judge::Judge;
use std::alloc::Global;

impl<'b, 't, H: Hashing> Build<'b, 't, H> {
    // What is to be signed, over both files.
    fn planned<A: Source, D: Source>(
        &self,
        media: &mut A,
        other: &mut D,
        judges: &mut Vec<Box<dyn Judge>>,
    ) -> Result<Blob, BuildError>
        requires { IsBuildRead (A.len media.old) self.now.file.now self.now.definition.now }
        ensures planned { let said = panel_says (map says judges.old.items) in
            let d = self.now.definition.now in
            IsOfFile d → ForFiles H.digest_of said (A.known media.old) (D.known other.old)
            self.now.file.now (λ bytes what others. IsAnswerTo (Then
            (IsPairStage H.digest_of said bytes others what d) (IsPlannedOver H.digest_of d))
            result) }
        ensures not_due { let said = panel_says (map says judges.old.items) in
            LeavesOther H.digest_of said (A.known media.old) self.now.file.now
            other.old other.new }
        ensures media { ReadsSource A.len A.known A.faults
            (IsGroundCause (Rose (D.faults other.old) (D.faults other.new)))
            media.old media.new result }
        ensures other { ReadsSource D.len D.known D.faults
            (IsGroundCause (Rose (A.faults media.old) (A.faults media.new)))
            other.old other.new result }
        ensures panel { HearsPanel says asked_times judge_faults build_heard
            (PairHears H.digest_of (A.known media.old) (D.known other.old) self.now.file.now)
            judges.old judges.new result }
    {
        // Matched and not handed up by `?`: each way out has clauses of its own.
        let drafted = match self.drafted(media, other, judges) {
            Ok(drafted) => drafted,
            Err(error) => return Err(error),
        };
        signed_draft(self.alloc, self.hashing, media, self.definition, &drafted)
    }
}

impl<'b, 't, H: Hashing> Drafter<'b, 't, H> {
    // What is to be signed over a media file that was read, of a definition file and of another file.
    fn plan<A: Source, B: Source, D: Source>(
        &self,
        media: &mut A,
        definition: &mut B,
        other: &mut D,
        judges: &mut Vec<Box<dyn Judge>>,
    ) -> Result<Blob, BuildError>
        requires inside { IsReadIn (A.len media.old) self.now.file.now }
        requires kind { IsOfSomeKind (A.known media.old) self.now.file.now }
        ensures planned { let said = panel_says (map says judges.old.items) in
            ForPlanInputs H.digest_of said (A.known media.old) (B.known definition.old)
            (D.known other.old) (λ file bytes others.
            IsAnswerTo (IsCollectPlanned H.digest_of said file bytes others) result) }
        ensures not_due { let said = panel_says (map says judges.old.items) in
            LeavesPlanUndue H.digest_of said (A.known media.old) (B.known definition.old)
            definition.old definition.new other.old other.new }
        ensures sources { ReadsPlannedPair IsGroundCause
            (use_of A.len A.known A.faults media.old media.new)
            (use_of B.len B.known B.faults definition.old definition.new)
            (use_of D.len D.known D.faults other.old other.new) result }
        ensures panel { HearsPanel says asked_times judge_faults build_heard (AsksPlanned
            H.digest_of (A.known media.old) (B.known definition.old) (D.known other.old))
            judges.old judges.new result }
    {
        let definition = match read_definition_file(self.alloc, definition) {
            Ok(definition) => definition,
            Err(error) => return Err(error),
        };
        let build = Build {
            alloc: self.alloc,
            hashing: self.hashing,
            file: self.file,
            definition: &definition,
        };
        build.planned(media, other, judges)
    }
}

impl<'b, H: Hashing> Builder<'b, H> {
    // What is to be signed, of a definition file and of another file.
    fn plan<A: Source, B: Source, D: Source>(
        &self,
        media: &mut A,
        definition: &mut B,
        other: &mut D,
        judges: &mut Vec<Box<dyn Judge>>,
    ) -> Result<Blob, BuildError>
        requires { IsFileFound (A.len media.old) (A.known media.old) self.now.file.now }
        ensures planned { let said = panel_says (map says judges.old.items) in
            ForPlanInputs H.digest_of said (A.known media.old) (B.known definition.old)
            (D.known other.old) (λ file bytes others.
            IsAnswerTo (IsCollectPlanned H.digest_of said file bytes others) result) }
        ensures not_due { let said = panel_says (map says judges.old.items) in
            LeavesPlanUndue H.digest_of said (A.known media.old) (B.known definition.old)
            definition.old definition.new other.old other.new }
        ensures sources { ReadsPlannedPair IsGroundCause
            (use_of A.len A.known A.faults media.old media.new)
            (use_of B.len B.known B.faults definition.old definition.new)
            (use_of D.len D.known D.faults other.old other.new) result }
        ensures panel { HearsPanel says asked_times judge_faults build_heard (AsksPlanned
            H.digest_of (A.known media.old) (B.known definition.old) (D.known other.old))
            judges.old judges.new result }
    {
        let read = match read_media(self.alloc, self.file) {
            Ok(read) => read,
            Err(error) => return Err(error),
        };
        let drafter = Drafter {
            alloc: self.alloc,
            hashing: self.hashing,
            file: &read,
        };
        drafter.plan(media, definition, other, judges)
    }
}

/// The bytes that are to be signed for the manifest that `embed_collect` writes: the Sig_structure of its claim, with the protected header of the
/// definition (RFC 9052, section 4.4).
///
/// The media is refused by `MediaRefused`, then the definition by `BadDefinition`. Where the media has a store `ParentFails` comes next, where a rule
/// of the store's check fails. Then come, of the other file, `OtherRefused` with what its check answers, where that doesn't find it valid; of both stores
/// together, `LabelClash` with the first label of a manifest of the other store, reached there, which the media's store has for a manifest that isn't
/// reached there or has other bytes; and of the joined manifests, `LabelTaken` where one has the new label, and `RedactionRefused` where a redaction can't
/// be made. Last come `OpenBox` and `NoInstance`, where nothing can be put in, `TooManyManifests` and `StoreTooLarge` of the new store, and
/// `MediaRefused` where the new file would be too long or have too many root boxes. Over known bytes the error is the first of these whose condition
/// holds. `ReadFault` comes only where one of the three sources failed in this call, `JudgeFault` only where a judge did, and `NoMemory` where memory ran
/// out; no other error comes.
///
/// The judges are asked what the check of the media's store asks, where it has one and the definition isn't refused, and then, where no rule of that
/// fails, what the check of the other file asks. The definition isn't read where the media is refused, and the other file isn't where the media isn't
/// accepted or the definition is refused. Each file is opened once, and read in pieces.
// The condition always holds: a function that is lent boxed judges is called under a contract only where it has one.
pub fn plan_collect<A: Source, B: Source, D: Source, H: Hashing>(
    alloc: Global,
    hashing: &H,
    media: &mut A,
    definition: &mut B,
    other: &mut D,
    judges: &mut Vec<Box<dyn Judge>>,
) -> Result<Blob, BuildError>
    requires { Unit {0} }
    // Where the bytes that are due are known: this is what they come to.
    ensures planned { let said = panel_says (map says judges.old.items) in
        ForPlanInputs H.digest_of said (A.known media.old) (B.known definition.old)
        (D.known other.old) (λ file bytes others.
        IsAnswerTo (IsCollectPlanned H.digest_of said file bytes others) result) }
    ensures not_due { let said = panel_says (map says judges.old.items) in
        LeavesPlanUndue H.digest_of said (A.known media.old) (B.known definition.old)
        definition.old definition.new other.old other.new }

    // These hold of every source; just the questions of the build are asked where the bytes are known that tell them.
    ensures sources { ReadsPlannedPair IsGroundCause
        (use_of A.len A.known A.faults media.old media.new)
        (use_of B.len B.known B.faults definition.old definition.new)
        (use_of D.len D.known D.faults other.old other.new) result }
    ensures panel { HearsPanel says asked_times judge_faults build_heard (AsksPlanned
        H.digest_of (A.known media.old) (B.known definition.old) (D.known other.old))
        judges.old judges.new result }
{
    let file = match open_media(alloc, media) {
        Ok(file) => file,
        Err(error) => return Err(error),
    };
    let builder = Builder {
        alloc,
        hashing,
        file: &file,
    };
    builder.plan(media, definition, other, judges)
}
