// What is to be built over two files, with a message that fills what is reserved for it.
ghost use Rattle.std.specs.Prelude.{◌≡◌, ◌⊎◌, ℕ, IfErr, IfOk, List, Option, map};
ghost use Rattle.c2_lemmas.specs.Stages.{Then};
ghost use Rattle.c2_base.specs.Causes.{Rose};
ghost use Rattle.c2_base.specs.Source.{ReadsSource};
ghost use Rattle.c2_spec.specs.C2pa.Message.{CanBePadded};
ghost use Rattle.c2_spec.specs.C2pa.Sign1.{parts_of};
ghost use Rattle.c2_spec.specs.Cbor.Item.{Pairs};
ghost use Rattle.c2_spec.specs.Judges.Panel.{panel_says};
ghost use Rattle.c2_rules.specs.Asking.{HearsPanel};
ghost use Rattle.c2_definition.specs.DefinitionFile.{IsWellFormed};
ghost use Rattle.c2_new_signature.specs.Signed.{IsSigned};
ghost use Rattle.c2_collect_spec.specs.Outcomes.{IsMadeOver, IsPairStage};
ghost use Rattle.c2_build_refusals.specs.Kinds.{IsMessageCause, WithoutFault, build_heard};
ghost use Rattle.c2_build_refusals.specs.Refusals.{IsReserveRefusal};
ghost use Rattle.c2_build_in_place.specs.Numbers.{IsOfFile};
ghost use Rattle.c2_build_drafts.specs.Drafts.{FitsMedia};
ghost use Rattle.c2_build_collect_base.specs.Grounds.{PairHears};
ghost use Rattle.c2_build_collect.specs.Answers.{AsksEmbedded, IsPrepareCause, LeavesBuildUndue};
ghost use Rattle.c2_build_collect.specs.Steps.{ForFiles, IsBuildDrafted, IsBuildFor, IsBuildRead};
ghost use Rattle.c2_build_collect.specs.Steps.{IsDefinitionOf, IsOfSomeKind, LeavesOther, build_of};

use crate::drafting::Build;
use c2_base::{Blob, Source};
use c2_build_drafts::DraftedBuild;
use c2_build_refusals::{BuildError, Drafted, padded, read_message_file};
use c2_definition::Definition;
use c2_hash::Hashing;
use c2_judge::Judge;
use c2_sigstruct::Sign1;
use std::alloc::Global;

/// What is to be built over both files, with a message, beside its definition.
#[derive(Drop)]
pub(crate) struct FilledDraft {
    /// What is to be built, and over what.
    pub(crate) drafted: Drafted,

    /// The message, padded to what the definition reserves for it.
    pub(crate) message: Blob,
}

// What was drafted, with this message in what the definition reserves for it.
fn filled(
    alloc: Global,
    sign: &Sign1,
    definition: &Definition,
    drafted: Drafted,
) -> Result<FilledDraft, BuildError>
    requires can { (entries : Pairs) × CanBePadded (parts_of sign.now) entries }
    requires formed { IsWellFormed definition.now }
    ensures same { IfOk result (λ f. f.drafted ≡ drafted) }
    ensures signed { IfOk result (λ f.
        IsSigned (parts_of sign.now) definition.now.reserve f.message) }
    ensures refused { IfErr result (λ e. WithoutFault e
        (IsReserveRefusal definition.now (parts_of sign.now) e)) }
    ensures cause { (count : ℕ) → IfErr result (IsMessageCause count count) }
{
    match padded(alloc, sign, definition) {
        Ok(message) => Ok(FilledDraft { drafted, message }),
        Err(error) => Err(error),
    }
}

/// What is to be built of a definition with a message, or what is refused of it.
pub(crate) fn built(
    definition: Definition,
    filled: Result<FilledDraft, BuildError>,
) -> Result<DraftedBuild, BuildError>
    ensures { result ≡ build_of definition filled }
{
    match filled {
        Ok(filled) => Ok(DraftedBuild {
            definition,
            drafted: filled.drafted,
            message: filled.message,
        }),
        Err(error) => Err(error),
    }
}

impl<'b, 't, H: Hashing> Build<'b, 't, H> {
    // What is to be built over both files, with a message.
    fn with_message<A: Source, D: Source>(
        &self,
        media: &mut A,
        sign: &Sign1,
        other: &mut D,
        judges: &mut Vec<Box<dyn Judge>>,
    ) -> Result<FilledDraft, BuildError>
        requires read { IsBuildRead (A.len media.old) self.now.file.now self.now.definition.now }
        requires can { (entries : Pairs) × CanBePadded (parts_of sign.now) entries }
        ensures build { let said = panel_says (map says judges.old.items) in
            let d = self.now.definition.now in
            IsOfFile d → ForFiles H.digest_of said (A.known media.old)
            (D.known other.old) self.now.file.now (λ bytes what others.
            IsBuildFor H.digest_of bytes (Then
            (IsPairStage H.digest_of said bytes others what d)
            (IsMadeOver H.digest_of d (parts_of sign.now))) (build_of d result)) }
        ensures not_due { let said = panel_says (map says judges.old.items) in
            LeavesOther H.digest_of said (A.known media.old) self.now.file.now
            other.old other.new }
        ensures fits { IfOk (build_of self.now.definition.now result)
            (FitsMedia H.digest_of (A.len media.old)) }
        ensures media { ReadsSource A.len A.known A.faults
            (IsPrepareCause (Rose (D.faults other.old) (D.faults other.new)))
            media.old media.new result }
        ensures other { ReadsSource D.len D.known D.faults
            (IsPrepareCause (Rose (A.faults media.old) (A.faults media.new)))
            other.old other.new result }
        ensures panel { HearsPanel says asked_times judge_faults build_heard
            (PairHears H.digest_of (A.known media.old) (D.known other.old) self.now.file.now)
            judges.old judges.new result }
    {
        let drafted = match self.drafted(media, other, judges) {
            Ok(drafted) => drafted,
            Err(error) => return Err(error),
        };
        filled(self.alloc, sign, self.definition, drafted)
    }

    /// What is to be built over both files, with the message that a file is.
    pub(crate) fn with_signature<A: Source, C: Source, D: Source>(
        &self,
        media: &mut A,
        signature: &mut C,
        other: &mut D,
        judges: &mut Vec<Box<dyn Judge>>,
    ) -> Result<FilledDraft, BuildError>
        requires read { IsBuildRead (A.len media.old) self.now.file.now self.now.definition.now }
        requires kind { IsOfSomeKind (A.known media.old) self.now.file.now }
        ensures build { let said = panel_says (map says judges.old.items) in
            let d = self.now.definition.now in
            (told : Option (List ℕ)) → IsDefinitionOf told d → IsBuildDrafted H.digest_of said
            (A.known media.old) told (C.known signature.old) (D.known other.old)
            (A.len media.old) (build_of d result) }
        ensures not_due { let said = panel_says (map says judges.old.items) in
            let d = self.now.definition.now in
            (told : Option (List ℕ)) → IsDefinitionOf told d → LeavesBuildUndue H.digest_of said
            (A.known media.old) told (C.known signature.old) d d signature.old signature.new
            other.old other.new }
        ensures media { ReadsSource A.len A.known A.faults
            (IsPrepareCause (Rose (C.faults signature.old) (C.faults signature.new)
            ⊎ Rose (D.faults other.old) (D.faults other.new))) media.old media.new result }
        ensures message { ReadsSource C.len C.known C.faults
            (IsPrepareCause (Rose (A.faults media.old) (A.faults media.new)
            ⊎ Rose (D.faults other.old) (D.faults other.new)))
            signature.old signature.new result }
        ensures other { ReadsSource D.len D.known D.faults
            (IsPrepareCause (Rose (A.faults media.old) (A.faults media.new)
            ⊎ Rose (C.faults signature.old) (C.faults signature.new)))
            other.old other.new result }
        ensures panel { (told : Option (List ℕ)) → IsDefinitionOf told self.now.definition.now
            → HearsPanel says asked_times judge_faults build_heard
            (AsksEmbedded H.digest_of (A.known media.old) told (C.known signature.old)
            (D.known other.old)) judges.old judges.new result }
    {
        let protected = self.definition.protected.as_slice();
        let sign = match read_message_file(self.alloc, protected, signature) {
            Ok(sign) => sign,
            Err(error) => return Err(error),
        };
        self.with_message(media, &sign, other, judges)
    }
}
