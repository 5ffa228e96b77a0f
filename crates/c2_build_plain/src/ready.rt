// What is ready to be written, before anything is.
ghost use Rattle.std.specs.Prelude.{IfOk, map};
ghost use Rattle.std.specs.Option.{ForSome};
ghost use Rattle.c2_base.specs.Causes.{Rose};
ghost use Rattle.c2_base.specs.Source.{ReadsSource};
ghost use Rattle.c2_build_endings.specs.Sources.{ReadsSigned, use_of};
ghost use Rattle.c2_spec.specs.C2pa.Message.{CanBePadded};
ghost use Rattle.c2_spec.specs.C2pa.Sign1.{parts_of};
ghost use Rattle.c2_spec.specs.Cbor.Item.{Pairs};
ghost use Rattle.c2_spec.specs.Judges.Panel.{panel_says};
ghost use Rattle.c2_rules.specs.Asking.{HearsPanel};
ghost use Rattle.c2_container.specs.Contained.{IsWithin};
ghost use Rattle.c2_definition.specs.DefinitionFile.{IsWellFormed};
ghost use Rattle.c2_build_plain.specs.Answers.{AsksEmbedded};
ghost use Rattle.c2_build_refusals.specs.Kinds.{build_heard};
ghost use Rattle.c2_build_refusals.specs.Stages.{LeavesUndue, MediaKind};
ghost use Rattle.c2_build_plain.specs.Building.{IsEmbeddedOver};
ghost use Rattle.c2_build_in_place.specs.Numbers.{IsOfFile};
ghost use Rattle.c2_build_drafts.specs.Drafts.{FitsMedia};
ghost use Rattle.c2_build_plain.specs.Steps.{AsksWith, IsBuildDrafted, IsDraftFor};
ghost use Rattle.c2_build_plain.specs.Steps.{IsEmbeddedSigned, IsPrepareCause, IsPrepared};
ghost use Rattle.c2_build_plain.specs.Steps.{IsReadyCause, build_of};
ghost use Rattle.c2_build_base.specs.Grounds.{IsFoundIn, IsKind, IsReadIn, KindHears};

use crate::draft::draft_over;
use c2_base::{Blob, Source};
use c2_build_base::{MediaRead, open_media, read_media};
use c2_build_drafts::{DraftedBuild, make_ready};
use c2_build_in_place::Ready;
use c2_build_refusals::{BuildError, Drafted, padded, read_definition_file, read_message_file};
use c2_container::Contained;
use c2_definition::Definition;
use c2_hash::Hashing;
use c2_judge::Judge;
use c2_sigstruct::Sign1;
use std::alloc::Global;

// What was drafted for a definition, and the message, padded to what that reserves for it.
#[derive(Drop)]
struct MessageDraft {
    drafted: Drafted,
    message: Blob,
}

// What builds are made with.
#[derive(Drop)]
struct Builder<'h, H> {
    alloc: Global,
    hashing: &'h H,
}

impl<'h, H: Hashing> Builder<'h, H> {
    // What is to be built, where this was read of a media file, of a definition and with a message.
    fn with_message<A: Source>(
        &self,
        media: &mut A,
        file: &MediaRead<'_>,
        definition: &Definition,
        sign: &Sign1,
        judges: &mut Vec<Box<dyn Judge>>,
    ) -> Result<MessageDraft, BuildError>
        requires formed { IsWellFormed definition.now }
        requires can { (entries : Pairs) × CanBePadded (parts_of sign.now) entries }
        requires read { IsReadIn (A.len media.old) file.now }
        ensures build { let said = panel_says (map says judges.old.items) in
            ForSome (A.known media.old) (λ bytes. (kind : MediaKind) → IsKind bytes file.now kind
            → IsOfFile definition.now → IsDraftFor H.digest_of bytes definition.now
            (IsEmbeddedOver H.digest_of said bytes kind definition.now (parts_of sign.now))
            result) }
        ensures fits { IfOk result (λ m. FitsMedia H.digest_of (A.len media.old)
            (build_of definition.now m)) }
        ensures reads { ReadsSource A.len A.known A.faults IsReadyCause media.old media.new result }
        ensures panel { HearsPanel says asked_times judge_faults build_heard
            (KindHears H.digest_of (A.known media.old) file.now) judges.old judges.new result }
    {
        let drafted = match draft_over(self.alloc, self.hashing, media, file, definition, judges) {
            Ok(drafted) => drafted,
            Err(error) => return Err(error),
        };
        match padded(self.alloc, sign, definition) {
            Ok(message) => Ok(MessageDraft { drafted, message }),
            Err(error) => Err(error),
        }
    }

    // What is to be built, where this was read of a media file, of a definition and with a message file.
    fn draft_signed<A: Source, C: Source>(
        &self,
        media: &mut A,
        file: &MediaRead<'_>,
        definition: &Definition,
        signature: &mut C,
        judges: &mut Vec<Box<dyn Judge>>,
    ) -> Result<MessageDraft, BuildError>
        requires formed { IsWellFormed definition.now }
        requires read { IsReadIn (A.len media.old) file.now }
        requires kind { ForSome (A.known media.old)
            (λ bytes. (kind : MediaKind) × IsKind bytes file.now kind) }
        ensures build { let said = panel_says (map says judges.old.items) in
            ForSome (A.known media.old) (λ bytes. (kind : MediaKind) → IsKind bytes file.now kind
            → IsOfFile definition.now → ForSome (C.known signature.old) (λ message. IsDraftFor
            H.digest_of bytes definition.now
            (IsEmbeddedSigned H.digest_of said bytes kind definition.now message) result)) }
        ensures fits { IfOk result (λ m. FitsMedia H.digest_of (A.len media.old)
            (build_of definition.now m)) }
        ensures media { ReadsSource A.len A.known A.faults
            (IsPrepareCause (Rose (C.faults signature.old) (C.faults signature.new)))
            media.old media.new result }
        ensures message { ReadsSource C.len C.known C.faults
            (IsPrepareCause (Rose (A.faults media.old) (A.faults media.new)))
            signature.old signature.new result }
        ensures panel { HearsPanel says asked_times judge_faults build_heard
            (AsksWith H.digest_of (A.known media.old) definition.now (C.known signature.old))
            judges.old judges.new result }
    {
        let sign = match read_message_file(self.alloc, definition.protected.as_slice(), signature) {
            Ok(sign) => sign,
            Err(error) => return Err(error),
        };
        self.with_message(media, file, definition, &sign, judges)
    }

    // What is to be built, where this was read of a media file, of a definition file and a message file.
    fn draft_of<A: Source, B: Source, C: Source>(
        &self,
        media: &mut A,
        file: &MediaRead<'_>,
        definition: &mut B,
        signature: &mut C,
        judges: &mut Vec<Box<dyn Judge>>,
    ) -> Result<DraftedBuild, BuildError>
        requires read { IsReadIn (A.len media.old) file.now }
        requires kind { ForSome (A.known media.old)
            (λ bytes. (kind : MediaKind) × IsKind bytes file.now kind) }
        ensures build { let said = panel_says (map says judges.old.items) in
            IsBuildDrafted H.digest_of said (A.known media.old) (B.known definition.old)
            (C.known signature.old) (A.len media.old) result }
        ensures not_due { LeavesUndue (A.known media.old) (B.known definition.old)
            definition.old definition.new signature.old signature.new }
        ensures sources { ReadsSigned IsPrepareCause
            (use_of A.len A.known A.faults media.old media.new)
            (use_of B.len B.known B.faults definition.old definition.new)
            (use_of C.len C.known C.faults signature.old signature.new) result }
        ensures panel { HearsPanel says asked_times judge_faults build_heard (AsksEmbedded
            H.digest_of (A.known media.old) (B.known definition.old) (C.known signature.old))
            judges.old judges.new result }
    {
        let definition = match read_definition_file(self.alloc, definition) {
            Ok(definition) => definition,
            Err(error) => return Err(error),
        };
        match self.draft_signed(media, file, &definition, signature, judges) {
            Ok(draft) => Ok(DraftedBuild {
                definition,
                drafted: draft.drafted,
                message: draft.message,
            }),
            Err(error) => Err(error),
        }
    }

    // What is to be built, where this was found of a media file, of a definition file and a message file.
    fn draft_in<A: Source, B: Source, C: Source>(
        &self,
        media: &mut A,
        file: &Contained,
        definition: &mut B,
        signature: &mut C,
        judges: &mut Vec<Box<dyn Judge>>,
    ) -> Result<DraftedBuild, BuildError>
        requires inside { IsWithin (A.len media.old) file.now }
        requires found { ForSome (A.known media.old) (λ bytes. IsFoundIn bytes file.now) }
        ensures build { let said = panel_says (map says judges.old.items) in
            IsBuildDrafted H.digest_of said (A.known media.old) (B.known definition.old)
            (C.known signature.old) (A.len media.old) result }
        ensures not_due { LeavesUndue (A.known media.old) (B.known definition.old)
            definition.old definition.new signature.old signature.new }
        ensures sources { ReadsSigned IsPrepareCause
            (use_of A.len A.known A.faults media.old media.new)
            (use_of B.len B.known B.faults definition.old definition.new)
            (use_of C.len C.known C.faults signature.old signature.new) result }
        ensures panel { HearsPanel says asked_times judge_faults build_heard (AsksEmbedded
            H.digest_of (A.known media.old) (B.known definition.old) (C.known signature.old))
            judges.old judges.new result }
    {
        let read = match read_media(self.alloc, file) {
            Ok(read) => read,
            Err(error) => return Err(error),
        };
        self.draft_of(media, &read, definition, signature, judges)
    }

    // What is to be built, made from the three sources. What is opened and read of them is let go.
    fn draft<A: Source, B: Source, C: Source>(
        &self,
        media: &mut A,
        definition: &mut B,
        signature: &mut C,
        judges: &mut Vec<Box<dyn Judge>>,
    ) -> Result<DraftedBuild, BuildError>
        requires { Unit {0} }
        ensures build { let said = panel_says (map says judges.old.items) in
            IsBuildDrafted H.digest_of said (A.known media.old) (B.known definition.old)
            (C.known signature.old) (A.len media.old) result }
        ensures not_due { LeavesUndue (A.known media.old) (B.known definition.old)
            definition.old definition.new signature.old signature.new }
        ensures sources { ReadsSigned IsPrepareCause
            (use_of A.len A.known A.faults media.old media.new)
            (use_of B.len B.known B.faults definition.old definition.new)
            (use_of C.len C.known C.faults signature.old signature.new) result }
        ensures panel { HearsPanel says asked_times judge_faults build_heard (AsksEmbedded
            H.digest_of (A.known media.old) (B.known definition.old) (C.known signature.old))
            judges.old judges.new result }
    {
        let file = match open_media(self.alloc, media) {
            Ok(file) => file,
            Err(error) => return Err(error),
        };
        self.draft_in(media, &file, definition, signature, judges)
    }
}

/// What is to be written, made from the three sources. The older store isn't in memory any more while the new one is made.
pub fn prepare<A: Source, B: Source, C: Source, H: Hashing>(
    alloc: Global,
    hashing: &H,
    media: &mut A,
    definition: &mut B,
    signature: &mut C,
    judges: &mut Vec<Box<dyn Judge>>,
) -> Result<Ready, BuildError>
    requires { Unit {0} }
    ensures prepared { let said = panel_says (map says judges.old.items) in
        IsPrepared H.digest_of said (A.known media.old) (B.known definition.old)
        (C.known signature.old) (A.len media.old) result }
    ensures not_due { LeavesUndue (A.known media.old) (B.known definition.old)
        definition.old definition.new signature.old signature.new }
    ensures sources { ReadsSigned IsPrepareCause
        (use_of A.len A.known A.faults media.old media.new)
        (use_of B.len B.known B.faults definition.old definition.new)
        (use_of C.len C.known C.faults signature.old signature.new) result }
    ensures panel { HearsPanel says asked_times judge_faults build_heard (AsksEmbedded
        H.digest_of (A.known media.old) (B.known definition.old) (C.known signature.old))
        judges.old judges.new result }
{
    let builder = Builder { alloc, hashing };
    let build = match builder.draft(media, definition, signature, judges) {
        Ok(build) => build,
        Err(error) => return Err(error),
    };
    make_ready(alloc, hashing, media, build)
}
