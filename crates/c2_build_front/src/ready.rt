// What is ready to be written in front of a film, before anything is.
ghost use Rattle.std.specs.Prelude.{◌≡◌, IfErr, IfOk, length};
ghost use Rattle.std.specs.Option.{ForSome};
ghost use Rattle.c2_lemmas.specs.Stages.{Then};
ghost use Rattle.c2_base.specs.Causes.{Rose};
ghost use Rattle.c2_base.specs.Source.{ReadsSource};
ghost use Rattle.c2_container.specs.Contained.{IsWithin};
ghost use Rattle.c2_build_endings.specs.Sources.{ReadsSigned, use_of};
ghost use Rattle.c2_definition.specs.DefinitionFile.{IsWellFormed};
ghost use Rattle.c2_bmff_binding_front.specs.Putting.{FitsIn};
ghost use Rattle.c2_new_front_spec.specs.Outcomes.{IsBmffStage, IsMadeIn, new_file};
ghost use Rattle.c2_build_base.specs.Grounds.{IsFoundIn, IsKind, IsReadIn};
ghost use Rattle.c2_build_refusals.specs.Kinds.{SaysNothing};
ghost use Rattle.c2_build_refusals.specs.Stages.{LeavesUndue, MediaKind};
ghost use Rattle.c2_spec.specs.C2pa.Message.{CanBePadded};
ghost use Rattle.c2_spec.specs.C2pa.Sign1.{parts_of};
ghost use Rattle.c2_spec.specs.Cbor.Item.{Pairs};
ghost use Rattle.c2_spec.specs.Jumbf.Tree.{Tree};
ghost use Rattle.c2_spec.specs.Located.{Opening};
ghost use Rattle.c2_build_front.specs.Answers.{IsPrepareCause};
ghost use Rattle.c2_build_front.specs.Steps.{CanWrite, HasSize, IsDraftedOver, IsMadeSigned};
ghost use Rattle.c2_build_front.specs.Steps.{IsPlanStep, IsPrepareStep, IsPrepared, IsReady};
ghost use Rattle.c2_build_front.specs.Steps.{IsReadyFor, store_size};

use crate::drafting::drafted;
use crate::parts::parts_over;
use c2_base::limits::PIECE_LEN;
use c2_base::{Blob, NoMemory, Source};
use c2_bmff_binding_front::Front;
use c2_build_base::{MediaRead, open_media, read_media};
use c2_build_refusals::{BuildError, padded, read_definition_file, read_message_file};
use c2_container::Contained;
use c2_definition::Definition;
use c2_hash::Hashing;
use c2_layout::{Carried, new_store};
use c2_sigstruct::Sign1;
use std::alloc::Global;

/// All that is needed to write a new file; no memory is taken from here on.
#[derive(Drop)]
pub(crate) struct Ready {
    /// The new store.
    pub(crate) store: Blob,

    /// How it is put into the media.
    pub(crate) front: Front,

    /// What the media is copied through.
    pub(crate) buffer: Vec<u8>,
}

// What is to be written, of what was drafted over a media file, with a message.
fn ready_with<A: Source, H: Hashing>(
    alloc: Global,
    hashing: &H,
    media: &mut A,
    front: Front,
    definition: &Definition,
    message: &[u8],
) -> Result<Ready, BuildError>
    requires formed { IsWellFormed definition.now }
    requires fits { FitsIn (A.len media.old) front }
    requires store { front.store_len ≡ store_size definition.now }
    requires filled { length message.now ≡ definition.now.reserve }
    ensures ready { IfOk result (λ r. ForSome (A.known media.old) (λ file. (what : Opening Tree)
        → (k : IsDraftedOver file what definition.now front)
        → IsReady file r (new_file H.digest_of file k.roots definition.now message.now))) }
    ensures nothing { IfErr result (λ e. ForSome (A.known media.old) (λ file.
        (what : Opening Tree) → IsDraftedOver file what definition.now front → SaysNothing e)) }
    ensures can_write { IfOk result (CanWrite (A.len media.old)) }
    ensures reads { ReadsSource A.len A.known A.faults IsPlanStep media.old media.new result }
{
    let Ok(mut buffer) = vec![in alloc; 0u8; PIECE_LEN] else {
        return Err(BuildError::NoMemory);
    };
    // Matched and not handed up by `?`, here and below: each way out has clauses of its own.
    let parts = match parts_over(alloc, hashing, media, &front, definition, &mut buffer) {
        Ok(parts) => parts,
        Err(error) => return Err(error),
    };
    let nothing = Carried::nothing(alloc);
    match new_store(alloc, definition, &nothing, &parts, message) {
        Ok(store) => Ok(Ready {
            store,
            front,
            buffer,
        }),
        Err(NoMemory) => Err(BuildError::NoMemory),
    }
}

// What builds are made with.
#[derive(Drop)]
struct Builder<'h, H> {
    alloc: Global,
    hashing: &'h H,
}

impl<'h, H: Hashing> Builder<'h, H> {
    // What is to be written, where this was read of a media file, with a definition and a message.
    fn ready_over<A: Source>(
        &self,
        media: &mut A,
        file: &MediaRead<'_>,
        definition: &Definition,
        sign: &Sign1,
    ) -> Result<Ready, BuildError>
        requires formed { IsWellFormed definition.now }
        requires can { (entries : Pairs) × CanBePadded (parts_of sign.now) entries }
        requires read { IsReadIn (A.len media.old) file.now }
        ensures ready { ForSome (A.known media.old) (λ bytes. (kind : MediaKind)
            → (is : IsKind bytes file.now kind) → HasSize definition.now
            → IsReadyFor bytes (Then (IsBmffStage bytes is.stage.0)
            (IsMadeIn H.digest_of bytes definition.now (parts_of sign.now))) result) }
        ensures can_write { IfOk result (CanWrite (A.len media.old)) }
        ensures reads { ReadsSource A.len A.known A.faults IsPrepareStep
            media.old media.new result }
    {
        let front = match drafted(self.alloc, media, file, definition) {
            Ok(front) => front,
            Err(error) => return Err(error),
        };
        let message = match padded(self.alloc, sign, definition) {
            Ok(message) => message,
            Err(error) => return Err(error),
        };
        match ready_with(
            self.alloc,
            self.hashing,
            media,
            front,
            definition,
            message.as_slice(),
        ) {
            Ok(ready) => Ok(ready),
            Err(error) => Err(error),
        }
    }

    // What is to be written, where this was read of a media file, with a definition and a message file.
    fn ready_signed<A: Source, C: Source>(
        &self,
        media: &mut A,
        file: &MediaRead<'_>,
        definition: &Definition,
        signature: &mut C,
    ) -> Result<Ready, BuildError>
        requires formed { IsWellFormed definition.now }
        requires read { IsReadIn (A.len media.old) file.now }
        ensures ready { ForSome (A.known media.old) (λ bytes. (kind : MediaKind)
            → (is : IsKind bytes file.now kind) → HasSize definition.now
            → ForSome (C.known signature.old) (λ message. IsReadyFor bytes
            (IsMadeSigned H.digest_of bytes definition.now message is.stage.0) result)) }
        ensures can_write { IfOk result (CanWrite (A.len media.old)) }
        ensures media { ReadsSource A.len A.known A.faults
            (IsPrepareCause (Rose (C.faults signature.old) (C.faults signature.new)))
            media.old media.new result }
        ensures message { ReadsSource C.len C.known C.faults
            (IsPrepareCause (Rose (A.faults media.old) (A.faults media.new)))
            signature.old signature.new result }
    {
        let sign = match read_message_file(self.alloc, definition.protected.as_slice(), signature) {
            Ok(sign) => sign,
            Err(error) => return Err(error),
        };
        self.ready_over(media, file, definition, &sign)
    }

    // What is to be written, where this was read of a media file, with a definition file and a message file.
    fn ready_of<A: Source, B: Source, C: Source>(
        &self,
        media: &mut A,
        file: &MediaRead<'_>,
        definition: &mut B,
        signature: &mut C,
    ) -> Result<Ready, BuildError>
        requires read { IsReadIn (A.len media.old) file.now }
        requires kind { ForSome (A.known media.old)
            (λ bytes. (kind : MediaKind) × IsKind bytes file.now kind) }
        ensures prepared { IsPrepared H.digest_of (A.known media.old) (B.known definition.old)
            (C.known signature.old) (A.len media.old) result }
        ensures not_due { LeavesUndue (A.known media.old) (B.known definition.old)
            definition.old definition.new signature.old signature.new }
        ensures sources { ReadsSigned IsPrepareCause
            (use_of A.len A.known A.faults media.old media.new)
            (use_of B.len B.known B.faults definition.old definition.new)
            (use_of C.len C.known C.faults signature.old signature.new) result }
    {
        let definition = match read_definition_file(self.alloc, definition) {
            Ok(definition) => definition,
            Err(error) => return Err(error),
        };
        self.ready_signed(media, file, &definition, signature)
    }

    // What is to be written, where this was found of a media file, with a definition file and a message file.
    fn ready_in<A: Source, B: Source, C: Source>(
        &self,
        media: &mut A,
        file: &Contained,
        definition: &mut B,
        signature: &mut C,
    ) -> Result<Ready, BuildError>
        requires inside { IsWithin (A.len media.old) file.now }
        requires found { ForSome (A.known media.old) (λ bytes. IsFoundIn bytes file.now) }
        ensures prepared { IsPrepared H.digest_of (A.known media.old) (B.known definition.old)
            (C.known signature.old) (A.len media.old) result }
        ensures not_due { LeavesUndue (A.known media.old) (B.known definition.old)
            definition.old definition.new signature.old signature.new }
        ensures sources { ReadsSigned IsPrepareCause
            (use_of A.len A.known A.faults media.old media.new)
            (use_of B.len B.known B.faults definition.old definition.new)
            (use_of C.len C.known C.faults signature.old signature.new) result }
    {
        let read = match read_media(self.alloc, file) {
            Ok(read) => read,
            Err(error) => return Err(error),
        };
        self.ready_of(media, &read, definition, signature)
    }
}

/// What is to be written, made from the three sources.
pub(crate) fn prepare<A: Source, B: Source, C: Source, H: Hashing>(
    alloc: Global,
    hashing: &H,
    media: &mut A,
    definition: &mut B,
    signature: &mut C,
) -> Result<Ready, BuildError>
    ensures prepared { IsPrepared H.digest_of (A.known media.old) (B.known definition.old)
        (C.known signature.old) (A.len media.old) result }
    ensures not_due { LeavesUndue (A.known media.old) (B.known definition.old)
        definition.old definition.new signature.old signature.new }
    ensures sources { ReadsSigned IsPrepareCause
        (use_of A.len A.known A.faults media.old media.new)
        (use_of B.len B.known B.faults definition.old definition.new)
        (use_of C.len C.known C.faults signature.old signature.new) result }
{
    let builder = Builder { alloc, hashing };
    let file = match open_media(alloc, media) {
        Ok(file) => file,
        Err(error) => return Err(error),
    };
    builder.ready_in(media, &file, definition, signature)
}
