// Writing a new file whose store collects.
ghost use Rattle.std.specs.Prelude.{map};
ghost use Rattle.c2_build_endings.specs.Endings.{WritesOut};
ghost use Rattle.c2_build_endings.specs.Sources.{use_of};
ghost use Rattle.c2_build_in_place.specs.Writings.{FitsOut};
ghost use Rattle.c2_spec.specs.Judges.Panel.{panel_says};
ghost use Rattle.c2_rules.specs.Asking.{HearsPanel};
ghost use Rattle.c2_build_refusals.specs.Kinds.{build_heard};
ghost use Rattle.c2_build_collect.specs.Answers.{AsksEmbedded, EmbedsCollected, ForEmbedInputs};
ghost use Rattle.c2_build_collect.specs.Answers.{IsEmbedCause, IsPrepareCause, LeavesBuildUndue};
ghost use Rattle.c2_build_collect.specs.Answers.{ReadsSignedPair};
ghost use Rattle.c2_build_collect.specs.Steps.{IsBuildDrafted, IsPrepared};

use crate::ready::{Builder, Maker};
use c2_base::{Sink, Source};
use c2_build_base::open_media;
use c2_build_drafts::{DraftedBuild, make_ready};
use c2_build_in_place::{Ready, write_file};
use c2_build_refusals::{BuildError, Embedded};
use c2_build_writing::copy_fault;
use c2_hash::Hashing;
use c2_judge::Judge;
use std::alloc::Global;

impl<'h, H: Hashing> Maker<'h, H> {
    // What is to be built with a message, made from the four sources. What is opened and read of them is let go.
    fn draft<A: Source, B: Source, C: Source, D: Source>(
        &self,
        media: &mut A,
        definition: &mut B,
        signature: &mut C,
        other: &mut D,
        judges: &mut Vec<Box<dyn Judge>>,
    ) -> Result<DraftedBuild, BuildError>
        requires { Unit {0} }
        ensures build { let said = panel_says (map says judges.old.items) in
            IsBuildDrafted H.digest_of said (A.known media.old) (B.known definition.old)
            (C.known signature.old) (D.known other.old) (A.len media.old) result }
        ensures not_due { let said = panel_says (map says judges.old.items) in
            LeavesBuildUndue H.digest_of said (A.known media.old) (B.known definition.old)
            (C.known signature.old) definition.old definition.new signature.old signature.new
            other.old other.new }
        ensures sources { ReadsSignedPair IsPrepareCause
            (use_of A.len A.known A.faults media.old media.new)
            (use_of B.len B.known B.faults definition.old definition.new)
            (use_of C.len C.known C.faults signature.old signature.new)
            (use_of D.len D.known D.faults other.old other.new) result }
        ensures panel { HearsPanel says asked_times judge_faults build_heard (AsksEmbedded
            H.digest_of (A.known media.old) (B.known definition.old) (C.known signature.old)
            (D.known other.old)) judges.old judges.new result }
    {
        let file = match open_media(self.alloc, media) {
            Ok(file) => file,
            Err(error) => return Err(error),
        };
        let builder = Builder {
            alloc: self.alloc,
            hashing: self.hashing,
            file: &file,
        };
        builder.draft(media, definition, signature, other, judges)
    }

    // What is to be written, made from the four sources. No store of them is in memory any more while the new one is made.
    fn prepare<A: Source, B: Source, C: Source, D: Source>(
        &self,
        media: &mut A,
        definition: &mut B,
        signature: &mut C,
        other: &mut D,
        judges: &mut Vec<Box<dyn Judge>>,
    ) -> Result<Ready, BuildError>
        requires { Unit {0} }
        ensures prepared { let said = panel_says (map says judges.old.items) in
            IsPrepared H.digest_of said (A.known media.old) (B.known definition.old)
            (C.known signature.old) (D.known other.old) (A.len media.old) result }
        ensures not_due { let said = panel_says (map says judges.old.items) in
            LeavesBuildUndue H.digest_of said (A.known media.old) (B.known definition.old)
            (C.known signature.old) definition.old definition.new signature.old signature.new
            other.old other.new }
        ensures sources { ReadsSignedPair IsPrepareCause
            (use_of A.len A.known A.faults media.old media.new)
            (use_of B.len B.known B.faults definition.old definition.new)
            (use_of C.len C.known C.faults signature.old signature.new)
            (use_of D.len D.known D.faults other.old other.new) result }
        ensures panel { HearsPanel says asked_times judge_faults build_heard (AsksEmbedded
            H.digest_of (A.known media.old) (B.known definition.old) (C.known signature.old)
            (D.known other.old)) judges.old judges.new result }
    {
        let build = match self.draft(media, definition, signature, other, judges) {
            Ok(build) => build,
            Err(error) => return Err(error),
        };
        make_ready(self.alloc, self.hashing, media, build)
    }
}

/// Writes the new file: the media with a new store, of a definition and of a signed message, in its place, which carries the manifests of the media's
/// store and what is reached in the other file's, less what the definition redacts, and has the last manifest of the other file's store as a component
/// beside the parent, where the media has a store. The place is behind the APP0 segments of a JPEG file; in a BMFF file at the end, or before a last
/// `mfra`.
///
/// The media is refused by `MediaRefused`, then the definition by `BadDefinition`, then the message by `BadSignature`. What comes behind these is refused
/// as `plan_collect` refuses it, and at last `ReserveTooSmall` comes where the message doesn't fit into the bytes that are reserved for it. Over known
/// bytes the error is the first of these whose condition holds. `ReadFault` and `WriteFault` come only where a source or the sink failed in this call, and
/// leave a prefix of the new file that isn't finished; every other error leaves the sink as it was, since all memory is taken before anything is written.
/// `WriteFault` never comes within a stated spare that holds the new file, nor, whatever is known of the sources, within one that holds the media and
/// 33,564,924 bytes, the packets of the longest store. `JudgeFault` comes only where a judge failed in this call, and `NoMemory` where memory ran out; no other error comes.
///
/// The judges are asked what the check of the media's store asks, where it has one and neither the definition nor the message is refused, and then, where
/// no rule of that fails, what the check of the other file asks. The definition isn't read where the media is refused, the message isn't where the media
/// or the definition is, and the other file isn't where the media isn't accepted or one of these is refused. Each file is opened once, and read in pieces.
// The condition always holds: a function that is lent boxed judges is called under a contract only where it has one.
pub fn embed_collect<A: Source, B: Source, C: Source, D: Source, K: Sink, H: Hashing>(
    alloc: Global,
    hashing: &H,
    media: &mut A,
    definition: &mut B,
    signature: &mut C,
    other: &mut D,
    judges: &mut Vec<Box<dyn Judge>>,
    out: &mut K,
) -> Result<Embedded, BuildError>
    requires { Unit {0} }
    // Where the bytes that are due are known: this is what they come to, what the sink took, and what the new file meets.
    ensures embedded { let said = panel_says (map says judges.old.items) in
        ForEmbedInputs H.digest_of said (A.known media.old) (B.known definition.old)
        (C.known signature.old) (D.known other.old) (λ file bytes message others.
        EmbedsCollected K.written K.spare K.finished H.digest_of said file bytes message others
        out.old out.new result) }
    ensures not_due { let said = panel_says (map says judges.old.items) in
        LeavesBuildUndue H.digest_of said (A.known media.old) (B.known definition.old)
        (C.known signature.old) definition.old definition.new signature.old signature.new
        other.old other.new }

    // These hold of every source; just the questions of the build are asked where the bytes are known that tell them.
    ensures sources { ReadsSignedPair IsEmbedCause
        (use_of A.len A.known A.faults media.old media.new)
        (use_of B.len B.known B.faults definition.old definition.new)
        (use_of C.len C.known C.faults signature.old signature.new)
        (use_of D.len D.known D.faults other.old other.new) result }
    ensures sink { WritesOut K.written K.faults K.finished out.old out.new result }
    ensures spare { FitsOut (K.spare out.old) (A.len media.old) result }
    ensures panel { HearsPanel says asked_times judge_faults build_heard (AsksEmbedded
        H.digest_of (A.known media.old) (B.known definition.old) (C.known signature.old)
        (D.known other.old)) judges.old judges.new result }
{
    let maker = Maker { alloc, hashing };
    let ready = match maker.prepare(media, definition, signature, other, judges) {
        Ok(ready) => ready,
        Err(error) => return Err(error),
    };
    let embedded = Embedded {
        start: ready.draft.start,
        length: ready.draft.length,
    };
    match write_file(media, ready, out) {
        Ok(()) => Ok(embedded),
        Err(error) => Err(copy_fault(error)),
    }
}
