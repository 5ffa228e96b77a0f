// What is to be built with a message.
ghost use Rattle.std.specs.Prelude.{map};
ghost use Rattle.c2_build_endings.specs.Sources.{use_of};
ghost use Rattle.c2_spec.specs.Judges.Panel.{panel_says};
ghost use Rattle.c2_rules.specs.Asking.{HearsPanel};
ghost use Rattle.c2_build_refusals.specs.Kinds.{build_heard};
ghost use Rattle.c2_build_base.specs.Grounds.{IsReadIn};
ghost use Rattle.c2_build_collect.specs.Answers.{AsksEmbedded, IsPrepareCause, LeavesBuildUndue};
ghost use Rattle.c2_build_collect.specs.Answers.{ReadsSignedPair};
ghost use Rattle.c2_build_collect.specs.Steps.{IsBuildDrafted, IsFileFound, IsOfSomeKind};

use crate::drafting::{Build, Drafter};
use crate::filling::built;
use c2_base::Source;
use c2_build_base::read_media;
use c2_build_drafts::DraftedBuild;
use c2_build_refusals::{BuildError, read_definition_file};
use c2_container::Contained;
use c2_hash::Hashing;
use c2_judge::Judge;
use std::alloc::Global;

/// What builds are made with, once the media file is opened.
#[derive(Drop)]
pub(crate) struct Builder<'b, H> {
    /// What takes memory.
    pub(crate) alloc: Global,

    /// What makes digests.
    pub(crate) hashing: &'b H,

    /// What was found of the media file.
    pub(crate) file: &'b Contained,
}

/// What new files are made ready with.
#[derive(Drop)]
pub(crate) struct Maker<'h, H> {
    /// What takes memory.
    pub(crate) alloc: Global,

    /// What makes digests.
    pub(crate) hashing: &'h H,
}

impl<'b, 't, H: Hashing> Drafter<'b, 't, H> {
    // What is to be built over a media file that was read, with a message, made from the other three sources.
    fn draft<A: Source, B: Source, C: Source, D: Source>(
        &self,
        media: &mut A,
        definition: &mut B,
        signature: &mut C,
        other: &mut D,
        judges: &mut Vec<Box<dyn Judge>>,
    ) -> Result<DraftedBuild, BuildError>
        requires inside { IsReadIn (A.len media.old) self.now.file.now }
        requires kind { IsOfSomeKind (A.known media.old) self.now.file.now }
        ensures build { let said = panel_says (map says judges.old.items) in
            IsBuildDrafted H.digest_of said (A.known media.old) (B.known definition.old)
            (C.known signature.old) (D.known other.old) (A.len media.old) result }
        ensures not_due { let said = panel_says (map says judges.old.items) in
            LeavesBuildUndue H.digest_of said (A.known media.old) (B.known definition.old)
            (C.known signature.old) definition.old definition.new signature.old signature.new
            other.old other.new }
        ensures sources { ReadsSignedPair IsPrepareCause
            (use_of A.len A.known A.faults media.old media.new)
            (use_of B.len B.known B.faults definition.old definition.new)
            (use_of C.len C.known C.faults signature.old signature.new)
            (use_of D.len D.known D.faults other.old other.new) result }
        ensures panel { HearsPanel says asked_times judge_faults build_heard (AsksEmbedded
            H.digest_of (A.known media.old) (B.known definition.old) (C.known signature.old)
            (D.known other.old)) judges.old judges.new result }
    {
        let definition = match read_definition_file(self.alloc, definition) {
            Ok(definition) => definition,
            Err(error) => return Err(error),
        };
        let build = Build {
            alloc: self.alloc,
            hashing: self.hashing,
            file: self.file,
            definition: &definition,
        };
        let filled = build.with_signature(media, signature, other, judges);
        built(definition, filled)
    }
}

impl<'b, H: Hashing> Builder<'b, H> {
    /// What is to be built with a message, made from the other three sources.
    pub(crate) fn draft<A: Source, B: Source, C: Source, D: Source>(
        &self,
        media: &mut A,
        definition: &mut B,
        signature: &mut C,
        other: &mut D,
        judges: &mut Vec<Box<dyn Judge>>,
    ) -> Result<DraftedBuild, BuildError>
        requires { IsFileFound (A.len media.old) (A.known media.old) self.now.file.now }
        ensures build { let said = panel_says (map says judges.old.items) in
            IsBuildDrafted H.digest_of said (A.known media.old) (B.known definition.old)
            (C.known signature.old) (D.known other.old) (A.len media.old) result }
        ensures not_due { let said = panel_says (map says judges.old.items) in
            LeavesBuildUndue H.digest_of said (A.known media.old) (B.known definition.old)
            (C.known signature.old) definition.old definition.new signature.old signature.new
            other.old other.new }
        ensures sources { ReadsSignedPair IsPrepareCause
            (use_of A.len A.known A.faults media.old media.new)
            (use_of B.len B.known B.faults definition.old definition.new)
            (use_of C.len C.known C.faults signature.old signature.new)
            (use_of D.len D.known D.faults other.old other.new) result }
        ensures panel { HearsPanel says asked_times judge_faults build_heard (AsksEmbedded
            H.digest_of (A.known media.old) (B.known definition.old) (C.known signature.old)
            (D.known other.old)) judges.old judges.new result }
    {
        let read = match read_media(self.alloc, self.file) {
            Ok(read) => read,
            Err(error) => return Err(error),
        };
        let drafter = Drafter {
            alloc: self.alloc,
            hashing: self.hashing,
            file: &read,
        };
        drafter.draft(media, definition, signature, other, judges)
    }
}
