// What is to be built over two files, by what is known before anything is digested.
ghost use Rattle.std.specs.Prelude.{IfOk, map};
ghost use Rattle.c2_base.specs.Causes.{Rose};
ghost use Rattle.c2_base.specs.Source.{ReadsSource};
ghost use Rattle.c2_spec.specs.Judges.Panel.{panel_says};
ghost use Rattle.c2_rules.specs.Asking.{HearsPanel};
ghost use Rattle.c2_new_file_spec.specs.Store.{new_alg};
ghost use Rattle.c2_without_store.specs.Clears.{cleared_len};
ghost use Rattle.c2_build_refusals.specs.Kinds.{build_heard};
ghost use Rattle.c2_build_base.specs.Grounds.{IsReadIn};
ghost use Rattle.c2_build_collect_base.specs.Grounds.{IsGroundCause, PairHears};
ghost use Rattle.c2_build_parts.specs.Bound.{IsSmall};
ghost use Rattle.c2_build_collect.specs.Steps.{ForFiles, IsDraftOf, LeavesOther};

use c2_base::Source;
use c2_build_base::MediaRead;
use c2_build_collect_base::Collector;
use c2_build_drafts::draft_in_place;
use c2_build_refusals::{BuildError, Drafted};
use c2_definition::Definition;
use c2_hash::Hashing;
use c2_judge::Judge;
use std::alloc::Global;

/// What builds are drafted with, once the media file is read.
#[derive(Drop)]
pub(crate) struct Drafter<'b, 't, H> {
    /// What takes memory.
    pub(crate) alloc: Global,

    /// What makes digests.
    pub(crate) hashing: &'b H,

    /// What was read of the media file.
    pub(crate) file: &'b MediaRead<'t>,
}

/// What a build is made of, once the media file and the definition are read.
#[derive(Drop)]
pub(crate) struct Build<'b, 't, H> {
    /// What takes memory.
    pub(crate) alloc: Global,

    /// What makes digests.
    pub(crate) hashing: &'b H,

    /// What was read of the media file.
    pub(crate) file: &'b MediaRead<'t>,

    /// The definition.
    pub(crate) definition: &'b Definition,
}

impl<'b, 't, H: Hashing> Build<'b, 't, H> {
    /// What is to be built over both files. Judges are asked what the checks of both ask.
    pub(crate) fn drafted<A: Source, D: Source>(
        &self,
        media: &mut A,
        other: &mut D,
        judges: &mut Vec<Box<dyn Judge>>,
    ) -> Result<Drafted, BuildError>
        requires { IsReadIn (A.len media.old) self.now.file.now }
        ensures drafted { let said = panel_says (map says judges.old.items) in
            let d = self.now.definition.now in
            ForFiles H.digest_of said (A.known media.old) (D.known other.old) self.now.file.now
            (λ bytes what others. IsDraftOf H.digest_of said bytes others what d result) }
        ensures not_due { let said = panel_says (map says judges.old.items) in
            LeavesOther H.digest_of said (A.known media.old) self.now.file.now
            other.old other.new }
        ensures small { let d = self.now.definition.now in
            IfOk result (λ w. IsSmall (H.digest_of (new_alg d))
            (cleared_len w.ground.clearing (A.len media.old)) d w) }
        ensures media { ReadsSource A.len A.known A.faults
            (IsGroundCause (Rose (D.faults other.old) (D.faults other.new)))
            media.old media.new result }
        ensures other { ReadsSource D.len D.known D.faults
            (IsGroundCause (Rose (A.faults media.old) (A.faults media.new)))
            other.old other.new result }
        ensures panel { HearsPanel says asked_times judge_faults build_heard
            (PairHears H.digest_of (A.known media.old) (D.known other.old) self.now.file.now)
            judges.old judges.new result }
    {
        let collector = Collector {
            alloc: self.alloc,
            hashing: self.hashing,
            definition: self.definition,
        };
        // Matched and not handed up by `?`: each way out has clauses of its own.
        let ground = match collector.ground(media, self.file, other, judges) {
            Ok(ground) => ground,
            Err(error) => return Err(error),
        };
        draft_in_place(self.alloc, self.file.contained, self.definition, ground)
    }
}
