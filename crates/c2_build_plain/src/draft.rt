// What is to be built, by what is known before anything is digested.
ghost use Rattle.std.specs.Prelude.{IfErr, IfOk, map};
ghost use Rattle.std.specs.Option.{ForSome};
ghost use Rattle.c2_base.specs.Source.{ReadsSource};
ghost use Rattle.c2_without_store.specs.Clears.{cleared_len};
ghost use Rattle.c2_spec.specs.Judges.Panel.{panel_says};
ghost use Rattle.c2_rules.specs.Asking.{HearsPanel};
ghost use Rattle.c2_new_file_spec.specs.Store.{new_alg};
ghost use Rattle.c2_build_refusals.specs.Kinds.{IsAskCause, WithoutFault, build_heard};
ghost use Rattle.c2_build_refusals.specs.Stages.{MediaKind};
ghost use Rattle.c2_build_parts.specs.Bound.{IsSmall};
ghost use Rattle.c2_build_in_place.specs.Numbers.{IsOfFile};
ghost use Rattle.c2_build_base.specs.Grounds.{IsKind, IsReadIn, KindHears};
ghost use Rattle.c2_build_plain.specs.Steps.{IsDrafted, IsRefusedPlace};

use c2_base::Source;
use c2_build_base::{MediaRead, grounded};
use c2_build_drafts::draft_in_place;
use c2_build_refusals::{BuildError, Drafted};
use c2_definition::Definition;
use c2_hash::Hashing;
use c2_judge::Judge;
use std::alloc::Global;

/// What is to be built, where this was read of a media file. Judges are asked what the check of its store asks, where it has one.
pub fn draft_over<A: Source, H: Hashing>(
    alloc: Global,
    hashing: &H,
    media: &mut A,
    file: &MediaRead<'_>,
    definition: &Definition,
    judges: &mut Vec<Box<dyn Judge>>,
) -> Result<Drafted, BuildError>
    requires { IsReadIn (A.len media.old) file.now }
    ensures passed { let said = panel_says (map says judges.old.items) in
        IfOk result (λ w. ForSome (A.known media.old) (λ bytes. (kind : MediaKind)
        → IsKind bytes file.now kind
        → IsDrafted H.digest_of said bytes definition.now kind w)) }
    ensures refused { let said = panel_says (map says judges.old.items) in
        IfErr result (λ e. ForSome (A.known media.old) (λ bytes. (kind : MediaKind)
        → IsKind bytes file.now kind → IsOfFile definition.now
        → WithoutFault e (IsRefusedPlace H.digest_of said bytes definition.now kind e))) }
    ensures small { IfOk result (λ w. IsSmall (H.digest_of (new_alg definition.now))
        (cleared_len w.ground.clearing (A.len media.old)) definition.now w) }
    ensures reads { ReadsSource A.len A.known A.faults IsAskCause media.old media.new result }
    ensures panel { HearsPanel says asked_times judge_faults build_heard
        (KindHears H.digest_of (A.known media.old) file.now) judges.old judges.new result }
{
    let ground = match grounded(alloc, hashing, media, file, definition, judges) {
        Ok(ground) => ground,
        Err(error) => return Err(error),
    };
    draft_in_place(alloc, file.contained, definition, ground)
}
