// The other file: it is opened and checked, once.
ghost use Rattle.std.specs.Prelude.{ℕ, List, IfErr, IfOk, OnOk, map};
ghost use Rattle.std.specs.Option.{ForSome};
ghost use Rattle.c2_base.specs.Source.{ReadsSource};
ghost use Rattle.c2_spec.specs.C2pa.Manifest.{IsStoreOf};
ghost use Rattle.c2_spec.specs.Judges.Panel.{panel_says};
ghost use Rattle.c2_rules.specs.Asking.{HearsPanel};
ghost use Rattle.c2_container.specs.Contained.{HasRootsInside};
ghost use Rattle.c2_build_base.specs.Grounds.{IsChecked};
ghost use Rattle.c2_build_refusals.specs.Kinds.{WithoutFault, build_heard};
ghost use Rattle.c2_validate.specs.Checked.{IsOpenedFrom, StoreAsks};
ghost use Rattle.c2_build_collect_base.specs.Grounds.{IsGroundCause};
ghost use Rattle.c2_build_collect_base.specs.Steps.{IsFoundThere, IsInner, IsOpeningError};
ghost use Rattle.c2_build_collect_base.specs.Steps.{IsOtherCause, IsOtherError, IsReadThere};

use c2_base::{NoMemory, Range, Source};
use c2_build_base::OlderStore;
use c2_build_refusals::{BuildError, fault};
use c2_hash::Hashing;
use c2_judge::Judge;
use c2_opening::types::Media;
use c2_validate::types::StoreRead;
use c2_validate::{
    Answer, Checked, Opened, OpenedStore, a_store_answers_for_its_file, check, find_store,
    read_store,
};
use std::alloc::Global;

/// Finds the container of another file, and its store. `OtherRefused` comes where the container is refused, or the box or the packets of the
/// store, and where there is no store.
pub(crate) fn open_other<D: Source>(alloc: Global, other: &mut D) -> Result<Media, BuildError>
    ensures found { ForSome (D.known other.old) (λ file. IfOk result (IsFoundThere file)) }
    ensures refused { ForSome (D.known other.old) (λ file.
        IfErr result (λ e. WithoutFault e (IsOpeningError file e))) }
    ensures inside { IfOk result (λ m. HasRootsInside (D.len other.old) m.container) }
    ensures reads { ReadsSource D.len D.known D.faults IsOtherCause other.old other.new result }
{
    let opened = match find_store(alloc, other) {
        Ok(opened) => opened,
        Err(error) => return Err(fault(error)),
    };
    match opened {
        Opened::Here(media) => Ok(media),
        Opened::NoStore(_) => Err(BuildError::OtherRefused(Answer::NoStore)),
        Opened::Refused(reason, number) => {
            Err(BuildError::OtherRefused(Answer::Refused(reason, number)))
        }
    }
}

/// Reads the store that was found in another file, as a store of manifests. `OtherRefused` comes where the store is refused.
pub(crate) fn read_other<'t>(alloc: Global, media: &'t Media) -> Result<OlderStore<'t>, BuildError>
    ensures there { IfOk result (λ s. (file : List ℕ) → IsFoundThere file media.now
        → IsReadThere file media.now.container s) }
    ensures boxes { IfOk result (λ s. IsStoreOf s.tree s.store) }
    ensures refused { (file : List ℕ) → IsFoundThere file media.now
        → IfErr result (λ e. WithoutFault e (IsOpeningError file e)) }
    ensures inner { IfErr result IsInner }
{
    let read = match read_store(alloc, &media.found) {
        Ok(read) => read,
        Err(NoMemory) => return Err(BuildError::NoMemory),
    };
    let range = Range {
        start: media.found.start,
        length: media.found.length,
    };
    match read {
        StoreRead::Here(tree, store) => Ok(OlderStore { range, tree, store }),
        StoreRead::Refused(reason, number) => {
            Err(BuildError::OtherRefused(Answer::Refused(reason, number)))
        }
    }
}

/// Checks the store of another file, as it was opened, against the file. `OtherRefused` comes where a rule of the check fails.
pub(crate) fn check_other<D: Source, H: Hashing>(
    alloc: Global,
    hashing: &H,
    other: &mut D,
    store: &OpenedStore<'_, '_>,
    judges: &mut Vec<Box<dyn Judge>>,
) -> Result<(), BuildError>
    requires { HasRootsInside (D.len other.old) store.now.container.now }
    ensures checked { let said = panel_says (map says judges.old.items) in
        ForSome (D.known other.old) (λ file. IsOpenedFrom file store.now
        → OnOk result (IsChecked H.digest_of said file)) }
    ensures refused { let said = panel_says (map says judges.old.items) in
        ForSome (D.known other.old) (λ file. IsOpenedFrom file store.now
        → IfErr result (λ e. WithoutFault e (IsOtherError H.digest_of said file e))) }
    ensures reads { ReadsSource D.len D.known D.faults (IsGroundCause ⊥)
        other.old other.new result }
    ensures panel { HearsPanel says asked_times judge_faults build_heard
        (StoreAsks H.digest_of store.now) judges.old judges.new result }
{
    a_store_answers_for_its_file();
    let checked = match check(alloc, hashing, other, store, judges) {
        Ok(checked) => checked,
        Err(error) => return Err(fault(error)),
    };
    match checked {
        Checked::Valid(_, _) => Ok(()),
        Checked::Failing(failing) => Err(BuildError::OtherRefused(Answer::Failing(failing))),
    }
}
