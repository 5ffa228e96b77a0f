// A media file that is opened once, and checked.
ghost use Rattle.std.specs.Prelude.{◌≡◌, ℕ, List, map, IfOk, IfErr};
ghost use Rattle.std.specs.Option.{ForSome};
ghost use Rattle.c2_base.specs.Source.{ReadsSource};
ghost use Rattle.c2_spec.specs.Judges.Panel.{panel_says};
ghost use Rattle.c2_rules.specs.Asking.{HearsPanel};
ghost use Rattle.c2_container.specs.Contained.{HasRootsInside};
ghost use Rattle.c2_opening.specs.Opened.{IsOpeningCause, IsFound, IsStoreRead};
ghost use Rattle.c2_opening.specs.declared.types.Opened.TheVariants as opened;
ghost use Rattle.c2_opening.specs.declared.types.StoreRead.TheVariants as store_read;
ghost use Rattle.c2_validate.specs.Checked.{IsOpenedFrom, IsCheckReadCause, readings_of};
ghost use Rattle.c2_compare_opened.specs.Sides.{IsCompareSide};
ghost use Rattle.c2_compare.specs.Accepting.{AsksChecked, IsEnded, IsUnaccepted, IsUnopened};
ghost use Rattle.c2_compare.specs.Accepting.{IsUnread, ended_as, ended_heard, fault_of};

use c2_base::{NoMemory, Source};
use c2_compare_evidence::CompareError;
use c2_compare_spec::{Compared, Side};
use c2_hard_binding::BoundText;
use c2_hash::Hashing;
use c2_judge::Judge;
use c2_jumbf::Tree;
use c2_opening::types::{Media, Opened, StoreRead};
use c2_opening::{ValidateError, find_store, read_store};
use c2_rules::{Answer, Summary};
use c2_store::Store;
use c2_validate::{Checked, OpenedStore, a_store_answers_for_its_file, check};
use std::alloc::Global;

/// Why a file isn't compared.
#[derive(Drop)]
pub enum Unaccepted {
    /// The check of the file answers this, by which it isn't accepted.
    Refused(Answer),

    /// The check of the file has no answer.
    Failed(ValidateError),
}

impl Unaccepted {
    /// What the comparison ends with that comes to this file.
    pub fn end(self, side: Side) -> Result<Compared, CompareError>
        ensures { result ≡ ended_as side self }
    {
        match self {
            Unaccepted::Refused(answer) => Ok(Compared::NotAccepted(side, answer)),
            Unaccepted::Failed(error) => Err(fault(error)),
        }
    }
}

/// What the check of an accepted file found.
#[derive(Drop)]
pub struct Accepted {
    /// What was counted.
    pub summary: Summary,

    /// What the binding of the active manifest covers.
    pub text: BoundText,
}

// The fault that an error of the check stands for.
fn fault(error: ValidateError) -> CompareError
    ensures { result ≡ fault_of error }
{
    match error {
        ValidateError::ReadFault => CompareError::ReadFault,
        ValidateError::JudgeFault => CompareError::JudgeFault,
        ValidateError::NoMemory => CompareError::NoMemory,
    }
}

/// The container and the store of a file.
pub fn find<S: Source>(alloc: Global, source: &mut S) -> Result<Media, Unaccepted>
    ensures found { ForSome (S.known source.old)
        (λ file. IfOk result (λ media. IsFound file (opened.Here media))) }
    ensures refused { ForSome (S.known source.old) (λ file. IfErr result (IsUnopened file)) }
    ensures inside { IfOk result (λ media. HasRootsInside (S.len source.old) media.container) }
    ensures reads { ReadsSource S.len S.known S.faults (IsEnded IsOpeningCause)
        source.old source.new
        result }
{
    // Matched and not handed up by `?`, here and below: each way out has clauses of its own.
    let found = match find_store(alloc, source) {
        Ok(found) => found,
        Err(error) => return Err(Unaccepted::Failed(error)),
    };
    match found {
        Opened::Here(media) => Ok(media),
        Opened::NoStore(_) => Err(Unaccepted::Refused(Answer::NoStore)),
        Opened::Refused(reason, number) => {
            Err(Unaccepted::Refused(Answer::Refused(reason, number)))
        }
    }
}

/// The box tree of a file's store, and the boxes of its manifests.
pub fn read<'t>(alloc: Global, media: &'t Media) -> Result<(Tree<'t>, Store), Unaccepted>
    ensures read { IfOk result (λ x. IsStoreRead media.now.found (store_read.Here x.0 x.1)) }
    ensures refused { (file : List ℕ) → IsFound file (opened.Here media.now)
        → IfErr result (IsUnopened file) }
    ensures errors { IfErr result IsUnread }
{
    let found = match read_store(alloc, &media.found) {
        Ok(found) => found,
        Err(NoMemory) => return Err(Unaccepted::Failed(ValidateError::NoMemory)),
    };
    match found {
        StoreRead::Here(tree, store) => Ok((tree, store)),
        StoreRead::Refused(reason, number) => {
            Err(Unaccepted::Refused(Answer::Refused(reason, number)))
        }
    }
}

/// Checks a file by its store, which was opened.
pub fn accept<S: Source, H: Hashing>(
    alloc: Global,
    hashing: &H,
    source: &mut S,
    store: &OpenedStore<'_, '_>,
    judges: &mut Vec<Box<dyn Judge>>,
) -> Result<Accepted, Unaccepted>
    requires inside { HasRootsInside (S.len source.old) store.now.container.now }
    requires opened { ForSome (S.known source.old) (λ file. IsOpenedFrom file store.now) }
    ensures side { let said = panel_says (map says judges.old.items) in
        let rs = readings_of store.now in
        ForSome (S.known source.old) (λ file. IfOk result
        (λ found. IsCompareSide H.digest_of said file rs found.text found.summary)) }
    ensures refused { let said = panel_says (map says judges.old.items) in
        ForSome (S.known source.old)
        (λ file. IfErr result (IsUnaccepted H.digest_of said file)) }
    ensures size { IfOk result (λ found. found.text.cover.size ≡ S.len source.old) }
    ensures reads { ReadsSource S.len S.known S.faults (IsEnded IsCheckReadCause)
        source.old source.new
        result }
    ensures panel { HearsPanel says asked_times judge_faults ended_heard
        (AsksChecked H.digest_of (S.known source.old)) judges.old judges.new result }
{
    a_store_answers_for_its_file();
    let checked = match check(alloc, hashing, source, store, judges) {
        Ok(checked) => checked,
        Err(error) => return Err(Unaccepted::Failed(error)),
    };
    match checked {
        Checked::Valid(summary, text) => Ok(Accepted { summary, text }),
        Checked::Failing(failing) => Err(Unaccepted::Refused(Answer::Failing(failing))),
    }
}
