// The check of opened manifests, and of a media file.
ghost use Rattle.std.specs.Prelude.{◌≡◌, IfOk, map};
ghost use Rattle.std.specs.Option.{ForSome};
ghost use Rattle.c2_base.specs.Source.{ReadsSource};
ghost use Rattle.c2_spec.specs.C2pa.Manifest.{IsStoreOf};
ghost use Rattle.c2_spec.specs.Judges.Panel.{panel_says};
ghost use Rattle.c2_rules.specs.Asking.{HearsPanel};
ghost use Rattle.c2_calls_spec.specs.Asks.{AsksKnown};
ghost use Rattle.c2_container.specs.Contained.{HasRootsInside};
ghost use Rattle.c2_validate.specs.Checked.{HasTextSize, IsCheckedOver, IsCheckReadCause};
ghost use Rattle.c2_validate.specs.Checked.{StoreAsks, answer_as, validate_heard};
ghost use Rattle.c2_validate.specs.Boxes.{BoxesAsk, IsAnsweredOver, IsBoxesAnswer, IsMediaAnswer};
ghost use Rattle.c2_validate.specs.Boxes.{MediaAsks};
ghost use Rattle.c2_validate.specs.Checks.{fault_of};
ghost use Rattle.c2_validate.specs.Validation.{FileAsks, IsAnswered};

use crate::chain::check_chain;
use crate::counting::summary;
use c2_base::{NoMemory, Range, Source};
use c2_chain::{Chain, ChainError, active_manifest, check_active, of_store};
use c2_hard_binding::{Bound, BoundText, check_binding};
use c2_hash::Hashing;
use c2_judge::Judge;
use c2_jumbf::Tree;
use c2_opening::types::{Container, Media, Opened, StoreRead};
use c2_opening::{ValidateError, find_store, read_store};
use c2_rules::{Answer, Failing, Summary};
use c2_store::Store;
use std::alloc::Global;

/// A store that was opened, as it is checked against a media file.
#[derive(Clone, Copy)]
pub struct OpenedStore<'c, 't> {
    /// The container of the media file.
    pub container: &'c Container,

    /// The embedded range of the store in the file; that of an external store has the length 0.
    pub range: Range,

    /// The store's manifests.
    pub chain: &'c Chain<'t>,
}

/// What the check of an opened store says.
#[derive(Drop)]
pub enum Checked {
    /// All rules hold: what is counted, and what the binding of the active manifest covers of the file.
    Valid(Summary, BoundText),

    /// This rule fails first.
    Failing(Failing),
}

/// A fault of a check that reads no source, as one of a check that reads one.
fn fault(error: ChainError) -> ValidateError
    ensures { result ≡ fault_of error }
{
    match error {
        ChainError::JudgeFault => ValidateError::JudgeFault,
        ChainError::NoMemory => ValidateError::NoMemory,
    }
}

/// The answer that this stands for.
pub fn answer(checked: Checked) -> Answer
    ensures { result ≡ answer_as checked }
{
    match checked {
        Checked::Valid(summary, _) => Answer::Valid(summary),
        Checked::Failing(failing) => Answer::Failing(failing),
    }
}

/// Checks a store that was opened: its active manifest is no update; then the rules of each reached manifest, from the last to
/// the first; then the binding of the active one to the file's bytes (C2PA Technical Specification 2.x, "Validation").
///
/// The panel is asked of each reached manifest whose rules before the verdict hold, while no rule of a later one fails. `ReadFault`
/// comes only where the source failed in this call, `JudgeFault` only where a judge did that was due.
pub fn check<S: Source, H: Hashing>(
    alloc: Global,
    hashing: &H,
    source: &mut S,
    store: &OpenedStore<'_, '_>,
    judges: &mut Vec<Box<dyn Judge>>,
) -> Result<Checked, ValidateError>
    requires { HasRootsInside (S.len source.old) store.now.container.now }
    // Where the bytes are known: this is the answer of the check, and its text that of the active manifest's binding.
    ensures answer { let said = panel_says (map says judges.old.items) in
        ForSome (S.known source.old)
        (λ file. IfOk result (IsCheckedOver H.digest_of said store.now file)) }

    // These hold of every source.
    ensures size { IfOk result (HasTextSize (S.len source.old)) }
    ensures reads { ReadsSource S.len S.known S.faults IsCheckReadCause
        source.old source.new result }
    ensures panel { HearsPanel says asked_times judge_faults validate_heard
        (StoreAsks H.digest_of store.now) judges.old judges.new result }
{
    // Matched and not handed up by `?`, here and below: each way out has clauses of its own.
    match check_active(alloc, store.chain) {
        Ok(None) => {}
        Ok(Some(failing)) => return Ok(Checked::Failing(failing)),
        Err(NoMemory) => return Err(ValidateError::NoMemory),
    }
    match check_chain(alloc, hashing, store.chain, judges) {
        Ok(None) => {}
        Ok(Some(failing)) => return Ok(Checked::Failing(failing)),
        Err(error) => return Err(fault(error)),
    }
    let active = active_manifest(store.chain);
    let text = match check_binding(alloc, hashing, source, store.container, active) {
        Ok(Bound::Holds(text)) => text,
        Ok(Bound::Fails(failing)) => return Ok(Checked::Failing(failing)),
        Err(error) => return Err(error),
    };
    match summary(alloc, store.chain, &text.cover, store.range) {
        Ok(summary) => Ok(Checked::Valid(summary, text)),
        Err(NoMemory) => Err(ValidateError::NoMemory),
    }
}

/// The answer of the check of an opened store.
fn check_opened<S: Source, H: Hashing>(
    alloc: Global,
    hashing: &H,
    source: &mut S,
    store: &OpenedStore<'_, '_>,
    judges: &mut Vec<Box<dyn Judge>>,
) -> Result<Answer, ValidateError>
    requires { HasRootsInside (S.len source.old) store.now.container.now }
    ensures answer { let said = panel_says (map says judges.old.items) in
        ForSome (S.known source.old)
        (λ file. IfOk result (IsAnsweredOver H.digest_of said store.now file)) }
    ensures reads { ReadsSource S.len S.known S.faults IsCheckReadCause
        source.old source.new result }
    ensures panel { HearsPanel says asked_times judge_faults validate_heard
        (StoreAsks H.digest_of store.now) judges.old judges.new result }
{
    match check(alloc, hashing, source, store, judges) {
        Ok(checked) => Ok(answer(checked)),
        Err(error) => Err(error),
    }
}

/// The boxes of a store, as its manifests are checked against a media file.
#[derive(Clone, Copy)]
pub struct StoreBoxes<'s> {
    /// The container of the media file.
    pub container: &'s Container,

    /// The embedded range of the store in the file; that of an external store has the length 0.
    pub range: Range,

    /// The box tree of the store.
    pub tree: &'s Tree<'s>,

    /// The boxes of its manifests.
    pub manifests: &'s Store,
}

/// The answer over the boxes of a store: its manifests are read, and then checked as [`check`] does.
pub fn check_boxes<S: Source, H: Hashing>(
    alloc: Global,
    hashing: &H,
    source: &mut S,
    boxes: &StoreBoxes<'_>,
    judges: &mut Vec<Box<dyn Judge>>,
) -> Result<Answer, ValidateError>
    requires roots { HasRootsInside (S.len source.old) boxes.now.container.now }
    requires manifests { IsStoreOf boxes.now.tree.now boxes.now.manifests.now }
    ensures answer { let said = panel_says (map says judges.old.items) in
        ForSome (S.known source.old)
        (λ file. IfOk result (IsBoxesAnswer H.digest_of said boxes.now file)) }
    ensures reads { ReadsSource S.len S.known S.faults IsCheckReadCause
        source.old source.new result }
    ensures panel { HearsPanel says asked_times judge_faults validate_heard
        (BoxesAsk H.digest_of boxes.now) judges.old judges.new result }
{
    // Matched and not handed up by `?`: each way out has clauses of its own.
    let chain = match of_store(alloc, boxes.tree, boxes.manifests) {
        Ok(chain) => chain,
        Err(NoMemory) => return Err(ValidateError::NoMemory),
    };
    let opened = OpenedStore {
        container: boxes.container,
        range: boxes.range,
        chain: &chain,
    };
    check_opened(alloc, hashing, source, &opened, judges)
}

/// The answer of the check of a media file that has this store.
fn check_media<S: Source, H: Hashing>(
    alloc: Global,
    hashing: &H,
    source: &mut S,
    media: &Media,
    judges: &mut Vec<Box<dyn Judge>>,
) -> Result<Answer, ValidateError>
    requires { HasRootsInside (S.len source.old) media.now.container }
    ensures answer { let said = panel_says (map says judges.old.items) in
        ForSome (S.known source.old)
        (λ file. IfOk result (IsMediaAnswer H.digest_of said media.now file)) }
    ensures reads { ReadsSource S.len S.known S.faults IsCheckReadCause
        source.old source.new result }
    ensures panel { HearsPanel says asked_times judge_faults validate_heard
        (MediaAsks H.digest_of media.now) judges.old judges.new result }
{
    match read_store(alloc, &media.found) {
        Ok(StoreRead::Here(tree, manifests)) => {
            let boxes = StoreBoxes {
                container: &media.container,
                range: Range {
                    start: media.found.start,
                    length: media.found.length,
                },
                tree: &tree,
                manifests: &manifests,
            };
            check_boxes(alloc, hashing, source, &boxes, judges)
        }
        Ok(StoreRead::Refused(reason, number)) => Ok(Answer::Refused(reason, number)),
        Err(NoMemory) => Err(ValidateError::NoMemory),
    }
}

/// Checks a media file: its container, its store, the rules of its reached manifests from the last to the first, and the
/// binding of the active one to its bytes (C2PA Technical Specification 2.x, "Validation").
///
/// The panel is asked of each reached manifest whose rules before the verdict hold, while no rule of a later one fails; nobody
/// is asked where the file has no well-formed store, or its active manifest is an update. `ReadFault` comes only where the
/// source failed in this call, `JudgeFault` only where a judge did that was due. The file is read in pieces.
// The condition always holds: a function that changes boxed judges is called under a contract only where it
// has one.
pub fn validate<S: Source, H: Hashing>(
    alloc: Global,
    hashing: &H,
    source: &mut S,
    judges: &mut Vec<Box<dyn Judge>>,
) -> Result<Answer, ValidateError>
    requires { Unit {0} }
    // Where the bytes are known: this is the answer of the check and nothing else is, and just its questions are asked.
    ensures answer { let said = panel_says (map says judges.old.items) in
        ForSome (S.known source.old) (λ file. IfOk result (IsAnswered H.digest_of said file)) }
    ensures reads { ReadsSource S.len S.known S.faults IsCheckReadCause
        source.old source.new result }
    ensures panel { HearsPanel says asked_times judge_faults validate_heard
        (AsksKnown (S.known source.old) (FileAsks H.digest_of)) judges.old judges.new result }
{
    let opened = match find_store(alloc, source) {
        Ok(opened) => opened,
        Err(error) => return Err(error),
    };
    match opened {
        Opened::Here(media) => check_media(alloc, hashing, source, &media, judges),
        Opened::NoStore(_) => Ok(Answer::NoStore),
        Opened::Refused(reason, number) => Ok(Answer::Refused(reason, number)),
    }
}
