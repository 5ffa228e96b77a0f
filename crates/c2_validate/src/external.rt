// The check of a media file with an external manifest store, one that isn't embedded in it.
ghost use Rattle.std.specs.Prelude.{◌≤◌, IfOk, length, map};
ghost use Rattle.std.specs.Option.{ForSome};
ghost use Rattle.c2_base.specs.Source.{ReadsSource};
ghost use Rattle.c2_base.specs.declared.limits.TheConstants.{MAX_STORE_LEN};
ghost use Rattle.c2_spec.specs.C2pa.Manifest.{IsStoreOf};
ghost use Rattle.c2_spec.specs.Judges.Panel.{panel_says};
ghost use Rattle.c2_rules.specs.Asking.{HearsPanel};
ghost use Rattle.c2_calls_spec.specs.Asks.{AsksKnown};
ghost use Rattle.c2_container.specs.Contained.{HasRootsInside};
ghost use Rattle.c2_validate.specs.Boxes.{BoxesAsk, IsStoreOfAnswer};
ghost use Rattle.c2_validate.specs.External.{ExternalAsks, IsAnsweredExternal, IsListAnswered};
ghost use Rattle.c2_validate.specs.External.{ListAsks};
ghost use Rattle.c2_validate.specs.Checked.{IsCheckReadCause, validate_heard};

use crate::checking::{StoreBoxes, check_boxes};
use c2_base::limits::MAX_STORE_LEN;
use c2_base::{NoMemory, Range, Source};
use c2_container::Container;
use c2_hash::Hashing;
use c2_judge::Judge;
use c2_opening::types::{Opened, StoreRead};
use c2_opening::{ValidateError, find_store, read_tree};
use c2_rules::Answer;
use c2_spec::Reason;
use std::alloc::Global;

/// What the check of a file with an external manifest store answers.
#[derive(Debug, Drop)]
pub enum External {
    /// This: the file's container is refused, a rule fails, or every rule holds.
    Of(Answer),

    /// The store is refused for this reason, with its number.
    StoreRefused(Reason, u64),
}

/// What is answered over the boxes of an external store.
fn check_store<S: Source, H: Hashing>(
    alloc: Global,
    hashing: &H,
    source: &mut S,
    boxes: &StoreBoxes<'_>,
    judges: &mut Vec<Box<dyn Judge>>,
) -> Result<External, ValidateError>
    requires roots { HasRootsInside (S.len source.old) boxes.now.container.now }
    requires manifests { IsStoreOf boxes.now.tree.now boxes.now.manifests.now }
    ensures answer { let said = panel_says (map says judges.old.items) in
        ForSome (S.known source.old)
        (λ file. IfOk result (IsStoreOfAnswer H.digest_of said boxes.now file)) }
    ensures reads { ReadsSource S.len S.known S.faults IsCheckReadCause
        source.old source.new result }
    ensures panel { HearsPanel says asked_times judge_faults validate_heard
        (BoxesAsk H.digest_of boxes.now) judges.old judges.new result }
{
    match check_boxes(alloc, hashing, source, boxes, judges) {
        Ok(answer) => Ok(External::Of(answer)),
        Err(error) => Err(error),
    }
}

/// What is answered over an external store that is no longer than a store may be: its boxes and its manifests, and then the rest.
fn check_list<S: Source, H: Hashing>(
    alloc: Global,
    hashing: &H,
    source: &mut S,
    container: &Container,
    store: &[u8],
    judges: &mut Vec<Box<dyn Judge>>,
) -> Result<External, ValidateError>
    requires roots { HasRootsInside (S.len source.old) container.now }
    requires small { length store.now ≤ MAX_STORE_LEN }
    ensures answer { let said = panel_says (map says judges.old.items) in
        ForSome (S.known source.old)
        (λ file. IfOk result (IsListAnswered H.digest_of said container.now store.now file)) }
    ensures reads { ReadsSource S.len S.known S.faults IsCheckReadCause
        source.old source.new result }
    ensures panel { HearsPanel says asked_times judge_faults validate_heard
        (ListAsks H.digest_of store.now) judges.old judges.new result }
{
    // Matched and not handed up by `?`: each way out has clauses of its own.
    match read_tree(alloc, store) {
        Ok(StoreRead::Here(tree, manifests)) => {
            // An external store has no range in the file.
            let range = Range {
                start: 0,
                length: 0,
            };
            let boxes = StoreBoxes {
                container,
                range,
                tree: &tree,
                manifests: &manifests,
            };
            check_store(alloc, hashing, source, &boxes, judges)
        }
        Ok(StoreRead::Refused(reason, number)) => Ok(External::StoreRefused(reason, number)),
        Err(NoMemory) => Err(ValidateError::NoMemory),
    }
}

/// Checks a media file of this container with an external manifest store: the length of the store, its boxes and its manifests,
/// and then as [`check`] does (C2PA Technical Specification 2.x, "External manifests").
///
/// The panel is asked as by `check`, and of nothing where the store is refused. `ReadFault` comes only where the source failed in
/// this call, `JudgeFault` only where a judge did that was due.
pub fn check_external<S: Source, H: Hashing>(
    alloc: Global,
    hashing: &H,
    source: &mut S,
    container: &Container,
    store: &[u8],
    judges: &mut Vec<Box<dyn Judge>>,
) -> Result<External, ValidateError>
    requires { HasRootsInside (S.len source.old) container.now }
    ensures answer { let said = panel_says (map says judges.old.items) in
        ForSome (S.known source.old)
        (λ file. IfOk result (IsListAnswered H.digest_of said container.now store.now file)) }
    ensures reads { ReadsSource S.len S.known S.faults IsCheckReadCause
        source.old source.new result }
    ensures panel { HearsPanel says asked_times judge_faults validate_heard
        (ListAsks H.digest_of store.now) judges.old judges.new result }
{
    if store.len() > MAX_STORE_LEN as usize {
        return Ok(External::StoreRefused(Reason::StoreTooLarge, store.len() as u64));
    }
    check_list(alloc, hashing, source, container, store, judges)
}

/// Checks a media file with an external manifest store, and not with one that may be embedded in it: the file's container, and then as
/// [`check_external`] does (C2PA Technical Specification 2.x, "External manifests").
///
/// The panel is asked as by `validate`, and of nothing where the container or the store is refused. `ReadFault` comes only where the
/// source failed in this call, `JudgeFault` only where a judge did that was due. The file is read in pieces.
// The condition always holds: a function that changes boxed judges is called under a contract only where it
// has one.
pub fn check_with<S: Source, H: Hashing>(
    alloc: Global,
    hashing: &H,
    source: &mut S,
    store: &[u8],
    judges: &mut Vec<Box<dyn Judge>>,
) -> Result<External, ValidateError>
    requires { Unit {0} }
    // Where the bytes are known: this is the answer of the check and nothing else is, and just its questions are asked.
    ensures answer { let said = panel_says (map says judges.old.items) in
        ForSome (S.known source.old)
        (λ file. IfOk result (IsAnsweredExternal H.digest_of said file store.now)) }
    ensures reads { ReadsSource S.len S.known S.faults IsCheckReadCause
        source.old source.new result }
    ensures panel { HearsPanel says asked_times judge_faults validate_heard
        (AsksKnown (S.known source.old) (ExternalAsks H.digest_of store.now))
        judges.old judges.new result }
{
    let opened = match find_store(alloc, source) {
        Ok(opened) => opened,
        Err(error) => return Err(error),
    };
    match opened {
        Opened::Here(media) => {
            check_external(alloc, hashing, source, &media.container, store, judges)
        }
        Opened::NoStore(container) => {
            check_external(alloc, hashing, source, &container, store, judges)
        }
        Opened::Refused(reason, number) => Ok(External::Of(Answer::Refused(reason, number))),
    }
}
