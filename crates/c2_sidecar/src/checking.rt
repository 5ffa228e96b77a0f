// A media file checked with an external store.
ghost use Rattle.std.specs.Prelude.{◌≡◌, ℕ, List, IfOk, map};
ghost use Rattle.std.specs.Option.{ForSome};
ghost use Rattle.c2_base.specs.Source.{IsKnownWhereDue, ReadsSource};
ghost use Rattle.c2_spec.specs.Judges.Panel.{panel_says};
ghost use Rattle.c2_rules.specs.Asking.{HearsPanel};
ghost use Rattle.c2_calls_spec.specs.Asks.{AsksKnown};
ghost use Rattle.c2_container.specs.Contained.{HasRootsInside};
ghost use Rattle.c2_validate.specs.Checked.{validate_heard};
ghost use Rattle.c2_validate.specs.External.{IsAnsweredExternal, IsListAnswered, ListAsks};
ghost use Rattle.c2_sidecar.specs.Checking.{AsksWhereDue, IsRefusedFile, IsSourceCause};
ghost use Rattle.c2_sidecar.specs.Stages.{IsFileRefusedBy};

use c2_base::limits::MAX_STORE_LEN;
use c2_base::{MediaError, ReadAllError, Source, read_all};
use c2_container::{Contained, Container, locate};
use c2_hash::Hashing;
use c2_judge::Judge;
use c2_rules::Answer;
use c2_spec::{Reason, Refusal};
use c2_validate::{External, ValidateError, check_external};
use std::alloc::Global;

// The answer for an error of the container.
fn refused(error: MediaError) -> Result<External, ValidateError>
    ensures { IsFileRefusedBy error result }
{
    if let Some(refusal) = Refusal::of_media(error) {
        return Ok(External::Of(Answer::Refused(refusal.reason, refusal.number)));
    }
    match error {
        MediaError::ReadFault => Err(ValidateError::ReadFault),
        MediaError::NoMemory => Err(ValidateError::NoMemory),
        // Every other error is a refusal.
        _ => unreachable!(),
    }
}

// The container of a file alone: the bytes of a store that the file has are let go.
fn container_of(contained: Contained) -> Container
    ensures { result ≡ contained.container }
{
    let Contained {
        container,
        found: _,
        packets: _,
    } = contained;
    container
}

// Checks a media file of this container with the store that a second source is.
fn check_read<S: Source, T: Source, H: Hashing>(
    alloc: Global,
    hashing: &H,
    source: &mut S,
    container: &Container,
    store: &mut T,
    judges: &mut Vec<Box<dyn Judge>>,
) -> Result<External, ValidateError>
    requires { HasRootsInside (S.len source.old) container.now }
    ensures answer { let said = panel_says (map says judges.old.items) in
        ForSome (S.known source.old) (λ file. ForSome (T.known store.old) (λ bytes.
        IfOk result (IsListAnswered H.digest_of said container.now bytes file))) }
    ensures source { ReadsSource S.len S.known S.faults
        (IsSourceCause (T.faults store.old) (T.faults store.new)) source.old source.new result }
    ensures store { ReadsSource T.len T.known T.faults
        (IsSourceCause (S.faults source.old) (S.faults source.new)) store.old store.new result }
    ensures panel { HearsPanel says asked_times judge_faults validate_heard
        (AsksKnown (T.known store.old) (ListAsks H.digest_of)) judges.old judges.new result }
{
    // Matched and not handed up by `?`, here and below: each way out has clauses of its own.
    let bytes = match read_all(alloc, store, MAX_STORE_LEN) {
        Ok(bytes) => bytes,
        Err(ReadAllError::TooLong(len)) => {
            return Ok(External::StoreRefused(Reason::StoreTooLarge, len));
        }
        Err(ReadAllError::ReadFault) => return Err(ValidateError::ReadFault),
        Err(ReadAllError::NoMemory) => return Err(ValidateError::NoMemory),
    };
    check_external(alloc, hashing, source, container, bytes.as_slice(), judges)
}

/// Checks a media file with an external manifest store, which is a second file (C2PA Technical Specification 2.x, "External manifests"); a
/// store that the media file has itself passes unread. The tests come in this order: those of the media file's container, that of the
/// second file's length, those of its boxes and of its manifests, and then the rules of the check, whose binding is to the bytes of the
/// media file.
///
/// The container is looked at once, the media file is read in pieces, and no more than one store is kept at a time. The second file isn't
/// read where the container is refused, and the answer is then the same for all bytes that it might have; of one that is longer than a
/// store may be only the length is asked. The panel is asked as by `validate`, and of nothing where the container or the store is refused.
/// `ReadFault` comes only where one of the two sources failed in this call, `JudgeFault` only where a judge did that was due.
// The condition always holds: a function that changes boxed judges is called under a contract only where it has one.
pub fn validate_external<S: Source, T: Source, H: Hashing>(
    alloc: Global,
    hashing: &H,
    source: &mut S,
    store: &mut T,
    judges: &mut Vec<Box<dyn Judge>>,
) -> Result<External, ValidateError>
    requires { Unit {0} }
    // Where the bytes are known that are due: this is the answer of the check and nothing else is. An external store isn't due where the
    // container of the file is refused, and is then left as it was.
    ensures answer { let said = panel_says (map says judges.old.items) in
        ForSome (S.known source.old) (λ file. (bytes : List ℕ)
        → IsKnownWhereDue (T.known store.old) (IsRefusedFile file) bytes
        → IfOk result (IsAnsweredExternal H.digest_of said file bytes)) }
    ensures not_due { ForSome (S.known source.old)
        (λ file. IsRefusedFile file → store.new ≡ store.old) }

    // These hold of every source; just the questions of the check are asked where the bytes are known.
    ensures source { ReadsSource S.len S.known S.faults
        (IsSourceCause (T.faults store.old) (T.faults store.new)) source.old source.new result }
    ensures store { ReadsSource T.len T.known T.faults
        (IsSourceCause (S.faults source.old) (S.faults source.new)) store.old store.new result }
    ensures panel { HearsPanel says asked_times judge_faults validate_heard
        (AsksWhereDue H.digest_of (S.known source.old) (T.known store.old))
        judges.old judges.new result }
{
    let contained = match locate(alloc, source) {
        Ok(contained) => contained,
        Err(error) => return refused(error),
    };
    let container = container_of(contained);
    check_read(alloc, hashing, source, &container, store, judges)
}
