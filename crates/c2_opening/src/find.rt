// The store of a media file, by its container.
ghost use Rattle.std.specs.Prelude.{◌≡◌, ℕ, List, None, Some, Ok, IfOk, IfErr, OnOk};
ghost use Rattle.std.specs.Option.{ForSome};
ghost use Rattle.c2_base.specs.Source.{StaysSource};
ghost use Rattle.c2_spec.specs.Located.{refusal, as_located};
ghost use Rattle.c2_spec.specs.Reason.{media_refusal};
ghost use Rattle.c2_container.specs.Contained as contained;
ghost use Rattle.c2_opening.specs.Opened.{HasContainer, IsOpeningCause, IsErrorOf, IsFound};
ghost use Rattle.c2_opening.specs.Opened.{IsWithin, located_of};

use crate::error::ValidateError;
use crate::types::{Media, Opened};
use c2_base::{MediaError, Source};
use c2_container::{Contained, locate};
use c2_spec::Refusal;
use std::alloc::Global;

/// The container of a media file, and its manifest store (C2PA Technical Specification 2.x, "Embedding manifests into
/// assets").
///
/// A file with `ftyp` in its bytes 4 to 7 that doesn't begin with SOI is read by its root boxes, every other as a JPEG. Refused
/// for the first of the container's tests that fails. `ReadFault` comes only where the source failed in this call,
/// `JudgeFault` never.
pub fn find_store<S: Source>(alloc: Global, source: &mut S) -> Result<Opened, ValidateError>
    // Where the bytes are known: this is what the file is as a container, and nothing else is.
    ensures found { ForSome (S.known source.old) (λ file. IfOk result (IsFound file)) }

    // These hold of every source.
    ensures within { IfOk result (IsWithin (S.len source.old)) }
    ensures cause { IfErr result (IsOpeningCause (S.faults source.old) (S.faults source.new)) }
    ensures count { OnOk result (S.faults source.new ≡ S.faults source.old) }
    ensures stays { StaysSource S.len S.known S.faults source.old source.new }
{
    // Matched and not handed up by `?`: each way out has clauses of its own.
    match locate(alloc, source) {
        Ok(contained) => Ok(unrefused(contained)),
        Err(error) => refused(error),
    }
}

// A file that isn't refused.
fn unrefused(read: Contained) -> Opened
    ensures value { as_located (Ok read.found) ≡ Some (located_of result) }
    ensures container { (file : List ℕ) → contained.IsContainerOf file read.container
        → HasContainer file result }
    ensures within { (len : ℕ) → contained.IsWithin len read → IsWithin len result }
{
    let Contained {
        container,
        found,
        packets: _,
    } = read;
    match found {
        Some(found) => Opened::Here(Media { container, found }),
        None => Opened::NoStore(container),
    }
}

// A refusal, unless the error says nothing of the file.
fn refused(error: MediaError) -> Result<Opened, ValidateError>
    ensures value { IfOk result (λ opened. refusal error ≡ Some (located_of opened)) }
    ensures container { IfOk result (λ opened. (file : List ℕ) → HasContainer file opened) }
    ensures within { IfOk result (λ opened. (len before now : ℕ)
        → contained.IsLocateCause len before now error → IsWithin len opened) }
    ensures fault { IfErr result (IsErrorOf error) }
{
    let Some(refusal) = Refusal::of_media(error) else {
        return Err(fault(error));
    };
    Ok(Opened::Refused(refusal.reason, refusal.number))
}

// The fault that an error stands for which refuses nothing.
fn fault(error: MediaError) -> ValidateError
    requires { media_refusal error ≡ None }
    ensures { IsErrorOf error result }
{
    match error {
        MediaError::ReadFault => ValidateError::ReadFault,
        _ => ValidateError::NoMemory,
    }
}
