// The store of a media file, written to a sink.
ghost use Rattle.std.specs.Prelude.{◌≡◌, true, IfOk, OnErr, OnOk};
ghost use Rattle.std.specs.Option.{ForSome};
ghost use Rattle.c2_base.specs.Sink.{WritesSink, unsaid};
ghost use Rattle.c2_base.specs.Source.{ReadsSource};
ghost use Rattle.c2_base.specs.declared.limits.TheConstants.{MAX_STORE_LEN};
ghost use Rattle.c2_copying.specs.Writing.{EndsSink, IsOverSpare, WritesFile};
ghost use Rattle.c2_sidecar.specs.Extracts.{IsAnswerOf, IsExtracted, IsExtractReadCause};
ghost use Rattle.c2_sidecar.specs.Extracts.{IsExtractWriteCause, Writes, ending_of};
ghost use Rattle.c2_sidecar.specs.Stages.{IsFailure, IsRefusedBy, IsStored};

use crate::{ExtractError, Extracted};
use c2_base::{Failed, Found, MediaError, Sink, Source, write_all};
use c2_container::{Contained, locate};
use c2_copying::steps_follow;
use c2_spec::Refusal;
use std::alloc::Global;

// Appends the bytes of a store, and says that nothing follows.
fn write_store<K: Sink>(sink: &mut K, store: &[u8]) -> Result<(), Failed>
    ensures stored { IsStored K.written K.spare K.finished store.now sink.old sink.new result }
    ensures finished { OnOk result (K.finished sink.new ≡ true) }
    ensures unfinished { OnErr result (K.finished sink.new ≡ K.finished sink.old) }
    ensures writes { WritesSink K.written unsaid K.faults IsFailure sink.old sink.new result }
{
    steps_follow::<K>();
    // Matched and not handed up by `?`, here and below: each way out has clauses of its own.
    match write_all(sink, store) {
        Ok(()) => {}
        Err(failed) => return Err(failed),
    }
    match sink.finish() {
        Ok(()) => Ok(()),
        Err(failed) => Err(failed),
    }
}

// The answer for an error of the container.
fn refused(error: MediaError) -> Result<Extracted, ExtractError>
    ensures { IsRefusedBy error result }
{
    if let Some(refusal) = Refusal::of_media(error) {
        return Ok(Extracted::Refused(refusal.reason, refusal.number));
    }
    match error {
        MediaError::ReadFault => Err(ExtractError::ReadFault),
        MediaError::NoMemory => Err(ExtractError::NoMemory),
        // Every other error is a refusal.
        _ => unreachable!(),
    }
}

// The embedded range and the store of a file, where it has one.
fn found_in(contained: Contained) -> Option<Found>
    ensures { result ≡ contained.found }
{
    let Contained {
        container: _,
        found,
        packets: _,
    } = contained;
    found
}

/// Writes the manifest store of a media file, and says that nothing follows: the bytes of the store as they are embedded (C2PA Technical
/// Specification 2.x, "Embedding manifests into assets"). The tests of the container alone decide between [`Extracted::Refused`],
/// [`Extracted::NoStore`] and a store; the store itself isn't read as one. The file is read in pieces, and of its bytes only the store's
/// are kept.
///
/// [`ExtractError::ReadFault`] and [`ExtractError::WriteFault`] come only where the source or the sink failed in this call. `WriteFault`
/// leaves a prefix of the store, and the sink unfinished; it never comes within a stated spare that holds the store, and so not within one of
/// 33,554,432 bytes. Every other answer but [`Extracted::Done`] leaves the sink as it was.
pub fn extract<S: Source, K: Sink>(
    alloc: Global,
    source: &mut S,
    out: &mut K,
) -> Result<Extracted, ExtractError>
    // Where the bytes are known: this is what the file comes to, and what the sink took. Within a stated spare it doesn't fail.
    ensures answer { ForSome (S.known source.old) (λ file. IfOk result (IsExtracted file)) }
    ensures written { ForSome (S.known source.old) (λ file. WritesFile K.written K.spare K.finished
        (Writes file) out.old out.new (ending_of result)) }

    // These hold of every source.
    ensures within { IfOk result (IsAnswerOf (S.len source.old)) }
    ensures ends { EndsSink K.finished out.old out.new (ending_of result) }
    ensures spare { IsOverSpare (ending_of result) (K.spare out.old) MAX_STORE_LEN }
    ensures reads { ReadsSource S.len S.known S.faults IsExtractReadCause
        source.old source.new result }
    ensures writes { WritesSink K.written unsaid K.faults IsExtractWriteCause
        out.old out.new result }
{
    steps_follow::<K>();
    let contained = match locate(alloc, source) {
        Ok(contained) => contained,
        Err(error) => return refused(error),
    };
    let Some(found) = found_in(contained) else {
        return Ok(Extracted::NoStore);
    };
    let store = found.store.as_slice();
    match write_store(out, store) {
        Ok(()) => Ok(Extracted::Done(store.len() as u64)),
        Err(Failed) => Err(ExtractError::WriteFault),
    }
}
