// Copying a part of a source into a sink.
ghost use Rattle.std.specs.Prelude.{◌+◌, ◌-◌, ◌<◌, ◌≤◌, length, take, drop};
ghost use Rattle.std.specs.Option.{ForSome};
ghost use Rattle.c2_base.specs.Sink.{WritesSink};
ghost use Rattle.c2_base.specs.Source.{ReadsSource};
ghost use Rattle.c2_copying.specs.Writing.{IsCopyReadCause, IsStep, IsCopyWriteCause, TakesSpare};
ghost use Rattle.c2_copying.specs.Writing.{piece_of};

use c2_base::{Failed, Sink, Source, fill_at, write_all};
use thiserror::Error;

/// Why a part of a source wasn't copied.
#[derive(Clone, Copy, Debug, PartialEq, Eq, Error)]
pub enum CopyError {
    /// The source failed.
    #[error("the source failed")]
    ReadFault,

    /// The sink failed.
    #[error("the sink failed")]
    WriteFault,
}

// Appends the bytes of a source from a place on, as many as the buffer holds.
fn copy_piece<S: Source, K: Sink>(
    source: &mut S,
    sink: &mut K,
    at: u64,
    piece: &mut [u8],
) -> Result<(), CopyError>
    requires { at + length piece.old ≤ S.len source.old }
    ensures step { ForSome (S.known source.old) (λ file. IsStep K.written K.spare K.finished
        (take (length piece.old) (drop at file)) sink.old sink.new result) }
    ensures spare { TakesSpare (K.spare sink.old) (K.spare sink.new) (length piece.old) result }
    ensures reads { ReadsSource S.len S.known S.faults IsCopyReadCause
        source.old source.new result }
    ensures writes { WritesSink K.written K.finished K.faults IsCopyWriteCause
        sink.old sink.new result }
{
    match fill_at(source, at, piece) {
        Ok(()) => {}
        Err(Failed) => return Err(CopyError::ReadFault),
    }
    match write_all(sink, piece) {
        Ok(()) => Ok(()),
        Err(Failed) => Err(CopyError::WriteFault),
    }
}

/// Appends the bytes of a source from one place to another, read in pieces through a buffer that isn't empty. The sink isn't finished by
/// it. Takes no memory.
///
/// [`CopyError::ReadFault`] comes only where the source failed in this call, [`CopyError::WriteFault`] only where the sink did, and never
/// within a stated spare that holds these bytes. Either leaves a prefix of them in the sink.
pub fn copy<S: Source, K: Sink>(
    source: &mut S,
    sink: &mut K,
    from: u64,
    to: u64,
    buf: &mut [u8],
) -> Result<(), CopyError>
    requires ordered { from ≤ to }
    requires inside { to ≤ S.len source.old }
    requires room { 0 < length buf.old }
    // Where the bytes are known: these were appended, or a prefix of them.
    ensures step { ForSome (S.known source.old) (λ file. IsStep K.written K.spare K.finished
        (piece_of file from to) sink.old sink.new result) }

    // These hold of every source.
    ensures spare { TakesSpare (K.spare sink.old) (K.spare sink.new) (to - from) result }
    ensures reads { ReadsSource S.len S.known S.faults IsCopyReadCause
        source.old source.new result }
    ensures writes { WritesSink K.written K.finished K.faults IsCopyWriteCause
        sink.old sink.new result }
{
    let mut at = from;
    'pieces: while at < to {
        let len = (to - at).min(buf.len() as u64) as usize;
        // Matched and not handed up by `?`: each way out has clauses of its own.
        match copy_piece(source, sink, at, &mut buf[..len]) {
            Ok(()) => {}
            Err(error) => return Err(error),
        }
        at += len as u64;
    }
    Ok(())
}
