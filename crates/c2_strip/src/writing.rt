// The bytes outside a range, written to a sink.
ghost use Rattle.std.specs.Prelude.{◌≡◌, ◌+◌, ◌-◌, ◌<◌, ◌≤◌, true, length, IfErr, OnErr, OnOk};
ghost use Rattle.std.specs.Option.{ForSome};
ghost use Rattle.c2_base.specs.Sink.{WritesSink, unsaid};
ghost use Rattle.c2_base.specs.Source.{ReadsSource};
ghost use Rattle.c2_copying.specs.Writing.{IsCopyReadCause, IsCopyWriteCause, IsOverSpare, IsStep};
ghost use Rattle.c2_copying.specs.Writing.{IsWhole, TakesSpare, ending_of};
ghost use Rattle.c2_strip.specs.Stripping.{stripped};

use c2_base::{Failed, Range, Sink, Source};
use c2_copying::{CopyError, copy, steps_follow};

// Appends the bytes outside a range of a source of so many bytes.
fn copy_outside<S: Source, K: Sink>(
    source: &mut S,
    sink: &mut K,
    range: Range,
    size: u64,
    buf: &mut [u8],
) -> Result<(), CopyError>
    requires size { size ≡ S.len source.old }
    requires inside { range.start + range.length ≤ S.len source.old }
    requires room { 0 < length buf.old }
    ensures step { ForSome (S.known source.old) (λ file. IsStep K.written K.spare K.finished
        (stripped range file) sink.old sink.new result) }
    ensures spare { TakesSpare (K.spare sink.old) (K.spare sink.new)
        (S.len source.old - range.length) result }
    ensures reads { ReadsSource S.len S.known S.faults IsCopyReadCause
        source.old source.new result }
    ensures writes { WritesSink K.written K.finished K.faults IsCopyWriteCause
        sink.old sink.new result }
{
    // Only the prover needs this law.
    steps_follow::<K>();
    // Matched and not handed up by `?`, here and below: each way out has clauses of its own.
    match copy(source, sink, 0, range.start, buf) {
        Ok(()) => {}
        Err(error) => return Err(error),
    }
    match copy(source, sink, range.start + range.length, size, buf) {
        Ok(()) => Ok(()),
        Err(error) => Err(error),
    }
}

/// Appends the bytes outside a range of a source, and says that nothing follows. Takes no memory.
pub(crate) fn write_outside<S: Source, K: Sink>(
    source: &mut S,
    sink: &mut K,
    range: Range,
    buf: &mut [u8],
) -> Result<(), CopyError>
    requires inside { range.start + range.length ≤ S.len source.old }
    requires room { 0 < length buf.old }
    ensures whole { ForSome (S.known source.old) (λ file. IsWhole K.written K.spare K.finished
        (stripped range file) sink.old sink.new result) }
    ensures spare { IfErr result (λ e. IsOverSpare (ending_of e) (K.spare sink.old)
        (S.len source.old - range.length)) }
    ensures finished { OnOk result (K.finished sink.new ≡ true) }
    ensures unfinished { OnErr result (K.finished sink.new ≡ K.finished sink.old) }
    ensures reads { ReadsSource S.len S.known S.faults IsCopyReadCause
        source.old source.new result }
    ensures writes { WritesSink K.written unsaid K.faults IsCopyWriteCause
        sink.old sink.new result }
{
    // Only the prover needs this law.
    steps_follow::<K>();
    let size = match source.size() {
        Ok(size) => size,
        Err(Failed) => return Err(CopyError::ReadFault),
    };
    match copy_outside(source, sink, range, size, buf) {
        Ok(()) => {}
        Err(error) => return Err(error),
    }
    match sink.finish() {
        Ok(()) => Ok(()),
        Err(Failed) => Err(CopyError::WriteFault),
    }
}
