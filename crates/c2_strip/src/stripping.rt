// A media file without its store, written to a sink.
ghost use Rattle.std.specs.Prelude.{◌<◌, ◌≢◌, length, IfErr, IfOk};
ghost use Rattle.std.specs.Option.{ForSome};
ghost use Rattle.c2_base.specs.Sink.{WritesSink, unsaid};
ghost use Rattle.c2_base.specs.Source.{ReadsSource};
ghost use Rattle.c2_copying.specs.Writing.{EndsSink, IsOverSpare, WritesFile};
ghost use Rattle.c2_strip.specs.Answers.{IsAnswerOf, IsStripReadCause, IsStripped};
ghost use Rattle.c2_strip.specs.Answers.{IsStripWriteCause, Writes, ending_of};
ghost use Rattle.c2_strip.specs.Endings.{IsRefusedBy};

use crate::ending::answer_of;
use crate::writing::write_outside;
use crate::{StripError, Stripped};
use c2_base::{MediaError, Sink, Source};
use c2_container::locate;
use c2_copying::{CopyError, steps_follow};
use std::alloc::Global;

// The answer for an error of the container.
fn refused(error: MediaError) -> Result<Stripped, StripError>
    ensures { IsRefusedBy error result }
{
    match error {
        MediaError::ReadFault => Err(StripError::ReadFault),
        MediaError::NoMemory => Err(StripError::NoMemory),
        _ => Ok(Stripped::Refused(error)),
    }
}

// What a file comes to without its store, by its container; nothing is written.
fn comes_to<S: Source>(alloc: Global, source: &mut S) -> Result<Stripped, StripError>
    ensures answer { ForSome (S.known source.old) (λ file. IfOk result (IsStripped file)) }
    ensures within { IfOk result (IsAnswerOf (S.len source.old)) }
    ensures unwritten { IfErr result (λ e. e ≢ StripError.WriteFault) }
    ensures reads { ReadsSource S.len S.known S.faults IsStripReadCause
        source.old source.new result }
{
    match locate(alloc, source) {
        Ok(contained) => Ok(answer_of(&contained)),
        Err(error) => refused(error),
    }
}

/// Writes a media file without its store, and says that nothing follows: every byte outside the embedded range, in order. The file is read
/// in pieces of the buffer's length, which isn't 0; of the store nothing is looked at but the range.
///
/// The tests of the container alone decide between [`Stripped::Refused`], which holds no fault, [`Stripped::NoStore`] and a store.
/// [`Stripped::Middle`] is answered for a BMFF file in which other boxes than one last `mfra` stand behind that of the store: their bytes
/// would move, and places of them that the file keeps wouldn't (this is the project's own choice).
///
/// [`StripError::ReadFault`] and [`StripError::WriteFault`] come only where the source or the sink failed in this call; they leave a prefix
/// of what is to be written, and the sink unfinished. `WriteFault` never comes within a stated spare that holds what is to be written, nor,
/// whatever is known of the source, within one that holds the source. Every other answer but [`Stripped::Done`] leaves the sink as it was.
pub fn strip<S: Source, K: Sink>(
    alloc: Global,
    source: &mut S,
    out: &mut K,
    buf: &mut [u8],
) -> Result<Stripped, StripError>
    requires { 0 < length buf.old }
    // Where the bytes are known: this is what the file comes to, and what the sink took. Within a stated spare it doesn't fail.
    ensures answer { ForSome (S.known source.old) (λ file. IfOk result (IsStripped file)) }
    ensures written { ForSome (S.known source.old) (λ file. WritesFile K.written K.spare K.finished
        (Writes file) out.old out.new (ending_of result)) }

    // These hold of every source.
    ensures within { IfOk result (IsAnswerOf (S.len source.old)) }
    ensures ends { EndsSink K.finished out.old out.new (ending_of result) }
    ensures spare { IsOverSpare (ending_of result) (K.spare out.old) (S.len source.old) }
    ensures reads { ReadsSource S.len S.known S.faults IsStripReadCause
        source.old source.new result }
    ensures writes { WritesSink K.written unsaid K.faults IsStripWriteCause out.old out.new result }
{
    steps_follow::<K>();
    // Matched and not handed up by `?`, here and below: each way out has clauses of its own.
    let answer = match comes_to(alloc, source) {
        Ok(answer) => answer,
        Err(error) => return Err(error),
    };
    let Stripped::Done(range) = answer else {
        return Ok(answer);
    };
    match write_outside(source, out, range, buf) {
        Ok(()) => Ok(answer),
        Err(CopyError::ReadFault) => Err(StripError::ReadFault),
        Err(CopyError::WriteFault) => Err(StripError::WriteFault),
    }
}
