// Calls over any source or sink.
ghost use Rattle.std.specs.Prelude.{◌≡◌, ◌+◌, ◌<◌, ◌≤◌, length, OnOk, IfOk, IfErr};
ghost use Rattle.std.specs.Option.{ForSome};
ghost use Rattle.c2_base.specs.Causes.{HasCause};
ghost use Rattle.c2_base.specs.Source.{StaysSource, FilledAt};
ghost use Rattle.c2_base.specs.declared.calls.ReadAllError.TheVariants.{ReadFault, NoMemory};
ghost use Rattle.c2_base.specs.ReadAll.{HasReason};
ghost use Rattle.c2_base.specs.Sink.{Appends, Spends, OkWithinSpare, TakesPrefix};

use crate::{Blob, Failed, Sink, Source};
use std::alloc::{AllocError, Global};
use thiserror::Error;

/// Fills `buf` with the bytes from `pos` on, all of which the source must have. Takes no memory. After `Failed` the buffer
/// may hold some of them.
pub fn fill_at<S: Source>(source: &mut S, pos: u64, buf: &mut [u8]) -> Result<(), Failed>
    requires { pos + length buf.old ≤ S.len source.old }
    ensures stays { StaysSource S.len S.known S.faults source.old source.new }
    ensures cause { HasCause (S.faults source.old) (S.faults source.new) result }
    ensures filled { OnOk result (FilledAt (S.known source.old) pos buf.new) }
{
    let mut done = 0;
    'reads: while done < buf.len() {
        let count = source.read_at(pos + done as u64, &mut buf[done..])?;
        done += count;
    }
    Ok(())
}

/// Appends all of `bytes`. Takes no memory. After `Failed` a prefix of them was appended. `Failed` doesn't come within the
/// stated spare, and the sink isn't finished by it.
pub fn write_all<K: Sink>(sink: &mut K, bytes: &[u8]) -> Result<(), Failed>
    ensures written { OnOk result (Appends (K.written sink.old) (K.written sink.new) bytes.now) }
    ensures spare { OnOk result (Spends (K.spare sink.old) (K.spare sink.new) (length bytes.now)) }
    ensures prefix { TakesPrefix K.written K.spare bytes.now sink.old sink.new }
    ensures unfinished { K.finished sink.new ≡ K.finished sink.old }
    ensures cause { HasCause (K.faults sink.old) (K.faults sink.new) result }
    ensures within { OkWithinSpare (K.spare sink.old) (length bytes.now) result }
{
    let mut done = 0;
    'writes: while done < bytes.len() {
        let count = sink.append(&bytes[done..])?;
        done += count;
    }
    Ok(())
}

/// Why `read_all` gave no bytes.
#[derive(Clone, Copy, Debug, PartialEq, Eq, Error)]
pub enum ReadAllError {
    /// The source has this many bytes, more than were asked for.
    #[error("the source has {0} bytes, which are too many")]
    TooLong(u64),

    /// The source failed.
    #[error("the source failed")]
    ReadFault,

    /// Out of memory.
    #[error("memory ran out")]
    NoMemory,
}

impl From<Failed> for ReadAllError {
    ghost from_gives = { λ _ e. e ≡ ReadFault };

    fn from(_error: Failed) -> ReadAllError {
        ReadAllError::ReadFault
    }
}

impl From<AllocError> for ReadAllError {
    ghost from_gives = { λ _ e. e ≡ NoMemory };

    fn from(_error: AllocError) -> ReadAllError {
        ReadAllError::NoMemory
    }
}

/// All bytes of the source, where these are at most `most`; `TooLong` where they are more, before any is read.
pub fn read_all<S: Source>(alloc: Global, source: &mut S, most: u64) -> Result<Blob, ReadAllError>
    ensures bytes { IfOk result (λ blob. ForSome (S.known source.old) (λ bytes. blob ≡ bytes)) }
    ensures len { IfOk result (λ blob. length blob ≡ S.len source.old) }
    ensures fits { OnOk result (S.len source.old ≤ most) }
    ensures stays { StaysSource S.len S.known S.faults source.old source.new }
    ensures count { OnOk result (S.faults source.new ≡ S.faults source.old) }
    ensures reason { IfErr result (HasReason S.len S.faults most source.old source.new) }
{
    let size = source.size()?;
    if size > most {
        return Err(ReadAllError::TooLong(size));
    }
    let mut bytes = vec![in alloc; 0; size as usize]?;
    fill_at(source, 0, &mut bytes)?;
    Ok(Blob::from_vec(bytes))
}
