// The build of a media file in memory.
ghost use Rattle.std.specs.Prelude.{◌≡◌, ◌<◌, ◌^◌, IfOk, OnErr, length, true};
ghost use Rattle.c2_build_refusals.specs.Kinds.{kind_of, no_memory};
ghost use Rattle.c2_sample.specs.Sample.{IsNewFile, IsSureKind, is_refusal};

use crate::inputs::{sample_definition, sample_message};
use c2_base::limits::MAX_STORE_LEN;
use c2_base::{Blob, MemSink, NoMemory, SureSource};
use c2_build_plain::{BuildError, embed};
use c2_hash::Hashing;
use c2_jpegseg::segments_len;
use c2_judge::Judge;
use std::alloc::Global;

/// What is built of a media file.
#[derive(Drop)]
pub enum NewFile {
    /// This file.
    Built(Blob),

    /// Nothing.
    Refused(BuildError),
}

/// Builds a store into a media file, with the definition and the message of a sample. The sink has room for the media and the packets of
/// the longest store, and no judge is there to be asked.
pub fn build<H: Hashing>(alloc: Global, hashing: &H, media: Blob) -> Result<NewFile, NoMemory>
    requires { length media < 2 ^ 62 }
    ensures { IfOk result (IsNewFile H.digest_of media) }
{
    let room = media
        .as_slice()
        .len()
        .saturating_add(segments_len(MAX_STORE_LEN) as usize);
    let mut definition = SureSource::new(sample_definition(alloc)?);
    let mut message = SureSource::new(sample_message(alloc)?);
    let mut media = SureSource::new(media);
    let mut none: Vec<Box<dyn Judge>> = Vec::new(alloc);
    let mut file = MemSink::with_room(alloc, room, 0)?;
    match embed(
        alloc,
        hashing,
        &mut media,
        &mut definition,
        &mut message,
        &mut none,
        &mut file,
    ) {
        Ok(_) => Ok(NewFile::Built(Blob::copied(alloc, file.bytes())?)),
        Err(error) => refused(error),
    }
}

// What is refused, or that memory ran out: a source or a sink in memory doesn't fail, and there is no judge.
fn refused(error: BuildError) -> Result<NewFile, NoMemory>
    requires { IsSureKind (kind_of error) }
    ensures refusal { IfOk result (λ file. (is_refusal (kind_of error) ≡ true)
        × (file ≡ NewFile.Refused error)) }
    ensures memory { OnErr result (kind_of error ≡ no_memory) }
{
    if is_refusal(&error) {
        return Ok(NewFile::Refused(error));
    }
    Err(NoMemory)
}

// Whether an error is a refusal of what is built.
fn is_refusal(error: &BuildError) -> bool
    ensures { result ≡ is_refusal (kind_of error.now) }
{
    !matches!(
        error,
        BuildError::ReadFault
            | BuildError::JudgeFault
            | BuildError::WriteFault
            | BuildError::NoMemory
    )
}
