// What a sample comes to.
ghost use Rattle.std.specs.Prelude.{◌≡◌, map, length, IfOk};
ghost use Rattle.c2_rules.specs.Asking.{HearsPanel};
ghost use Rattle.c2_spec.specs.Judges.Panel.{panel_says};
ghost use Rattle.c2_validate.specs.Validation.{FileAsks};
ghost use Rattle.c2_base.specs.InMemory.{sure_bytes};
ghost use Rattle.c2_opening.specs.declared.error.ValidateError.TheVariants as check;
ghost use Rattle.c2_sample.specs.Sample.{IsFileSampled, IsLength, IsSameError, IsSampled};
ghost use Rattle.c2_sample.specs.Sample.{IsSureFault, SampleAsks, sample_heard};

use crate::building::{NewFile, build};
use crate::media::sample_media;
use crate::{Lengths, SampleError, Sampled};
use c2_base::{Blob, NoMemory, SureSource};
use c2_hash::Hashing;
use c2_judge::Judge;
use c2_validate::types::Opened;
use c2_validate::{ValidateError, find_store, validate};
use std::alloc::Global;

/// What so many pieces come to: the file that is built of them, checked with these judges, or what is refused.
///
/// What a build refuses is answered and is no error. `JudgeFault` comes only where a judge failed that was due in the check of the new file;
/// no judge is asked while the file is built. `NoMemory` comes where memory ran out. Nothing else fails, since all files are in memory.
// The condition always holds: a function that changes boxed judges is called under a contract only where it has one.
pub fn sample<H: Hashing>(
    alloc: Global,
    hashing: &H,
    count: u32,
    judges: &mut Vec<Box<dyn Judge>>,
) -> Result<Sampled, SampleError>
    requires { Unit {0} }
    ensures sampled { let said = panel_says (map says judges.old.items) in
        IfOk result (IsSampled H.digest_of said count) }
    ensures panel { HearsPanel says asked_times judge_faults sample_heard
        (λ said. SampleAsks H.digest_of said count) judges.old judges.new result }
{
    let Ok(media) = sample_media(alloc, count) else {
        return Err(SampleError::NoMemory);
    };
    let len = media.as_slice().len() as u64;
    match build(alloc, hashing, media) {
        Ok(NewFile::Built(file)) => check(alloc, hashing, len, file, judges),
        Ok(NewFile::Refused(error)) => Ok(Sampled::Refused(error)),
        Err(NoMemory) => Err(SampleError::NoMemory),
    }
}

// What a new file comes to, over media of this length.
fn check<H: Hashing>(
    alloc: Global,
    hashing: &H,
    media: u64,
    file: Blob,
    judges: &mut Vec<Box<dyn Judge>>,
) -> Result<Sampled, SampleError>
    requires { Unit {0} }
    ensures sampled { let said = panel_says (map says judges.old.items) in
        IfOk result (IsFileSampled H.digest_of said media file) }
    ensures panel { HearsPanel says asked_times judge_faults sample_heard
        (FileAsks H.digest_of file) judges.old judges.new result }
{
    let len = file.as_slice().len() as u64;
    let mut source = SureSource::new(file);
    let Ok(store) = store_len(alloc, &mut source) else {
        return Err(SampleError::NoMemory);
    };
    let lengths = Lengths {
        media,
        file: len,
        store,
    };
    match validate(alloc, hashing, &mut source, judges) {
        Ok(answer) => Ok(Sampled::Checked(lengths, answer)),
        Err(error) => Err(sample_error(error)),
    }
}

// How many bytes the store has that the file is found to have.
fn store_len(alloc: Global, source: &mut SureSource) -> Result<u64, NoMemory>
    ensures length { IfOk result (IsLength (sure_bytes source.old)) }
    ensures same { sure_bytes source.new ≡ sure_bytes source.old }
{
    match find_store(alloc, source) {
        Ok(Opened::Here(media)) => Ok(media.found.store.as_slice().len() as u64),
        Ok(Opened::NoStore(_)) => Ok(0),
        Ok(Opened::Refused(_, _)) => Ok(0),
        Err(error) => Err(out_of_memory(error)),
    }
}

// The error of a search for a store as one of a sample: that memory ran out, since a source in memory doesn't fail.
fn out_of_memory(_error: ValidateError) -> NoMemory
    requires { _error ≡ check.NoMemory }
{
    NoMemory
}

// What an error of the check is; a source in memory doesn't fail.
fn sample_error(error: ValidateError) -> SampleError
    requires { IsSureFault error }
    ensures { IsSameError error result }
{
    match error {
        ValidateError::JudgeFault => SampleError::JudgeFault,
        ValidateError::NoMemory => SampleError::NoMemory,
        ValidateError::ReadFault => unreachable!(),
    }
}
