// The call that reads the root boxes of a file.
ghost use Rattle.std.specs.Prelude.{◌≡◌, ◌^◌, ◌<◌, All, OnOk, IfOk, IfErr};
ghost use Rattle.std.specs.Option.{ForSome};
ghost use Rattle.c2_base.specs.Source.{StaysSource};
ghost use Rattle.c2_bmff_boxes.specs.Causes.{IsRootsCause, OrBmffFault};
ghost use Rattle.c2_bmff_boxes.specs.Roots.{AreRootsOf, FillSource};
ghost use Rattle.c2_bmff_rows.specs.Rows.{IsBoxWithin};
ghost use Rattle.c2_bmff_rows.specs.Faults.{FirstRootsFault};

use crate::root_boxes::{Roots, is_bmff, walk};
use c2_base::limits::FILE_LEN_LIMIT;
use c2_base::{MediaError, Source};
use std::alloc::Global;

/// The root boxes of a BMFF file (ISO/IEC 14496-12, 4.2), from its first byte to its last.
///
/// The errors are the first test that fails: [`MediaError::FileTooLarge`], [`MediaError::NotMedia`], then by boxes in order
/// [`MediaError::TooManyBoxes`], [`MediaError::Truncated`] and [`MediaError::BadBox`]. What a box holds isn't tested. The number of the
/// first and of the fourth is the file's length, of the last the place where the box begins, also where the source tells no bytes.
/// [`MediaError::ReadFault`] comes only where the source failed, [`MediaError::NoMemory`] where memory ran out.
pub fn roots<S: Source>(alloc: Global, source: &mut S) -> Result<Roots, MediaError>
    ensures found { IfOk result
        (λ roots. ForSome (S.known source.old) (λ file. AreRootsOf file roots)) }
    ensures refused { IfErr result
        (λ e. ForSome (S.known source.old) (λ file. OrBmffFault e (FirstRootsFault file e))) }
    ensures inside { IfOk result (All (IsBoxWithin (S.len source.old))) }
    ensures fill { IfOk result (FillSource (S.len source.old) 0) }
    ensures small { OnOk result (S.len source.old < 2 ^ 62) }
    ensures stays { StaysSource S.len S.known S.faults source.old source.new }
    ensures count { OnOk result (S.faults source.new ≡ S.faults source.old) }
    ensures cause { IfErr result
        (IsRootsCause (S.len source.old) (S.faults source.old) (S.faults source.new)) }
{
    let size = source.size()?;
    if size >= FILE_LEN_LIMIT {
        return Err(MediaError::FileTooLarge(size));
    }
    if !is_bmff(source, size)? {
        return Err(MediaError::NotMedia);
    }
    // A `match`: the proof follows the error itself.
    match walk(alloc, source, size) {
        Ok(rows) => Ok(Roots { rows }),
        Err(error) => Err(error),
    }
}
