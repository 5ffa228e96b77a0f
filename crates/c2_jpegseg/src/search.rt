// The C2PA store of a JPEG file.
ghost use Rattle.std.specs.Prelude.{◌≡◌, OnOk, IfOk, IfErr, IfSome};
ghost use Rattle.std.specs.Option.{ForSome};
ghost use Rattle.c2_base.specs.Source.{StaysSource};
ghost use Rattle.c2_spec.specs.Located.{Located, as_located, HasReason};
ghost use Rattle.c2_spec.specs.Jpeg.Store.{IsLocated, IsJpegRefusal};
ghost use Rattle.c2_jpegseg.specs.Founds.{IsFoundIn};

use c2_base::{Found, MediaError, Source};
use c2_jpegseg_survey::{Surveyed, survey};
use std::alloc::Global;

/// The C2PA store of a JPEG file and the range of the file that its packets fill; nothing where no segment begins a store.
///
/// The file is read from its start up to the first scan (SOS) or the end of the image (EOI), 65,536 bytes at once, and only
/// what the markers, their lengths and the packets of APP11 ask for.
///
/// The error is the first test that fails, in the order of the file:
/// - `FileTooLarge`: the file has 2^62 bytes or more; `NotMedia`: it doesn't begin with SOI.
/// - `Truncated`, `BadMarker`, `BadSegment`: a segment's marker or length (ITU-T T.81, B.1.1).
/// - `TwoStores`, `BadPacket`, `StoreTooLarge`: the packets of a store (ISO/IEC 18477-3).
/// - `ReadFault`: the source failed; `NoMemory`: out of memory.
pub fn locate<S: Source>(alloc: Global, source: &mut S) -> Result<Option<Found>, MediaError>
    // Where the source's bytes are known: what is returned holds, and what holds is returned.
    ensures found { ForSome (S.known source.old)
        (λ file. IfSome (as_located result) (IsLocated file)) }
    ensures only { ForSome (S.known source.old) (λ file.
        (what : Located) → IsLocated file what → IfSome (as_located result) (λ s. s ≡ what)) }

    // These hold of every source, also of one whose bytes aren't known.
    ensures inside { IfOk result (IsFoundIn (S.len source.old)) }
    ensures refusal { IfErr result (IsJpegRefusal (S.len source.old)) }
    ensures stays { StaysSource S.len S.known S.faults source.old source.new }
    ensures count { OnOk result (S.faults source.new ≡ S.faults source.old) }
    ensures reason { IfErr result
        (HasReason (S.len source.old) (S.faults source.old) (S.faults source.new)) }
{
    // Matched and not handed up by `?`: each way out has clauses of its own.
    match survey(alloc, source) {
        Ok(Surveyed { found, .. }) => Ok(found),
        Err(error) => Err(error),
    }
}
