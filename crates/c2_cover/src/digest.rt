// The digest of a covered text.
ghost use Rattle.std.specs.Prelude.{◌≡◌, ◌<◌, length, IfOk};
ghost use Rattle.c2_base.specs.Causes.{HasCause};
ghost use Rattle.c2_base.specs.Source.{StaysSource};
ghost use Rattle.c2_cover.specs.Digests.{IsDigestOf};
ghost use Rattle.c2_spec.specs.Digest.{digest_len};

use crate::cover::Cover;
use crate::reader::CoveredReader;
use c2_base::{Failed, Source};
use c2_hash::{Alg, Digest, Hashing};

/// The digest of the covered text of a source that has the cover's size, read through a buffer that isn't empty.
///
/// The answer is the same for every length of the buffer. [`Failed`] comes only where the source failed. Takes no memory.
pub fn digest_cover<S: Source, H: Hashing>(
    hashing: &H,
    source: &mut S,
    cover: &Cover,
    alg: Alg,
    buf: &mut [u8],
) -> Result<Digest, Failed>
    requires room { 0 < length buf.old }
    requires size { S.len source.old ≡ cover.now.size }
    ensures digest { IfOk result (IsDigestOf (H.digest_of alg) cover.now (S.known source.old)) }
    ensures len { IfOk result (λ d. length d ≡ digest_len alg) }
    ensures stays { StaysSource S.len S.known S.faults source.old source.new }
    ensures cause { HasCause (S.faults source.old) (S.faults source.new) result }
{
    let mut state = hashing.start(alg);
    let mut reader = CoveredReader::new(cover);
    'pieces: loop {
        let count = reader.next(source, buf)?;
        if count == 0 {
            break;
        }
        hashing.update(&mut state, &buf[..count]);
    }
    Ok(hashing.finish(state))
}
