// The digest of the bytes outside a range.
ghost use Rattle.std.specs.Prelude.{◌≡◌, ◌+◌, ◌≤◌, IfOk};
ghost use Rattle.std.specs.Option.{ForSome};
ghost use Rattle.c2_base.specs.Source.{ReadsSource};
ghost use Rattle.c2_spec.specs.PutIn.{taken_out};
ghost use Rattle.c2_cmd_outcome.specs.Reply.{IsMediaCause};

use c2_base::limits::PIECE_LEN;
use c2_base::{Failed, Range, Source};
use c2_cmd_outcome::Fault;
use c2_cover::{cover_without, digest_cover};
use c2_hash::{Alg, Digest, Hashing};
use std::alloc::Global;

/// The digest, by this algorithm, of the bytes outside a range of the source.
pub fn digest_outside<H: Hashing, S: Source>(
    alloc: Global,
    hashing: &H,
    alg: Alg,
    source: &mut S,
    range: Range,
) -> Result<Digest, Fault>
    requires inside { range.start + range.length ≤ S.len source.old }
    ensures digest { let hash = H.digest_of alg in
        ForSome (S.known source.old) (λ file. IfOk result (λ digest.
        digest ≡ hash (taken_out range.start range.length file))) }
    ensures reads { ReadsSource S.len S.known S.faults IsMediaCause source.old source.new result }
{
    let size = source.size()?;
    let cover = cover_without(alloc, &mut [range], size)?;
    let mut buf = vec![in alloc; 0; PIECE_LEN]?;
    match digest_cover(hashing, source, &cover, alg, &mut buf) {
        Ok(digest) => Ok(digest),
        Err(Failed) => Err(Fault::Input),
    }
}
