// The digest of a whole file.
ghost use Rattle.std.specs.Prelude.{◌≡◌, ◌<◌, ◌≤◌, length, IfOk, OnOk, Ok};
ghost use Rattle.std.specs.Option.{ForSome};
ghost use Rattle.c2_base.specs.Source.{StaysSource};
ghost use Rattle.c2_base.specs.Causes.{HasCause};
ghost use Rattle.c2_spec.specs.Digest.{digest_len};
ghost use Rattle.c2_build_parts.specs.Bound.{HasTaken};

use c2_base::{Failed, Source, fill_at};
use c2_hash::{Alg, Digest, Hashing};

// Hashes the bytes of a source from one place to another, read in pieces through a buffer that isn't empty.
fn hash_piece<S: Source, H: Hashing>(
    hashing: &H,
    state: &mut H::State,
    source: &mut S,
    from: u64,
    to: u64,
    buf: &mut [u8],
) -> Result<(), Failed>
    requires ordered { from ≤ to }
    requires inside { to ≤ S.len source.old }
    requires room { 0 < length buf.old }
    ensures taken { OnOk result
        (HasTaken H.holds (S.known source.old) from to state.old state.new) }
    ensures stays { StaysSource S.len S.known S.faults source.old source.new }
    ensures cause { HasCause (S.faults source.old) (S.faults source.new) result }
{
    let mut at = from;
    'pieces: while at < to {
        let len = (to - at).min(buf.len() as u64) as usize;
        fill_at(source, at, &mut buf[..len])?;
        hashing.update(state, &buf[..len]);
        at += len as u64;
    }
    Ok(())
}

/// The digest by this algorithm of a whole file of this size, read through a buffer that isn't empty. It fails only where the file's count of
/// faults rose in this call.
pub fn hash_all<S: Source, H: Hashing>(
    hashing: &H,
    alg: Alg,
    source: &mut S,
    size: u64,
    buf: &mut [u8],
) -> Result<Digest, Failed>
    requires size { size ≡ S.len source.old }
    requires room { 0 < length buf.old }
    ensures digest { IfOk result (λ d. ForSome (S.known source.old) (λ file.
        d ≡ H.digest_of alg file)) }
    ensures len { IfOk result (λ d. length d ≡ digest_len alg) }
    ensures stays { StaysSource S.len S.known S.faults source.old source.new }
    ensures cause { HasCause (S.faults source.old) (S.faults source.new) result }
{
    let mut state = hashing.start(alg);
    hash_piece(hashing, &mut state, source, 0, size, buf)?;
    Ok(hashing.finish(state))
}
