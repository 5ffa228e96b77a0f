// The bytes of a question, and its id.
ghost use Rattle.std.specs.Prelude.{◌≡◌};
ghost use Rattle.c2_hash.specs.Hashing.{Extends};
ghost use Rattle.c2_spec.specs.Judges.Question.{with_length, question_bytes, question_digest};

use c2_base::Question;
use c2_hash::{Alg, Digest, Hashing, Sha};

// Takes in the length of some bytes, and then these.
fn update_with_length<H: Hashing>(hashing: &H, state: &mut H::State, bytes: &[u8])
    ensures { Extends H.holds state.old state.new (with_length bytes.now) }
{
    let length = bytes.len() as u64;
    hashing.update(state, &length.to_be_bytes());
    hashing.update(state, bytes);
}

/// Takes the question's bytes into a running hash. Takes no memory.
pub fn update_question<H: Hashing>(hashing: &H, state: &mut H::State, q: &Question)
    ensures { Extends H.holds state.old state.new (question_bytes q.now) }
{
    update_with_length(hashing, state, q.tbs.as_slice());
    update_with_length(hashing, state, q.signature.as_slice());
    hashing.update(state, q.unprotected.as_slice());
}

/// The question's id: the SHA-256 digest of its bytes. Takes no memory.
pub fn question_id(q: &Question) -> Digest
    ensures { result ≡ question_digest q.now }
{
    let mut state = Sha.start(Alg::Sha256);
    update_question(&Sha, &mut state, q);
    Sha.finish(state)
}
