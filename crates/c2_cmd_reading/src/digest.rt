// The command `digest`.
ghost use Rattle.std.specs.Prelude.{◌≡◌, ◌≢◌, IfErr, IfOk};
ghost use Rattle.c2_base.specs.Source.{ReadsSource};
ghost use Rattle.c2_cmd_outcome.specs.Outcome.{reports};
ghost use Rattle.c2_cmd_outcome.specs.Reply.{IsMediaCause, Replies, outcome_of};
ghost use Rattle.c2_cmd_reading.specs.Outcomes.{IsDigestOutcome};
ghost use Rattle.c2_texts.specs.Texts.{digest_line};

use crate::open::{Stored, open};
use crate::outside::digest_outside;
use c2_base::{Range, Source};
use c2_cmd_outcome::types::Answer;
use c2_cmd_outcome::{Fault, Reply};
use c2_hash::{Alg, Digest, Hashing};
use std::alloc::Global;

/// The reply to `digest` by this algorithm. `Input` comes only where the media failed in this call, and `Memory` where memory ran out.
pub fn reply_to_digest<H: Hashing, S: Source>(
    alloc: Global,
    hashing: &H,
    alg: Alg,
    media: &mut S,
) -> Result<Reply, Fault>
    ensures reply { let hash = H.digest_of alg in
        IfOk result (Replies (IsDigestOutcome hash) (S.known media.old)) }
    ensures words { IfOk result (λ reply. reply.answer ≢ Answer.Usage) }
    ensures media { ReadsSource S.len S.known S.faults IsMediaCause media.old media.new result }
{
    let found = match open(alloc, media)? {
        Stored::Here(found) => found,
        Stored::Reply(reply) => return Ok(reply),
    };
    let range = Range {
        start: found.start,
        length: found.length,
    };
    let digest = digest_outside(alloc, hashing, alg, media, range)?;
    digest_reply(alloc, range, &digest)
}

// An embedded range and the digest of the bytes outside it.
fn digest_reply(alloc: Global, range: Range, digest: &Digest) -> Result<Reply, Fault>
    ensures reply { let line = digest_line range.start range.length digest.now in
        IfOk result (λ reply. outcome_of reply ≡ reports Answer.Done line) }
    ensures memory { IfErr result (λ e. e ≡ Fault.Memory) }
{
    Ok(Reply {
        answer: Answer::Done,
        text: c2_texts::digest_line(alloc, range.start, range.length, digest.as_slice())?,
    })
}
