// Replies to what a build comes to.
ghost use Rattle.std.specs.Prelude.{◌≡◌, IfOk, IfErr};
ghost use Rattle.c2_cmd_outcome.specs.Reply.{IsFaultOf, IsReplyTo, outcome_of};
ghost use Rattle.c2_cmd_written_spec.specs.Builds.{build_says, embedded_outcome, tbs_outcome};

use crate::errors::refusal_reply;
use c2_base::Blob;
use c2_build_refusals::{BuildError, Embedded};
use c2_cmd_outcome::types::Answer;
use c2_cmd_outcome::{Fault, Reply};
use std::alloc::Global;

/// The reply to a plan: the bytes that are to be signed, or what is refused.
pub fn planned_reply(alloc: Global, planned: Result<Blob, BuildError>) -> Result<Reply, Fault>
    ensures reply { IfOk result (IsReplyTo (build_says tbs_outcome planned)) }
    ensures fault { IfErr result (IsFaultOf (build_says tbs_outcome planned)) }
{
    match planned {
        Ok(bytes) => tbs_reply(alloc, bytes.as_slice()),
        Err(error) => refusal_reply(alloc, &error),
    }
}

/// The reply to a build that writes a new file: the range of the new store there, or what is refused.
pub fn embedded_reply(alloc: Global, embedded: Result<Embedded, BuildError>) -> Result<Reply, Fault>
    ensures reply { IfOk result (IsReplyTo (build_says embedded_outcome embedded)) }
    ensures fault { IfErr result (IsFaultOf (build_says embedded_outcome embedded)) }
{
    match embedded {
        Ok(range) => range_reply(alloc, range),
        Err(error) => refusal_reply(alloc, &error),
    }
}

// The bytes that are to be signed.
fn tbs_reply(alloc: Global, bytes: &[u8]) -> Result<Reply, Fault>
    ensures reply { IfOk result (λ r. outcome_of r ≡ tbs_outcome bytes.now) }
    ensures memory { IfErr result (λ e. e ≡ Fault.Memory) }
{
    Ok(Reply {
        answer: Answer::Done,
        text: c2_texts::tbs_line(alloc, bytes)?,
    })
}

// The range of a new store in a new file.
fn range_reply(alloc: Global, range: Embedded) -> Result<Reply, Fault>
    ensures reply { IfOk result (λ r. outcome_of r ≡ embedded_outcome range) }
    ensures memory { IfErr result (λ e. e ≡ Fault.Memory) }
{
    Ok(Reply {
        answer: Answer::Done,
        text: c2_texts::embedded_line(alloc, range.start, range.length)?,
    })
}
