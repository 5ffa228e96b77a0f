// Replies of one plain line.
ghost use Rattle.std.specs.Prelude.{◌≡◌, IfOk, IfErr};
ghost use Rattle.c2_cmd_outcome.specs.Outcome.{reports};
ghost use Rattle.c2_cmd_outcome.specs.Reply.{outcome_of};
ghost use Rattle.c2_texts.specs.Texts.{usage_line, none_line, refused_line};

use crate::reply::{Fault, Reply};
use crate::types::Answer;
use c2_spec::Reason;
use std::alloc::Global;

/// The usage line. [`Fault::Memory`] is the one fault: memory may run out.
pub fn usage_reply(alloc: Global) -> Result<Reply, Fault>
    ensures reply { IfOk result (λ r. outcome_of r ≡ reports Answer.Usage usage_line) }
    ensures memory { IfErr result (λ e. e ≡ Fault.Memory) }
{
    Ok(Reply {
        answer: Answer::Usage,
        text: c2_texts::usage_line(alloc)?,
    })
}

/// The reply to a file without a store. [`Fault::Memory`] is the one fault: memory may run out.
pub fn none_reply(alloc: Global) -> Result<Reply, Fault>
    ensures reply { IfOk result (λ r. outcome_of r ≡ reports Answer.NoStore none_line) }
    ensures memory { IfErr result (λ e. e ≡ Fault.Memory) }
{
    Ok(Reply {
        answer: Answer::NoStore,
        text: c2_texts::none_line(alloc)?,
    })
}

/// The reply to a refusal, with its number. [`Fault::Memory`] is the one fault: memory may run out.
pub fn refused_reply(alloc: Global, reason: Reason, number: u64) -> Result<Reply, Fault>
    ensures reply { let line = refused_line reason number in
        IfOk result (λ r. outcome_of r ≡ reports Answer.Refused line) }
    ensures memory { IfErr result (λ e. e ≡ Fault.Memory) }
{
    Ok(Reply {
        answer: Answer::Refused,
        text: c2_texts::refused_line(alloc, reason, number)?,
    })
}
