// The command `list`.
ghost use Rattle.std.specs.Prelude.{◌≡◌, ◌≢◌, IfOk, IfErr};
ghost use Rattle.c2_base.specs.Source.{ReadsSource};
ghost use Rattle.c2_cmd_outcome.specs.Reply.{IsMediaCause, Replies};
ghost use Rattle.c2_cmd_reading.specs.Outcomes.{IsListOutcome};
ghost use Rattle.c2_cmd_reading.specs.Reading.{ListsStore};

use crate::open::{Stored, open};
use c2_base::{Found, Source};
use c2_cmd_outcome::types::Answer;
use c2_cmd_outcome::{Fault, Reply, refused_reply};
use c2_jumbf::parse;
use c2_spec::Refusal;
use c2_texts::listing;
use std::alloc::Global;

/// The reply to `list`. `Input` comes only where the media failed in this call, and `Memory` where memory ran out.
pub fn reply_to_list<S: Source>(alloc: Global, media: &mut S) -> Result<Reply, Fault>
    ensures reply { IfOk result (Replies IsListOutcome (S.known media.old)) }
    ensures words { IfOk result (λ reply. reply.answer ≢ Answer.Usage) }
    ensures media { ReadsSource S.len S.known S.faults IsMediaCause media.old media.new result }
{
    match open(alloc, media)? {
        Stored::Here(found) => list_store(alloc, &found),
        Stored::Reply(reply) => Ok(reply),
    }
}

// The reply over a store that was found.
fn list_store(alloc: Global, found: &Found) -> Result<Reply, Fault>
    ensures reply { IfOk result (ListsStore found.now) }
    ensures words { IfOk result (λ reply. reply.answer ≢ Answer.Usage) }
    ensures memory { IfErr result (λ e. e ≡ Fault.Memory) }
{
    match parse(alloc, found.store.as_slice()) {
        Ok(tree) => Ok(Reply {
            answer: Answer::Done,
            text: listing(alloc, &tree)?,
        }),
        Err(error) => {
            let refusal = Refusal::of_boxes(error).ok_or(Fault::Memory)?;
            refused_reply(alloc, refusal.reason, refusal.number)
        }
    }
}
