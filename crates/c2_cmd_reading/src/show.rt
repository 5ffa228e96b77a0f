// The command `show`.
ghost use Rattle.std.specs.Prelude.{◌≡◌, ◌≢◌, IfOk, IfErr};
ghost use Rattle.c2_base.specs.Source.{ReadsSource};
ghost use Rattle.c2_spec.specs.C2pa.Manifest.{IsStoreOf};
ghost use Rattle.c2_cmd_outcome.specs.Reply.{IsMediaCause, Replies, outcome_of};
ghost use Rattle.c2_cmd_reading.specs.Outcomes.{IsMediaOutcome, IsShown};
ghost use Rattle.c2_cmd_reading.specs.Reading.{RepliesOver};

use crate::open::{Stored, open};
use c2_base::{Found, Source};
use c2_chain::of_store;
use c2_cmd_outcome::types::Answer;
use c2_cmd_outcome::{Fault, Reply, refused_reply};
use c2_jumbf::Tree;
use c2_store::Store;
use c2_texts::show_line;
use c2_validate::read_store;
use c2_validate::types::StoreRead;
use std::alloc::Global;

/// The reply to `show`. `Input` comes only where the media failed in this call, and `Memory` where memory ran out.
pub fn reply_to_show<S: Source>(alloc: Global, media: &mut S) -> Result<Reply, Fault>
    ensures reply { IfOk result (Replies (IsMediaOutcome IsShown) (S.known media.old)) }
    ensures words { IfOk result (λ reply. reply.answer ≢ Answer.Usage) }
    ensures media { ReadsSource S.len S.known S.faults IsMediaCause media.old media.new result }
{
    match open(alloc, media)? {
        Stored::Here(found) => show_found(alloc, &found),
        Stored::Reply(reply) => Ok(reply),
    }
}

// The reply over a store that was found.
fn show_found(alloc: Global, found: &Found) -> Result<Reply, Fault>
    ensures reply { IfOk result (RepliesOver IsShown found.now) }
    ensures words { IfOk result (λ reply. reply.answer ≢ Answer.Usage) }
    ensures memory { IfErr result (λ e. e ≡ Fault.Memory) }
{
    match read_store(alloc, found)? {
        StoreRead::Here(tree, store) => show_store(alloc, &tree, &store),
        StoreRead::Refused(reason, number) => refused_reply(alloc, reason, number),
    }
}

// The reply over the manifests of a store.
fn show_store(alloc: Global, tree: &Tree<'_>, store: &Store) -> Result<Reply, Fault>
    requires { IsStoreOf tree.now store.now }
    ensures reply { IfOk result (λ reply. IsShown tree.now (outcome_of reply)) }
    ensures words { IfOk result (λ reply. reply.answer ≢ Answer.Usage) }
    ensures memory { IfErr result (λ e. e ≡ Fault.Memory) }
{
    let chain = of_store(alloc, tree, store)?;
    Ok(Reply {
        answer: Answer::Done,
        text: show_line(alloc, tree, store, &chain)?,
    })
}
