// The command `strip`.
ghost use Rattle.std.specs.Prelude.{◌≡◌, ◌≢◌, IfErr, IfOk};
ghost use Rattle.std.specs.Option.{ForSome};
ghost use Rattle.c2_base.specs.Sink.{WritesSink, unsaid};
ghost use Rattle.c2_base.specs.Source.{ReadsSource};
ghost use Rattle.c2_cmd_outcome.specs.Left.{state_of};
ghost use Rattle.c2_cmd_outcome.specs.Reply.{EndsFile, IsCopyingCause, IsFaultOf, IsOutputCause};
ghost use Rattle.c2_cmd_outcome.specs.Reply.{IsReplyTo, MakesFile, outcome_of};
ghost use Rattle.c2_cmd_strip.specs.Faults.{strip_says};
ghost use Rattle.c2_cmd_strip.specs.Outcomes.{IsStripOutcome, IsStripReply, refused_outcome};
ghost use Rattle.c2_cmd_strip.specs.Outcomes.{strip_report};

use crate::lines::{middle_line, stripped_line};
use c2_base::limits::PIECE_LEN;
use c2_base::{MediaError, Sink, Source};
use c2_cmd_outcome::types::Answer;
use c2_cmd_outcome::{Fault, Reply, none_reply, refused_reply};
use c2_spec::Refusal;
use c2_strip::{StripError, Stripped, strip};
use std::alloc::Global;

/// The reply to `strip`: the range that was left out of the new file, once this is whole and finished.
///
/// `Input` and `Output` come only where the media or the new file failed in this call, and leave a prefix that isn't finished. Where memory
/// runs out, the new file is as it was, or whole and finished; every answer but `Done` leaves it as it was.
pub fn reply_to_strip<S: Source, K: Sink>(
    alloc: Global,
    media: &mut S,
    out: &mut K,
) -> Result<Reply, Fault>
    // Where the bytes are known: what is replied, and what is written.
    ensures made { let old = state_of K.written K.finished out.old in
        let new = state_of K.written K.finished out.new in
        ForSome (S.known media.old) (λ file. MakesFile (IsStripOutcome file) old new result) }

    // Whatever the file holds.
    ensures words { IfOk result (λ reply. reply.answer ≢ Answer.Usage) }
    ensures within { IfOk result (IsStripReply (S.len media.old)) }
    ensures media { ReadsSource S.len S.known S.faults IsCopyingCause media.old media.new result }
    ensures writes { WritesSink K.written unsaid K.faults IsOutputCause out.old out.new result }
    ensures ends { EndsFile K.finished K.faults out.old out.new result }
{
    // Matched and not handed up by `?`: this way out has clauses of its own.
    let mut buf = match vec![in alloc; 0; PIECE_LEN] {
        Ok(buf) => buf,
        Err(_) => return Err(Fault::Memory),
    };
    let stripped = strip(alloc, media, out, &mut buf);
    reply_to_call(alloc, stripped)
}

// The reply to what the call came to.
fn reply_to_call(alloc: Global, stripped: Result<Stripped, StripError>) -> Result<Reply, Fault>
    ensures reply { IfOk result (IsReplyTo (strip_says stripped)) }
    ensures fault { IfErr result (IsFaultOf (strip_says stripped)) }
{
    match stripped {
        Ok(answer) => stripped_reply(alloc, answer),
        Err(StripError::ReadFault) => Err(Fault::Input),
        Err(StripError::WriteFault) => Err(Fault::Output),
        Err(StripError::NoMemory) => Err(Fault::Memory),
    }
}

// The reply to what a file comes to without its store.
fn stripped_reply(alloc: Global, answer: Stripped) -> Result<Reply, Fault>
    ensures reply { IfOk result (λ reply. outcome_of reply ≡ strip_report answer) }
    ensures memory { IfErr result (λ e. e ≡ Fault.Memory) }
{
    match answer {
        Stripped::Done(range) => Ok(Reply {
            answer: Answer::Done,
            text: stripped_line(alloc, range.start, range.length)?,
        }),
        Stripped::NoStore => none_reply(alloc),
        Stripped::Refused(error) => refusal_reply(alloc, error),
        Stripped::Middle(at) => Ok(Reply {
            answer: Answer::StripRefused,
            text: middle_line(alloc, at)?,
        }),
    }
}

// The reply to an error of the container that refuses the file.
fn refusal_reply(alloc: Global, error: MediaError) -> Result<Reply, Fault>
    ensures reply { IfOk result (λ reply. outcome_of reply ≡ refused_outcome error) }
    ensures memory { IfErr result (λ e. e ≡ Fault.Memory) }
{
    match Refusal::of_media(error) {
        Some(refusal) => refused_reply(alloc, refusal.reason, refusal.number),
        None => Ok(Reply {
            answer: Answer::Refused,
            text: String::new(alloc),
        }),
    }
}
