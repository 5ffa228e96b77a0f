// The command `extract`.
ghost use Rattle.std.specs.Prelude.{◌≡◌, ◌≢◌, IfErr, IfOk};
ghost use Rattle.std.specs.Option.{ForSome};
ghost use Rattle.c2_base.specs.Sink.{WritesSink, unsaid};
ghost use Rattle.c2_base.specs.Source.{ReadsSource};
ghost use Rattle.c2_cmd_outcome.specs.Left.{state_of};
ghost use Rattle.c2_cmd_outcome.specs.Reply.{EndsFile, IsCopyingCause, IsFaultOf, IsOutputCause};
ghost use Rattle.c2_cmd_outcome.specs.Reply.{IsReplyTo, MakesFile, outcome_of};
ghost use Rattle.c2_cmd_extract.specs.Faults.{extract_says};
ghost use Rattle.c2_cmd_extract.specs.Outcomes.{IsExtractOutcome, IsExtractReply, extract_report};

use crate::lines::extracted_line;
use c2_base::{Sink, Source};
use c2_cmd_outcome::types::Answer;
use c2_cmd_outcome::{Fault, Reply, none_reply, refused_reply};
use c2_sidecar::{ExtractError, Extracted, each_file_is_extracted, extract};
use std::alloc::Global;

/// The reply to `extract`: how many bytes the store has, once the new file has them all and is finished.
///
/// `Input` and `Output` come only where the media or the new file failed in this call, and leave a prefix that isn't finished. Where memory
/// runs out, the new file is as it was, or whole and finished; every answer but `Done` leaves it as it was.
pub fn reply_to_extract<S: Source, K: Sink>(
    alloc: Global,
    media: &mut S,
    out: &mut K,
) -> Result<Reply, Fault>
    // Where the bytes are known: what is replied, and what is written.
    ensures made { let old = state_of K.written K.finished out.old in
        let new = state_of K.written K.finished out.new in
        ForSome (S.known media.old) (λ file. MakesFile (IsExtractOutcome file) old new result) }

    // Whatever the file holds.
    ensures words { IfOk result (λ reply. reply.answer ≢ Answer.Usage) }
    ensures within { IfOk result (IsExtractReply (S.len media.old)) }
    ensures media { ReadsSource S.len S.known S.faults IsCopyingCause media.old media.new result }
    ensures writes { WritesSink K.written unsaid K.faults IsOutputCause out.old out.new result }
    ensures ends { EndsFile K.finished K.faults out.old out.new result }
{
    each_file_is_extracted();
    let extracted = extract(alloc, media, out);
    reply_to_call(alloc, extracted)
}

// The reply to what the call came to.
fn reply_to_call(alloc: Global, extracted: Result<Extracted, ExtractError>) -> Result<Reply, Fault>
    ensures reply { IfOk result (IsReplyTo (extract_says extracted)) }
    ensures fault { IfErr result (IsFaultOf (extract_says extracted)) }
{
    match extracted {
        Ok(answer) => extracted_reply(alloc, answer),
        Err(ExtractError::ReadFault) => Err(Fault::Input),
        Err(ExtractError::WriteFault) => Err(Fault::Output),
        Err(ExtractError::NoMemory) => Err(Fault::Memory),
    }
}

// The reply to what a file comes to whose store is to be extracted.
fn extracted_reply(alloc: Global, answer: Extracted) -> Result<Reply, Fault>
    ensures reply { IfOk result (λ reply. outcome_of reply ≡ extract_report answer) }
    ensures memory { IfErr result (λ e. e ≡ Fault.Memory) }
{
    match answer {
        Extracted::Done(count) => Ok(Reply {
            answer: Answer::Done,
            text: extracted_line(alloc, count)?,
        }),
        Extracted::NoStore => none_reply(alloc),
        Extracted::Refused(reason, number) => refused_reply(alloc, reason, number),
    }
}
