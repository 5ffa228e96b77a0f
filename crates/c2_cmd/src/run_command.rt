// The top call.
ghost use Rattle.std.specs.Prelude.{◌≡◌, ◌⊎◌, true, map, string_bytes, Err, OnOk, OnErr};
ghost use Rattle.c2_base.specs.Causes.{HasCause, Rose};
ghost use Rattle.c2_base.specs.Sink.{HasWrittenPrefix};
ghost use Rattle.c2_build_endings.specs.Sources.{use_of};
ghost use Rattle.c2_spec.specs.Judges.Panel.{LeavesPanel};
ghost use Rattle.c2_usage.specs.CommandLine.{is_out};
ghost use Rattle.c2_cmd_outcome.specs.Left.{Delivers, state_of};
ghost use Rattle.c2_cmd_outcome.specs.Outcome.{Outcome};
ghost use Rattle.c2_cmd_outcome.specs.Reply.{end_of};
ghost use Rattle.c2_cmd.specs.Left.{KeepsOut, KeepsPanel, KeepsReport, KeepsSources, LeavesEach};
ghost use Rattle.c2_cmd.specs.Left.{LeavesOut, LeavesReport, LeavesSources};
ghost use Rattle.c2_cmd.specs.Outcome.{digest_alg, has_whole_report, names};
ghost use Rattle.c2_cmd.specs.Run.{ComesTo, Faults, IsCaused, IsKnown, LeavesUnused, RepliesTo};
ghost use Rattle.c2_cmd.specs.Run.{RunStates, RunsTo, Untouched, after, before, call_of};
ghost use Rattle.c2_cmd.specs.Run.{panel_states, roles_in};

use c2_base::{Failed, Sink, Source, write_all};
use c2_cmd_building::{reply_to_embed, reply_to_plan, reply_to_sample};
use c2_cmd_collect::{reply_to_embed_collect, reply_to_plan_collect};
use c2_cmd_extract::reply_to_extract;
use c2_cmd_front::{reply_to_embed_front, reply_to_plan_front};
use c2_cmd_outcome::types::Status;
use c2_cmd_outcome::{Fault, Reply, usage_reply};
use c2_cmd_reading::{
    reply_to_compare, reply_to_digest, reply_to_list, reply_to_questions, reply_to_show,
    reply_to_validate, reply_to_validate_external,
};
use c2_cmd_strip::reply_to_strip;
use c2_hash::{Alg, Hashing};
use c2_judge::Judge;
use c2_usage::roles;
use c2_usage::types::{Command, Roles, RolesError};
use std::alloc::Global;

/// Runs the command that the words spell, over the files, the sinks and the judges that it is handed: `second` is the other file of
/// `compare`, the definition of a command that builds, and the store that `validate-external` checks the media with, `third` the signed
/// message of a command that embeds, `fourth` the other media file of `plan-collect` and `embed-collect`, and `out` takes the file that a command
/// which embeds, `strip` or `extract` writes.
///
/// Where the bytes of the files that the command reads are known, the report holds the outcome's text and is finished; after a fault or
/// out of memory it holds a prefix of it. `Usage` comes exactly where the words fit no command, unless the report fails or memory
/// runs out. `InputFault`, `OutputFault` and `JudgeFault` come only where a file that the command reads, the report or the new file, or
/// a judge whom the command may ask failed in this call; `NoMemory` where memory ran out. `compare` writes evidence while it reads it,
/// behind its last question: each other command has its whole report before it writes any of it.
///
/// Where these bytes are known, a command that writes a file has written and finished the whole of it before the first byte of the
/// report, and after a fault the file may hold a prefix. Whatever the files hold: nothing is written to the report while a new file is
/// begun and not finished; a file that failed isn't finished by the call, nor is one after a source that failed; out of memory it is as it
/// was, or finished; every answer but `Done`, a failed judge and each command that writes no file leave it as it was.
///
/// Where these bytes are known and the new file of `embed` is whole, it meets every rule but the verdict on its own message, and asks over
/// what `plan` gives and then what the media's store asks. What the media holds outside its embedded range is kept byte by byte in the same
/// order, around the new range and an older box that is freed; and where the media had no store, `strip` makes of the new file the media
/// again, byte for byte. That of `embed-front` meets every rule but that too, and asks over what `plan-front` gives. Each chunk offset that told
/// a place of the media from the store's on tells where the same byte is, unless that byte is in such an offset itself; and each byte of the media
/// outside of moved offsets is kept, in the same order around the new range. That of `embed-collect` meets every rule but that too. It asks over what
/// `plan-collect` gives, and then only what the media or the other file asks, all of which the judges approve; and it keeps of the media what that of
/// `embed` does.
///
/// A file that isn't due is left as it was, where the bytes that tell so are known: `second` under `compare` where the media isn't
/// accepted, under a command that builds where it is refused, and under `validate-external` where its container is; `third` where the
/// media or the definition is refused; and `fourth` where one of these or the message is refused, or a rule fails of the media's store.
// The condition always holds. A public function without one that changes boxed judges can't be called from another crate
// under a contract.
pub fn run<H: Hashing, A: Source, B: Source, C: Source, D: Source, K: Sink, W: Sink>(
    alloc: Global,
    hashing: &H,
    words: &Vec<String>,
    media: &mut A,
    second: &mut B,
    third: &mut C,
    fourth: &mut D,
    out: &mut K,
    report: &mut W,
    judges: &mut Vec<Box<dyn Judge>>,
) -> Status
    requires { Unit {0} }
    // Where the sources that the call comes to read tell their bytes: it comes to an outcome, and its report, its new file and
    // its questions are those of that outcome, as far as its status lets them be.
    ensures known { let call = call_of words.now.items (record {
      media = A.known media.old;
      second = B.known second.old;
      third = C.known third.old;
      fourth = D.known fourth.old;
    }) (map says judges.old.items) H.digest_of in
        let states : RunStates = record {
          report = (state_of W.written W.finished report.old, state_of W.written W.finished report.new);
          file = (state_of K.written K.finished out.old, state_of K.written K.finished out.new);
          judges = panel_states says asked_times judge_faults judges.old.items judges.new.items;
        } in
        IsKnown call → (expected : Outcome) × ComesTo call expected
        × RunsTo call expected (before states) (after states) (judges.new ≡ judges.old) result }

    // Whatever the objects hold: when the words are refused, and whose fault is answered.
    ensures cause { let faults : Faults = record {
      sources = record {
        media = (A.faults media.old, A.faults media.new);
        second = (B.faults second.old, B.faults second.new);
        third = (C.faults third.old, C.faults third.new);
        fourth = (D.faults fourth.old, D.faults fourth.new);
      };
      out = (K.faults out.old, K.faults out.new);
      report = (W.faults report.old, W.faults report.new);
      judges = (map judge_faults judges.old.items, map judge_faults judges.new.items);
    } in
        IsCaused (roles_in words.now.items) faults result }

    // Whatever the objects hold: what the command doesn't name, and a source that isn't due, is as it was.
    ensures unused { let call = call_of words.now.items (record {
      media = A.known media.old;
      second = B.known second.old;
      third = C.known third.old;
      fourth = D.known fourth.old;
    }) (map says judges.old.items) H.digest_of in
        let untouched : Untouched = record {
          sources = record {
            media = media.new ≡ media.old;
            second = second.new ≡ second.old;
            third = third.new ≡ third.old;
            fourth = fourth.new ≡ fourth.old;
          };
          out = out.new ≡ out.old;
          judges = judges.new ≡ judges.old;
        } in
        LeavesUnused call untouched }

    // What is left of each object, whatever it holds. The new file is finished before the report is begun.
    ensures sources { KeepsSources (use_of A.len A.known A.faults media.old media.new)
        (use_of B.len B.known B.faults second.old second.new)
        (use_of C.len C.known C.faults third.old third.new)
        (use_of D.len D.known D.faults fourth.old fourth.new) result }
    ensures out { let named = names is_out (roles_in words.now.items) in
        let failed = Rose (W.faults report.old) (W.faults report.new) in
        KeepsOut K.written K.finished K.faults named failed out.old out.new result }
    ensures report { let whole = has_whole_report (roles_in words.now.items) in
        let ready = (out.new ≡ out.old) ⊎ (K.finished out.new ≡ true) in
        KeepsReport W.written W.finished W.faults whole ready report.old report.new result }
    ensures judges { KeepsPanel says asked_times judge_faults judges.old.items judges.new.items
        result }
{
    let reply = match reply_to(
        alloc, hashing, words, media, second, third, fourth, out, report, judges,
    ) {
        Ok(reply) => reply,
        Err(fault) => return fault_status(fault),
    };
    match deliver(&reply, report) {
        Ok(()) => reply.answer.status(),
        Err(Failed) => Status::OutputFault,
    }
}

// The reply to a command line. `compare` alone writes to the report; only a command that embeds, `strip` and `extract` write to the new file.
fn reply_to<H: Hashing, A: Source, B: Source, C: Source, D: Source, K: Sink, W: Sink>(
    alloc: Global,
    hashing: &H,
    words: &Vec<String>,
    media: &mut A,
    second: &mut B,
    third: &mut C,
    fourth: &mut D,
    out: &mut K,
    report: &mut W,
    judges: &mut Vec<Box<dyn Judge>>,
) -> Result<Reply, Fault>
    requires { Unit {0} }
    // Where the sources that the call comes to read tell their bytes.
    ensures known { let call = call_of words.now.items (record {
      media = A.known media.old;
      second = B.known second.old;
      third = C.known third.old;
      fourth = D.known fourth.old;
    }) (map says judges.old.items) H.digest_of in
        let states : RunStates = record {
          report = (state_of W.written W.finished report.old, state_of W.written W.finished report.new);
          file = (state_of K.written K.finished out.old, state_of K.written K.finished out.new);
          judges = panel_states says asked_times judge_faults judges.old.items judges.new.items;
        } in
        IsKnown call → RepliesTo call (before states) (after states)
        (judges.new ≡ judges.old) result }

    // Whatever the objects hold: why it ends so, what it doesn't use, and what it leaves of each object.
    ensures cause { let faults : Faults = record {
      sources = record {
        media = (A.faults media.old, A.faults media.new);
        second = (B.faults second.old, B.faults second.new);
        third = (C.faults third.old, C.faults third.new);
        fourth = (D.faults fourth.old, D.faults fourth.new);
      };
      out = (K.faults out.old, K.faults out.new);
      report = (W.faults report.old, W.faults report.new);
      judges = (map judge_faults judges.old.items, map judge_faults judges.new.items);
    } in
        IsCaused (roles_in words.now.items) faults (end_of result) }
    ensures unused { let call = call_of words.now.items (record {
      media = A.known media.old;
      second = B.known second.old;
      third = C.known third.old;
      fourth = D.known fourth.old;
    }) (map says judges.old.items) H.digest_of in
        let untouched : Untouched = record {
          sources = record {
            media = media.new ≡ media.old;
            second = second.new ≡ second.old;
            third = third.new ≡ third.old;
            fourth = fourth.new ≡ fourth.old;
          };
          out = out.new ≡ out.old;
          judges = judges.new ≡ judges.old;
        } in
        LeavesUnused call untouched }
    ensures leaves { let named = names is_out (roles_in words.now.items) in
        let whole = has_whole_report (roles_in words.now.items) in
        LeavesEach (LeavesSources (use_of A.len A.known A.faults media.old media.new)
        (use_of B.len B.known B.faults second.old second.new)
        (use_of C.len C.known C.faults third.old third.new)
        (use_of D.len D.known D.faults fourth.old fourth.new) result)
        (LeavesOut K.written K.finished K.faults named out.old out.new result)
        (LeavesReport W.written W.finished W.faults whole report.old report.new result)
        (LeavesPanel says asked_times judge_faults judges.old.items judges.new.items result) }
{
    let found = match roles(alloc, words) {
        Ok(found) => found,
        Err(RolesError::Usage) => return usage_reply(alloc),
        Err(RolesError::NoMemory) => return Err(Fault::Memory),
    };
    match found.command {
        Command::Digest => reply_to_digest(alloc, hashing, digest_alg(&found), media),
        Command::List => reply_to_list(alloc, media),
        Command::Show => reply_to_show(alloc, media),
        Command::Questions => reply_to_questions(alloc, media, judges),
        Command::Validate => reply_to_validate(alloc, hashing, media, judges),
        Command::Compare => reply_to_compare(alloc, hashing, media, second, report, judges),
        Command::Plan => reply_to_plan(alloc, hashing, media, second, judges),
        Command::Embed => reply_to_embed(alloc, hashing, media, second, third, judges, out),
        Command::Sample => reply_to_sample(alloc, hashing, found.count.unwrap_or(0), judges),
        Command::Strip => reply_to_strip(alloc, media, out),
        Command::Extract => reply_to_extract(alloc, media, out),
        Command::ValidateExternal => {
            reply_to_validate_external(alloc, hashing, media, second, judges)
        }
        Command::PlanFront => reply_to_plan_front(alloc, hashing, media, second),
        Command::EmbedFront => reply_to_embed_front(alloc, hashing, media, second, third, out),
        Command::PlanCollect => {
            reply_to_plan_collect(alloc, hashing, media, second, fourth, judges)
        }
        Command::EmbedCollect => reply_to_embed_collect(
            alloc, hashing, media, second, third, fourth, judges, out,
        ),
    }
}

// The status of a run without a reply.
fn fault_status(fault: Fault) -> Status
    ensures { result ≡ end_of (Err fault) }
{
    match fault {
        Fault::Input => Status::InputFault,
        Fault::Output => Status::OutputFault,
        Fault::Judge => Status::JudgeFault,
        Fault::Memory => Status::NoMemory,
    }
}

// Writes a reply's report and finishes it.
fn deliver<W: Sink>(reply: &Reply, report: &mut W) -> Result<(), Failed>
    ensures delivered { let old = state_of W.written W.finished report.old in
        let new = state_of W.written W.finished report.new in
        OnOk result (Delivers (string_bytes reply.now.text) old new) }
    ensures prefix { let text = string_bytes reply.now.text in
        HasWrittenPrefix (W.written report.old) (W.written report.new) text }
    ensures unfinished { OnErr result (W.finished report.new ≡ W.finished report.old) }
    ensures cause { HasCause (W.faults report.old) (W.faults report.new) result }
{
    write_all(report, reply.text.as_bytes())?;
    report.finish()
}

// The algorithm of `digest`: SHA-256 where the words name none.
fn digest_alg(roles: &Roles) -> Alg
    ensures { result ≡ digest_alg roles.now }
{
    roles.alg.unwrap_or(Alg::Sha256)
}
