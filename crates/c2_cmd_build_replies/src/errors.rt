// The errors of a build: which are faults of the run, and the lines of the others.
ghost use Rattle.std.specs.Prelude.{◌≡◌, IfOk, IfErr, string_bytes};
ghost use Rattle.c2_cmd_outcome.specs.Reply.{IsFaultOf, IsReplyTo};
ghost use Rattle.c2_cmd_written_spec.specs.Builds.{build_fault, error_says, refusal_line};

use c2_build_refusals::BuildError;
use c2_cmd_outcome::types::Answer;
use c2_cmd_outcome::{Fault, Reply};
use c2_texts::{
    bad_definition_line, bad_signature_line, bad_table_line, bad_tree_line, has_store_line,
    label_clash_line, label_taken_line, media_refused_line, no_instance_line, not_bmff_line,
    offset_table_line, open_box_line, other_refused_line, overflow_line, parent_fails_line,
    redaction_refused_line, reserve_too_small_line, store_too_large_line, too_many_manifests_line,
};
use std::alloc::{AllocError, Global};

/// The reply to an error of a build: what is refused is reported, and everything else is a fault of the run.
pub fn refusal_reply(alloc: Global, error: &BuildError) -> Result<Reply, Fault>
    ensures reply { IfOk result (IsReplyTo (error_says error.now)) }
    ensures fault { IfErr result (IsFaultOf (error_says error.now)) }
{
    match build_fault(error) {
        Some(fault) => Err(fault),
        None => Ok(Reply {
            answer: Answer::BuildRefused,
            text: refusal_line(alloc, error)?,
        }),
    }
}

// The fault that an error of a build stands for: none for what is refused.
fn build_fault(error: &BuildError) -> Option<Fault>
    ensures { result ≡ build_fault error.now }
{
    match error {
        BuildError::ReadFault => Some(Fault::Input),
        BuildError::JudgeFault => Some(Fault::Judge),
        BuildError::WriteFault => Some(Fault::Output),
        BuildError::NoMemory => Some(Fault::Memory),
        BuildError::MediaRefused(_, _)
        | BuildError::BadDefinition(_)
        | BuildError::BadSignature(_)
        | BuildError::NotBmff
        | BuildError::HasStore
        | BuildError::ParentFails(_, _)
        | BuildError::OtherRefused(_)
        | BuildError::LabelClash(_)
        | BuildError::LabelTaken(_)
        | BuildError::RedactionRefused(_, _)
        | BuildError::OpenBox(_)
        | BuildError::NoInstance
        | BuildError::OffsetTable(_)
        | BuildError::BadTree(_)
        | BuildError::BadTable(_)
        | BuildError::TooManyManifests(_)
        | BuildError::StoreTooLarge(_)
        | BuildError::Overflow(_)
        | BuildError::ReserveTooSmall(_) => None,
    }
}

/// The line of a build that is refused; empty for a fault of the run, of which nothing is reported.
pub fn refusal_line(alloc: Global, error: &BuildError) -> Result<String, AllocError>
    ensures { IfOk result (λ text. string_bytes text ≡ refusal_line error.now) }
{
    match error {
        BuildError::MediaRefused(reason, number) => media_refused_line(alloc, *reason, *number),
        BuildError::BadDefinition(field) => bad_definition_line(alloc, *field),
        BuildError::BadSignature(part) => bad_signature_line(alloc, *part),
        BuildError::NotBmff => not_bmff_line(alloc),
        BuildError::HasStore => has_store_line(alloc),
        BuildError::ParentFails(code, uri) => parent_fails_line(alloc, *code, uri.as_str()),
        BuildError::OtherRefused(told) => other_refused_line(alloc, told),
        BuildError::LabelClash(label) => label_clash_line(alloc, label.as_str()),
        BuildError::LabelTaken(label) => label_taken_line(alloc, label.as_str()),
        BuildError::RedactionRefused(text, code) => {
            redaction_refused_line(alloc, text.as_str(), *code)
        }
        BuildError::OpenBox(place) => open_box_line(alloc, *place),
        BuildError::NoInstance => no_instance_line(alloc),
        BuildError::OffsetTable(place) => offset_table_line(alloc, *place),
        BuildError::BadTree(place) => bad_tree_line(alloc, *place),
        BuildError::BadTable(place) => bad_table_line(alloc, *place),
        BuildError::TooManyManifests(count) => too_many_manifests_line(alloc, *count),
        BuildError::StoreTooLarge(length) => store_too_large_line(alloc, *length),
        BuildError::Overflow(place) => overflow_line(alloc, *place),
        BuildError::ReserveTooSmall(needed) => reserve_too_small_line(alloc, *needed),
        BuildError::ReadFault
        | BuildError::JudgeFault
        | BuildError::WriteFault
        | BuildError::NoMemory => Ok(String::new(alloc)),
    }
}
