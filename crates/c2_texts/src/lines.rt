// The plain lines of reports.
ghost use Rattle.std.specs.Prelude.{◌≡◌, IfOk, string_bytes};
ghost use Rattle.c2_texts.specs.Texts as form;

use crate::control::printable;
use crate::names::{code_name, reason_name, verdict_name};
use c2_compare_spec::Side;
use c2_rules::{Answer, Failing, Summary};
use c2_spec::{Reason, Verdict};
use c2_usage::usage;
use std::alloc::{AllocError, Global};

/// The line for words that don't fit.
pub fn usage_line(alloc: Global) -> Result<String, AllocError>
    ensures { IfOk result (λ text. string_bytes text ≡ form.usage_line) }
{
    let text = usage();
    let line = format!(in alloc; "{text}\n")?;
    Ok(line)
}

/// The line for a file without a store.
pub fn none_line(alloc: Global) -> Result<String, AllocError>
    ensures { IfOk result (λ text. string_bytes text ≡ form.none_line) }
{
    String::from_str(alloc, "none\n")
}

/// The line of a refusal, with its number.
pub fn refused_line(alloc: Global, reason: Reason, number: u64) -> Result<String, AllocError>
    ensures { IfOk result (λ text. string_bytes text ≡ form.refused_line reason number) }
{
    let name = reason_name(reason);
    let text = format!(in alloc; "refused {name} {number}\n")?;
    Ok(text)
}

/// The line of an embedded range and the digest of the bytes outside it.
pub fn digest_line(
    alloc: Global,
    start: u64,
    length: u64,
    digest: &[u8],
) -> Result<String, AllocError>
    ensures { IfOk result (λ text. string_bytes text ≡ form.digest_line start length digest.now) }
{
    let hex = hex::encode(alloc, digest)?;
    let text = format!(in alloc; "{start} {length} {hex}\n")?;
    Ok(text)
}

/// The line of a rule that fails: its code, and the URI of the box, with `?` for control bytes.
pub fn failing_line(alloc: Global, failing: &Failing) -> Result<String, AllocError>
    ensures { IfOk result (λ text. string_bytes text ≡ form.failing_line failing.now) }
{
    let code = code_name(failing.code);
    let uri = printable(alloc, failing.uri.as_str())?;
    let text = format!(in alloc; "failing {code} {uri}\n")?;
    Ok(text)
}

/// The line of a file whose rules all hold.
pub fn valid_line(alloc: Global, summary: Summary) -> Result<String, AllocError>
    ensures { IfOk result (λ text. string_bytes text ≡ form.valid_line summary) }
{
    let Summary {
        manifests,
        assertions,
        covered,
        outside,
    } = summary;
    let text = format!(in alloc;
        "valid manifests={manifests} assertions={assertions} covered={covered} outside={outside}\n"
    )?;
    Ok(text)
}

/// The line of what the check of a file answers.
pub fn told_line(alloc: Global, told: &Answer) -> Result<String, AllocError>
    ensures { IfOk result (λ text. string_bytes text ≡ form.told_line told.now) }
{
    match told {
        Answer::Valid(summary) => valid_line(alloc, *summary),
        Answer::Failing(failing) => failing_line(alloc, failing),
        Answer::Refused(reason, number) => refused_line(alloc, *reason, *number),
        Answer::NoStore => none_line(alloc),
    }
}

/// The line of two files that one active claim binds.
pub fn same_line(alloc: Global, summary: Summary) -> Result<String, AllocError>
    ensures { IfOk result (λ text. string_bytes text ≡ form.same_line summary) }
{
    let Summary {
        manifests,
        assertions,
        covered,
        outside: _,
    } = summary;
    let text = format!(in alloc;
        "same manifests={manifests} assertions={assertions} covered={covered}\n"
    )?;
    Ok(text)
}

/// The line of two files whose active claims differ.
pub fn different_line(alloc: Global) -> Result<String, AllocError>
    ensures { IfOk result (λ text. string_bytes text ≡ form.different_line) }
{
    String::from_str(alloc, "different claims\n")
}

/// The word of one of two files.
fn side_name(side: Side) -> &'static str
    ensures { result.now ≡ form.side_name side }
{
    match side {
        Side::First => "first",
        Side::Second => "second",
    }
}

/// The line of one of two files that isn't accepted, with what its check answers.
pub fn not_accepted_line(alloc: Global, side: Side, told: &Answer) -> Result<String, AllocError>
    ensures { IfOk result (λ text. string_bytes text ≡ form.not_accepted_line side told.now) }
{
    let name = side_name(side);
    let line = told_line(alloc, told)?;
    let text = format!(in alloc; "not accepted {name} {line}")?;
    Ok(text)
}

/// The line of a manifest's question: the question's id in hex, the manifest's label, with `?` for control bytes, and what
/// the panel says.
pub fn question_line(
    alloc: Global,
    id: &[u8],
    label: &str,
    verdict: Verdict,
) -> Result<String, AllocError>
    ensures { let line = form.question_line id.now label.now verdict in
        IfOk result (λ text. string_bytes text ≡ line) }
{
    let hex = hex::encode(alloc, id)?;
    let label = printable(alloc, label)?;
    let said = verdict_name(verdict);
    let text = format!(in alloc; "{hex} {label} {said}\n")?;
    Ok(text)
}

/// The line of a manifest without a question: its label, with `?` for control bytes.
pub fn no_question_line(alloc: Global, label: &str) -> Result<String, AllocError>
    ensures { IfOk result (λ text. string_bytes text ≡ form.no_question_line label.now) }
{
    let label = printable(alloc, label)?;
    let text = format!(in alloc; "- {label} none\n")?;
    Ok(text)
}
