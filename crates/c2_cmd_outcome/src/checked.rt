// The reply to the answer of the check.
ghost use Rattle.std.specs.Prelude.{◌≡◌, IfOk, IfErr};
ghost use Rattle.c2_cmd_outcome.specs.Outcome.{answered, failing_answer};
ghost use Rattle.c2_cmd_outcome.specs.Reply.{outcome_of};

use crate::replies::{none_reply, refused_reply};
use crate::reply::{Fault, Reply};
use crate::types::Answer;
use c2_rules::{Answer as Checked, Code, Failing, Summary};
use c2_texts::{failing_line, valid_line};
use std::alloc::Global;

/// The reply to what the check answers. [`Fault::Memory`] is the one fault: memory may run out.
pub fn reply_to_answer(alloc: Global, checked: &Checked) -> Result<Reply, Fault>
    ensures reply { IfOk result (λ reply. outcome_of reply ≡ answered checked.now) }
    ensures memory { IfErr result (λ e. e ≡ Fault.Memory) }
{
    match checked {
        Checked::Valid(summary) => valid_reply(alloc, *summary),
        Checked::Failing(failing) => failing_reply(alloc, failing),
        Checked::Refused(reason, number) => refused_reply(alloc, *reason, *number),
        Checked::NoStore => none_reply(alloc),
    }
}

// The reply where every rule holds.
fn valid_reply(alloc: Global, summary: Summary) -> Result<Reply, Fault>
    ensures reply { IfOk result (λ reply. outcome_of reply ≡ answered (Checked.Valid summary)) }
    ensures memory { IfErr result (λ e. e ≡ Fault.Memory) }
{
    Ok(Reply {
        answer: Answer::Done,
        text: valid_line(alloc, summary)?,
    })
}

// The reply where this rule fails.
fn failing_reply(alloc: Global, failing: &Failing) -> Result<Reply, Fault>
    ensures reply { IfOk result
        (λ reply. outcome_of reply ≡ answered (Checked.Failing failing.now)) }
    ensures memory { IfErr result (λ e. e ≡ Fault.Memory) }
{
    Ok(Reply {
        answer: failing_answer(failing.code),
        text: failing_line(alloc, failing)?,
    })
}

// The answer where a rule with this code fails: what isn't supported counts as refused.
fn failing_answer(code: Code) -> Answer
    ensures { result ≡ failing_answer code }
{
    match code {
        Code::UnsupportedUpdateActive
        | Code::UnsupportedClaimVersion
        | Code::UnsupportedCloudData
        | Code::UnsupportedRedactIngredient
        | Code::UnsupportedHashKind
        | Code::UnsupportedIngredientVersion
        | Code::UnsupportedIngredientOrder
        | Code::UnsupportedMerkle
        | Code::UnsupportedTooManyExclusions
        | Code::UnsupportedExclusionTest
        | Code::UnsupportedExclusionPath => Answer::Refused,
        Code::ClaimMissing
        | Code::ClaimMultiple
        | Code::ClaimCborInvalid
        | Code::ProfileClaimFields
        | Code::ClaimSignatureMissing
        | Code::ProfileSignatureForm
        | Code::ClaimSignatureMismatch
        | Code::SigningCredentialUntrusted
        | Code::SigningCredentialInvalid
        | Code::ProfileVerdictMissing
        | Code::AlgorithmUnsupported
        | Code::ProfileIngredientSignature
        | Code::IngredientManifestMismatch
        | Code::ProfileAssertionUri
        | Code::AssertionNotRedacted
        | Code::AssertionMissing
        | Code::AssertionHashedUriMismatch
        | Code::AssertionUndeclared
        | Code::ProfileRedactionUri
        | Code::AssertionSelfRedacted
        | Code::AssertionActionRedacted
        | Code::ProfileRedactionBinding
        | Code::ClaimHardBindingsMissing
        | Code::AssertionMultipleHardBindings
        | Code::ManifestMultipleParents
        | Code::ManifestUpdateInvalid
        | Code::ManifestUpdateWrongParents
        | Code::AssertionCborInvalid
        | Code::ProfileIngredientForm
        | Code::IngredientManifestMissing
        | Code::ProfileHashForm
        | Code::AssertionDataHashMismatch
        | Code::AssertionBmffHashMismatch
        | Code::ProfileRedactionTarget => Answer::Failing,
    }
}
