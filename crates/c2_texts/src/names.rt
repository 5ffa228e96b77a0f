// The words that reports print for refusals, verdicts and rules that fail, and for what is refused of a build.
ghost use Rattle.std.specs.Prelude.{◌≡◌};
ghost use Rattle.c2_spec.specs.Judges.Panel as panel_form;
ghost use Rattle.c2_spec.specs.Reason as reason_form;
ghost use Rattle.c2_rules.specs.Codes as code_form;
ghost use Rattle.c2_texts.specs.Builds as build_form;

use c2_definition::DefinitionField;
use c2_new_signature::SignaturePart;
use c2_rules::Code;
use c2_spec::{Reason, Verdict};

/// The name of a refusal.
pub fn reason_name(reason: Reason) -> &'static str
    ensures { result.now ≡ reason_form.reason_name reason }
{
    match reason {
        Reason::NotMedia => "NotMedia",
        Reason::FileTooLarge => "FileTooLarge",
        Reason::Truncated => "Truncated",
        Reason::BadMarker => "BadMarker",
        Reason::BadSegment => "BadSegment",
        Reason::BadPacket => "BadPacket",
        Reason::TwoStores => "TwoStores",
        Reason::BadBox => "BadBox",
        Reason::BadProvenanceBox => "BadProvenanceBox",
        Reason::StoreTooLarge => "StoreTooLarge",
        Reason::TooManyBoxes => "TooManyBoxes",
        Reason::BadHead => "BadHead",
        Reason::Overrun => "Overrun",
        Reason::Trailing => "Trailing",
        Reason::NoDescription => "NoDescription",
        Reason::BadDescription => "BadDescription",
        Reason::DuplicateLabel => "DuplicateLabel",
        Reason::TooDeep => "TooDeep",
        Reason::NotStore => "NotStore",
        Reason::ManifestType => "ManifestType",
        Reason::ManifestLabel => "ManifestLabel",
        Reason::NoManifest => "NoManifest",
        Reason::TooMany => "TooMany",
    }
}

/// The word for a verdict.
pub fn verdict_name(verdict: Verdict) -> &'static str
    ensures { result.now ≡ panel_form.verdict_name verdict }
{
    match verdict {
        Verdict::Approved => "approved",
        Verdict::Mismatch => "mismatch",
        Verdict::Untrusted => "untrusted",
        Verdict::Invalid => "invalid",
        Verdict::Silent => "silent",
    }
}

/// The spelling of the code of a rule that fails.
pub fn code_name(code: Code) -> &'static str
    ensures { result.now ≡ code_form.code_name code }
{
    match code {
        Code::UnsupportedUpdateActive => "unsupported.updateActive",
        Code::ClaimMissing => "claim.missing",
        Code::ClaimMultiple => "claim.multiple",
        Code::UnsupportedClaimVersion => "unsupported.claimVersion",
        Code::ClaimCborInvalid => "claim.cbor.invalid",
        Code::ProfileClaimFields => "profile.claim.fields",
        Code::ClaimSignatureMissing => "claimSignature.missing",
        Code::ProfileSignatureForm => "profile.signature.form",
        Code::ClaimSignatureMismatch => "claimSignature.mismatch",
        Code::SigningCredentialUntrusted => "signingCredential.untrusted",
        Code::SigningCredentialInvalid => "signingCredential.invalid",
        Code::ProfileVerdictMissing => "profile.verdict.missing",
        Code::AlgorithmUnsupported => "algorithm.unsupported",
        Code::ProfileIngredientSignature => "profile.ingredient.signature",
        Code::IngredientManifestMismatch => "ingredient.manifest.mismatch",
        Code::ProfileAssertionUri => "profile.assertion.uri",
        Code::UnsupportedCloudData => "unsupported.cloudData",
        Code::AssertionNotRedacted => "assertion.notRedacted",
        Code::AssertionMissing => "assertion.missing",
        Code::AssertionHashedUriMismatch => "assertion.hashedURI.mismatch",
        Code::AssertionUndeclared => "assertion.undeclared",
        Code::ProfileRedactionUri => "profile.redaction.uri",
        Code::AssertionSelfRedacted => "assertion.selfRedacted",
        Code::AssertionActionRedacted => "assertion.action.redacted",
        Code::ProfileRedactionBinding => "profile.redaction.binding",
        Code::UnsupportedRedactIngredient => "unsupported.redactIngredient",
        Code::UnsupportedHashKind => "unsupported.hashKind",
        Code::ClaimHardBindingsMissing => "claim.hardBindings.missing",
        Code::AssertionMultipleHardBindings => "assertion.multipleHardBindings",
        Code::ManifestMultipleParents => "manifest.multipleParents",
        Code::ManifestUpdateInvalid => "manifest.update.invalid",
        Code::ManifestUpdateWrongParents => "manifest.update.wrongParents",
        Code::UnsupportedIngredientVersion => "unsupported.ingredientVersion",
        Code::AssertionCborInvalid => "assertion.cbor.invalid",
        Code::ProfileIngredientForm => "profile.ingredient.form",
        Code::IngredientManifestMissing => "ingredient.manifest.missing",
        Code::UnsupportedIngredientOrder => "unsupported.ingredientOrder",
        Code::UnsupportedMerkle => "unsupported.merkle",
        Code::ProfileHashForm => "profile.hash.form",
        Code::UnsupportedTooManyExclusions => "unsupported.tooManyExclusions",
        Code::UnsupportedExclusionTest => "unsupported.exclusionTest",
        Code::UnsupportedExclusionPath => "unsupported.exclusionPath",
        Code::AssertionDataHashMismatch => "assertion.dataHash.mismatch",
        Code::AssertionBmffHashMismatch => "assertion.bmffHash.mismatch",
        Code::ProfileRedactionTarget => "profile.redaction.target",
    }
}

/// The name of what is refused of a definition file.
pub fn field_name(field: DefinitionField) -> &'static str
    ensures { result.now ≡ build_form.field_name field }
{
    match field {
        DefinitionField::Size => "size",
        DefinitionField::Json => "json",
        DefinitionField::Other => "other",
        DefinitionField::Label => "label",
        DefinitionField::InstanceId => "instance_id",
        DefinitionField::Generator => "generator",
        DefinitionField::Title => "title",
        DefinitionField::Protected => "protected",
        DefinitionField::Reserve => "reserve",
        DefinitionField::Assertions => "assertions",
        DefinitionField::Redact => "redact",
        DefinitionField::Alg => "alg",
    }
}

/// The name of what is refused of a signed message.
pub fn part_name(part: SignaturePart) -> &'static str
    ensures { result.now ≡ build_form.part_name part }
{
    match part {
        SignaturePart::Size => "size",
        SignaturePart::Form => "form",
        SignaturePart::Plain => "plain",
        SignaturePart::Protected => "protected",
        SignaturePart::Entries => "entries",
        SignaturePart::Pad => "pad",
    }
}
