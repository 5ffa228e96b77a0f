// The rules on the claim box, the claim and the signature, which come before the verdict.
ghost use Rattle.std.specs.Prelude.{◌≡◌, IfOk, None, is_some, option_and_then};
ghost use Rattle.c2_spec.specs.C2pa.Claim as form;
ghost use Rattle.c2_spec.specs.C2pa.Uri.{uri_of, target_view};
ghost use Rattle.c2_rules.specs.Questions as questions;
ghost use Rattle.c2_rules.specs.Readings as readings;
ghost use Rattle.c2_rules.specs.Rules as rules;
ghost use Rattle.c2_rules.specs.Tests.{first_failing};

use c2_base::NoMemory;
use c2_check_facts::{at_claim, at_manifest, at_signature, claim_label};
use c2_claim::claim_version;
use c2_read_manifests::{ReadManifest, is_own};
use c2_rules::{Code, Failing, Parsed};
use c2_uri::{Target, parse};
use std::alloc::Global;

/// Whether the claim box has the label of a version that is read.
fn is_known_version(own: &ReadManifest<'_>) -> bool
    ensures { result ≡ is_some
        (option_and_then form.claim_version (rules.claim_label own.now.manifest.claims)) }
{
    match claim_label(own) {
        Some(label) => claim_version(label).is_some(),
        None => false,
    }
}

fn is_signature(target: &Target<'_>) -> bool
    ensures { result ≡ questions.is_signature (target_view target.now) }
{
    match target {
        Target::Signature => true,
        Target::Whole | Target::Assertion(_) | Target::Other(_) => false,
    }
}

fn is_signature_uri(own: &ReadManifest<'_>, text: &str) -> bool
    ensures { result ≡ questions.is_signature_uri own.now.manifest (uri_of text.now) }
{
    match parse(text) {
        Some(uri) => is_own(own, uri.manifest) && is_signature(&uri.target),
        None => false,
    }
}

/// Whether there is a signature box, and the claim names it.
pub fn names_signature(own: &ReadManifest<'_>) -> bool
    ensures { result ≡ readings.names_signature own.now.manifest (readings.claim_in own.now) }
{
    match &own.claim {
        Parsed::Value(claim) => own.signature.is_some()
            && is_signature_uri(own, claim.signature.as_str()),
        Parsed::NoItem | Parsed::NoForm => false,
    }
}

/// The first of the rules on the claim and its signature that fails.
pub fn check_claim(alloc: Global, own: &ReadManifest<'_>) -> Result<Option<Failing>, NoMemory>
    ensures { IfOk result (λ found. found ≡ first_failing (rules.claim_tests own.now)) }
{
    if own.claims.is_empty() {
        return at_manifest(alloc, own, Code::ClaimMissing);
    }
    if own.claims.len() > 1 {
        return at_manifest(alloc, own, Code::ClaimMultiple);
    }
    if !is_known_version(own) {
        return at_manifest(alloc, own, Code::UnsupportedClaimVersion);
    }
    match &own.claim {
        Parsed::NoItem => return at_claim(alloc, own, Code::ClaimCborInvalid),
        Parsed::NoForm => return at_claim(alloc, own, Code::ProfileClaimFields),
        Parsed::Value(_) => {}
    }
    if !names_signature(own) {
        return at_signature(alloc, own, Code::ClaimSignatureMissing);
    }
    if own.message.is_none() {
        return at_signature(alloc, own, Code::ProfileSignatureForm);
    }
    Ok(None)
}
