// The rules on redactions.
ghost use Rattle.std.specs.Prelude.{◌≡◌, IfOk, option_map, unwrap_or};
ghost use Rattle.c2_spec.specs.C2pa.Uri.{assertion, target_view};
ghost use Rattle.c2_rules.specs.Chains.{label_in};
ghost use Rattle.c2_rules.specs.Readings.{redactions_in};
ghost use Rattle.c2_rules.specs.Rules as rules;
ghost use Rattle.c2_rules.specs.Tests.{each, first_failing};

use c2_assertion::Kind;
use c2_base::{NoMemory, Text};
use c2_check_facts::{at_assertion, at_claim, is_hash, label_kind};
use c2_read_manifests::{ReadManifest, label};
use c2_rules::{Code, Failing, Parsed};
use c2_uri::{Target, parse};
use std::alloc::Global;

fn is_actions(what: Kind) -> bool
    ensures { result ≡ rules.is_actions what }
{
    match what {
        Kind::Actions => true,
        _ => false,
    }
}

fn is_any_ingredient(what: Kind) -> bool
    ensures { result ≡ rules.is_any_ingredient what }
{
    match what {
        Kind::Ingredient => true,
        Kind::IngredientOther => true,
        _ => false,
    }
}

/// Whether this manifest, or none, is the one with this label.
fn names_own(own: &str, manifest: Option<&str>) -> bool
    ensures { result ≡ rules.names_own own.now (option_map (λ x. x.now) manifest.entry) }
{
    match manifest {
        Some(given) => own == given,
        None => true,
    }
}

fn target_label<'u>(own: &'u str, manifest: Option<&'u str>) -> &'u str
    ensures { result.now ≡ unwrap_or (option_map (λ x. x.now) manifest.entry) own.now }
{
    match manifest {
        Some(given) => given,
        None => own,
    }
}

/// What fails of the redaction of the assertion with this label.
fn check_target(
    alloc: Global,
    own: &ReadManifest<'_>,
    manifest: Option<&str>,
    name: &str,
) -> Result<Option<Failing>, NoMemory>
    ensures { let tests =
        rules.target_tests (label_in own.now) (rules.claim_uri own.now)
        (option_map (λ x. x.now) manifest.entry) (assertion name.now) in
        IfOk result (λ found. found ≡ first_failing tests) }
{
    let target = target_label(label(own), manifest);
    if names_own(label(own), manifest) {
        return at_assertion(alloc, target, name, Code::AssertionSelfRedacted);
    }
    let what = label_kind(name);
    if is_actions(what) {
        return at_assertion(alloc, target, name, Code::AssertionActionRedacted);
    }
    if is_hash(what) {
        return at_assertion(alloc, target, name, Code::ProfileRedactionBinding);
    }
    if is_any_ingredient(what) {
        return at_assertion(alloc, target, name, Code::UnsupportedRedactIngredient);
    }
    Ok(None)
}

/// What fails of the redaction of what this target is.
fn check_named(
    alloc: Global,
    own: &ReadManifest<'_>,
    manifest: Option<&str>,
    target: &Target<'_>,
) -> Result<Option<Failing>, NoMemory>
    ensures { let tests =
        rules.target_tests (label_in own.now) (rules.claim_uri own.now)
        (option_map (λ x. x.now) manifest.entry) (target_view target.now) in
        IfOk result (λ found. found ≡ first_failing tests) }
{
    match target {
        Target::Assertion(name) => check_target(alloc, own, manifest, *name),
        Target::Whole | Target::Signature | Target::Other(_) => {
            at_claim(alloc, own, Code::ProfileRedactionUri)
        }
    }
}

/// What fails of a redaction.
fn check_redaction(
    alloc: Global,
    own: &ReadManifest<'_>,
    text: &Text,
) -> Result<Option<Failing>, NoMemory>
    ensures { let tests =
        rules.redaction_tests (label_in own.now) (rules.claim_uri own.now) text.now in
        IfOk result (λ found. found ≡ first_failing tests) }
{
    match parse(text.as_str()) {
        Some(uri) => check_named(alloc, own, uri.manifest, &uri.target),
        None => at_claim(alloc, own, Code::ProfileRedactionUri),
    }
}

/// What fails first of these redactions.
#[tactic(auto, using(c2_rules::proofs::TestLemmas::each_passed))]
pub fn check_redactions(
    alloc: Global,
    own: &ReadManifest<'_>,
    texts: &[Text],
) -> Result<Option<Failing>, NoMemory>
    ensures { let tests =
        each (λ k text. rules.redaction_tests (label_in own.now)
        (rules.claim_uri own.now) text) 0 texts.now in
        IfOk result (λ found. found ≡ first_failing tests) }
{
    for (k, text) in texts.iter().enumerate() {
        let found = check_redaction(alloc, own, text)?;
        if let Some(failing) = found {
            return Ok(Some(failing));
        }
    }
    Ok(None)
}

/// What fails first of a manifest's redactions.
pub fn check_own_redactions(
    alloc: Global,
    own: &ReadManifest<'_>,
) -> Result<Option<Failing>, NoMemory>
    ensures { let tests =
        each (λ k text. rules.redaction_tests (label_in own.now)
        (rules.claim_uri own.now) text) 0 (redactions_in own.now) in
        IfOk result (λ found. found ≡ first_failing tests) }
{
    match &own.claim {
        Parsed::Value(claim) => check_redactions(alloc, own, claim.redacted.as_slice()),
        Parsed::NoItem | Parsed::NoForm => Ok(None),
    }
}
