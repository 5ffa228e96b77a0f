// Which redaction is refused first of a new manifest whose older manifests are those of two stores joined. The joined manifests may be more
// than a store has, so each store is asked by itself.
ghost use Rattle.std.specs.Prelude.{◌≡◌, ◌||◌, [], ℕ, List, IfErr, IfOk, Some, length};
ghost use Rattle.c2_rules.specs.Chains.{LabelsDiffer};
ghost use Rattle.c2_rules.specs.Rules.{redaction_tests};
ghost use Rattle.c2_new_file_spec.specs.Refusing as form;
ghost use Rattle.c2_new_file_spec.specs.Refusing.{new_claim_uri};
ghost use Rattle.c2_collect_spec.specs.Collected.{collected_readings};
ghost use Rattle.c2_parent.specs.Both.{IsCodeOfBoth, IsFirstRefusedOfBoth, IsRedactable};
ghost use Rattle.c2_parent.specs.Both.{later_in_both};
ghost use Rattle.c2_parent.specs.Named.{AreNamed};
ghost use Rattle.c2_parent.specs.Refused.{any_so, code_of, still_there};

use crate::named::{Named, add_named, no_names};
use crate::refused::{
    Known, has_manifest, is_own, is_target, is_unsigned, kind_code, known_of, refused,
    refused_redaction,
};
use c2_base::{NoMemory, Text};
use c2_chain::{Chain, label_kind, readings};
use c2_new_file_spec::RefusedRedaction;
use c2_read_manifests::{is_reached, place_of};
use c2_rules::Code;
use c2_uri::{Target, parse};
use std::alloc::Global;

/// An assertion: the label of its manifest, and its own.
#[derive(Clone, Copy)]
pub struct Assertion<'u> {
    pub manifest: &'u str,
    pub label: &'u str,
}

/// Whether a manifest that is reached has this label. Takes no memory.
///
/// The labels of a store's manifests differ, which `c2_read_manifests::labels_of_a_store_differ` says.
pub fn has_reached_manifest(chain: &Chain<'_>, label: &str) -> bool
    requires { LabelsDiffer chain.now.readings }
    ensures { result
        ≡ form.has_manifest (collected_readings [] chain.now.readings) label.now }
{
    let all = readings(chain);
    match place_of(all, label) {
        Some(place) => is_reached(all, place),
        None => false,
    }
}

/// Whether one of the joined manifests of two stores has this label: one of the first store, or one that is reached in the other. Takes no
/// memory.
///
/// The labels of a store's manifests differ, which `c2_read_manifests::labels_of_a_store_differ` says.
pub fn has_joined_manifest(old: &Chain<'_>, other: &Chain<'_>, label: &str) -> bool
    requires { LabelsDiffer other.now.readings }
    ensures { result ≡ form.has_manifest
        (collected_readings old.now.readings other.now.readings) label.now }
{
    if has_manifest(old, label) {
        return true;
    }
    has_reached_manifest(other, label)
}

/// The assertion that a text names, where no rule on redactions refuses to redact it in a new manifest with this label; or why one does.
fn redactable<'u>(own: &str, text: &'u str) -> Result<Assertion<'u>, Code>
    ensures named { IfOk result (IsRedactable own.now text.now) }
    ensures refused { IfErr result (λ code.
        Some code ≡ code_of (redaction_tests own.now (new_claim_uri own.now) text.now)) }
{
    let Some(uri) = parse(text) else {
        return Err(Code::ProfileRedactionUri);
    };
    let Target::Assertion(label) = uri.target else {
        return Err(Code::ProfileRedactionUri);
    };
    let Some(manifest) = uri.manifest else {
        return Err(Code::AssertionSelfRedacted);
    };
    match kind_code(is_own(own, Some(manifest)), label_kind(label)) {
        Some(code) => Err(code),
        None => Ok(Assertion { manifest, label }),
    }
}

/// Whether an assertion of one of two stores is there still, in a reached manifest, once those before were redacted.
fn is_target_of_both<'u>(
    old: &Known<'_, '_>,
    other: &Known<'_, '_>,
    before: &Named<'u>,
    manifest: &'u str,
    label: &'u str,
) -> bool
    ensures { (redacts : List (List ℕ)) → AreNamed redacts before.now
        → result ≡ (still_there old.now redacts manifest.now label.now
        || still_there other.now redacts manifest.now label.now) }
{
    is_target(old, before, manifest, label) || is_target(other, before, manifest, label)
}

/// Whether an ingredient of a reached manifest of one of two stores names the manifest with this label without its signature.
fn is_unsigned_in_both(old: &Known<'_, '_>, other: &Known<'_, '_>, manifest: &str) -> bool
    ensures { result ≡ (any_so old.now manifest.now (length old.now)
        || any_so other.now manifest.now (length other.now)) }
{
    is_unsigned(old, manifest) || is_unsigned(other, manifest)
}

/// Why an assertion of which the rules on redactions hold can't be redacted: it is in neither store, or an ingredient of either names its
/// manifest without the signature.
fn store_code<'u>(
    old: &Known<'_, '_>,
    other: &Known<'_, '_>,
    before: &Named<'u>,
    manifest: &'u str,
    label: &'u str,
) -> Option<Code>
    ensures { (redacts : List (List ℕ)) → AreNamed redacts before.now
        → result ≡ later_in_both old.now other.now redacts manifest.now label.now }
{
    if !is_target_of_both(old, other, before, manifest, label) {
        return Some(Code::ProfileRedactionTarget);
    }
    if is_unsigned_in_both(old, other, manifest) {
        return Some(Code::ProfileIngredientSignature);
    }
    None
}

/// Why what a text names can't be redacted after these.
fn entry_code<'u>(
    own: &str,
    old: &Known<'_, '_>,
    other: &Known<'_, '_>,
    before: &Named<'u>,
    text: &'u str,
) -> Option<Code>
    ensures { (redacts : List (List ℕ)) → AreNamed redacts before.now
        → IsCodeOfBoth own.now old.now other.now redacts text.now result }
{
    match redactable(own, text) {
        Ok(named) => store_code(old, other, before, named.manifest, named.label),
        Err(code) => Some(code),
    }
}

/// The first of these redactions that is refused.
fn first_refused(
    alloc: Global,
    own: &str,
    old: &Known<'_, '_>,
    other: &Known<'_, '_>,
    redact: &[Text],
) -> Result<Option<RefusedRedaction>, NoMemory>
    ensures { IfOk result (IsFirstRefusedOfBoth own.now old.now other.now redact.now) }
{
    let mut before = no_names(alloc);
    for (k, text) in redact.iter().enumerate() {
        if let Some(code) = entry_code(own, old, other, &before, text.as_str()) {
            return refused(alloc, text.as_str(), code);
        }
        add_named(&mut before, text.as_str())?;
    }
    Ok(None)
}

/// The first of these redactions that is refused, beside what is known of the first store.
fn refused_beside(
    alloc: Global,
    old: &Known<'_, '_>,
    other: &Chain<'_>,
    own: &str,
    redact: &[Text],
) -> Result<Option<RefusedRedaction>, NoMemory>
    requires { LabelsDiffer other.now.readings }
    ensures { IfOk result
        (IsFirstRefusedOfBoth own.now old.now other.now.readings redact.now) }
{
    let known = known_of(alloc, other)?;
    first_refused(alloc, own, old, &known, redact)
}

/// The first of these redactions that is refused in a new manifest with this label, over the joined manifests of two stores, which these
/// chains are of; none where each may be made. An earlier redaction counts as made.
///
/// The labels of a store's manifests differ, which `c2_read_manifests::labels_of_a_store_differ` says.
pub fn refused_in_both(
    alloc: Global,
    old: &Chain<'_>,
    other: &Chain<'_>,
    own: &str,
    redact: &[Text],
) -> Result<Option<RefusedRedaction>, NoMemory>
    requires old { LabelsDiffer old.now.readings }
    requires other { LabelsDiffer other.now.readings }
    ensures { IfOk result
        (IsFirstRefusedOfBoth own.now old.now.readings other.now.readings redact.now) }
{
    if redact.is_empty() {
        return Ok(None);
    }
    let known = known_of(alloc, old)?;
    refused_beside(alloc, &known, other, own, redact)
}

/// The first of these redactions that is refused in a new manifest with this label, over the manifests that are carried of the store of this
/// chain where there is no other; none where each may be made. An earlier redaction counts as made.
///
/// The labels of a store's manifests differ, which `c2_read_manifests::labels_of_a_store_differ` says.
pub fn refused_in_carried(
    alloc: Global,
    other: &Chain<'_>,
    own: &str,
    redact: &[Text],
) -> Result<Option<RefusedRedaction>, NoMemory>
    requires { LabelsDiffer other.now.readings }
    ensures { IfOk result
        (IsFirstRefusedOfBoth own.now [] other.now.readings redact.now) }
{
    refused_redaction(alloc, other, own, redact)
}
