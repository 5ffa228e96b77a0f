// Which redaction of a new manifest is refused first.
ghost use Rattle.std.specs.Prelude.{◌≡◌, ℕ, List, [], IfOk, Some, length, option_map};
ghost use Rattle.c2_spec.specs.C2pa.Uri.{target_view};
ghost use Rattle.c2_rules.specs.Chains.{LabelsDiffer};
ghost use Rattle.c2_rules.specs.Rules.{names_own, redacted_tests};
ghost use Rattle.c2_new_file_spec.specs.Refusing as form;
ghost use Rattle.c2_new_file_spec.specs.Refusing.{entry_tests, redaction_refusal};
ghost use Rattle.c2_parent.specs.Named.{AreNamed};
ghost use Rattle.c2_parent.specs.Refused.{any_so, assertion_of, code_of, later_code, still_there};
ghost use Rattle.c2_parent.specs.Refused.{uri_entry_tests};

use crate::named::{Named, add_named, no_names};
use crate::targets::{is_still_there, targets_of};
use crate::unsigned::unsigned_labels;
use c2_assertion::Kind;
use c2_base::{NoMemory, Text};
use c2_chain::{Chain, Labelled, label_kind, readings};
use c2_label_index::{Labels, has_label};
use c2_new_file_spec::RefusedRedaction;
use c2_read_manifests::{ReadManifests, manifests, place_of};
use c2_rules::Code;
use c2_uri::{Target, parse};
use std::alloc::Global;
use std::marker::Model;

/// Whether a manifest of the store has this label. Takes no memory.
pub fn has_manifest(chain: &Chain<'_>, label: &str) -> bool
    ensures { result ≡ form.has_manifest chain.now.readings label.now }
{
    place_of(readings(chain), label).is_some()
}

/// What is known of an older store when redactions are tested: its manifests, each with its boxes by their labels, and the labels that
/// are named without a signature.
#[derive(Drop)]
pub struct Known<'c, 't> {
    all: &'c ReadManifests<'t>,
    targets: Vec<Labelled<'c, 't>>,
    unsigned: Labels,
}

impl<'c, 't> Model for Known<'c, 't> {
    ghost use Rattle.std.specs.Prelude.{List};
    ghost use Rattle.std.specs.Coded.{codes};
    ghost use Rattle.c2_rules.proofs.ItemCode.{item_code};
    ghost use Rattle.c2_rules.specs.Readings.{Reading};
    ghost use Rattle.c2_parent.specs.Refused.{IsKnown};

    ghost Value = { List Reading };

    ghost coded = { Prim.hlevel (codes, item_code) };

    ghost view = { λ k. k.all.now };

    ghost invariant = { λ k. IsKnown k.all.now k.targets.items k.unsigned };
}

/// What is known of the store of this chain.
pub fn known_of<'c, 't>(alloc: Global, chain: &'c Chain<'t>) -> Result<Known<'c, 't>, NoMemory>
    requires { LabelsDiffer chain.now.readings }
    ensures { IfOk result (λ known. known ≡ chain.now.readings) }
{
    let all = readings(chain);
    let targets = targets_of(alloc, manifests(all))?;
    let unsigned = unsigned_labels(alloc, all)?;
    Ok(Known {
        all,
        targets,
        unsigned,
    })
}

/// Whether an assertion of a store is there still, in a reached manifest, once those before were redacted.
pub fn is_target<'u>(
    known: &Known<'_, '_>,
    before: &Named<'u>,
    manifest: &'u str,
    label: &'u str,
) -> bool
    ensures { (redacts : List (List ℕ)) → AreNamed redacts before.now
        → result ≡ still_there known.now redacts manifest.now label.now }
{
    is_still_there(known.all, known.targets.as_slice(), before, manifest, label)
}

/// Whether an ingredient of a reached manifest of a store names the manifest with this label without its signature.
pub fn is_unsigned(known: &Known<'_, '_>, manifest: &str) -> bool
    ensures { result ≡ any_so known.now manifest.now (length known.now) }
{
    has_label(&known.unsigned, manifest)
}

/// Why an assertion of this kind can't be redacted, in the own manifest or in another.
pub fn kind_code(is_own: bool, what: Kind) -> Option<Code>
    ensures { (uri : List ℕ) → result ≡ code_of (redacted_tests is_own what uri) }
{
    if is_own {
        return Some(Code::AssertionSelfRedacted);
    }
    match what {
        Kind::Actions => Some(Code::AssertionActionRedacted),
        Kind::DataHash | Kind::BmffHash | Kind::OtherHash => Some(Code::ProfileRedactionBinding),
        Kind::Ingredient | Kind::IngredientOther => Some(Code::UnsupportedRedactIngredient),
        Kind::Cloud | Kind::Ordinary => None,
    }
}

/// Why an assertion of which the rules on redactions hold can't be redacted: it isn't there, or an ingredient names its
/// manifest without the signature.
fn store_code<'u>(
    known: &Known<'_, '_>,
    before: &Named<'u>,
    manifest: &'u str,
    label: &'u str,
) -> Option<Code>
    ensures { (redacts : List (List ℕ)) → AreNamed redacts before.now
        → result ≡ later_code known.now redacts manifest.now label.now }
{
    if !is_target(known, before, manifest, label) {
        return Some(Code::ProfileRedactionTarget);
    }
    if is_unsigned(known, manifest) {
        return Some(Code::ProfileIngredientSignature);
    }
    None
}

/// Why this assertion can't be redacted.
fn assertion_code<'u>(
    own: &str,
    known: &Known<'_, '_>,
    before: &Named<'u>,
    manifest: &'u str,
    label: &'u str,
) -> Option<Code>
    ensures { (redacts : List (List ℕ)) (text : List ℕ) → AreNamed redacts before.now
        → result ≡ code_of (uri_entry_tests own.now known.now redacts text
        (Some (assertion_of manifest.now label.now))) }
{
    match kind_code(is_own(own, Some(manifest)), label_kind(label)) {
        Some(code) => Some(code),
        None => store_code(known, before, manifest, label),
    }
}

/// Why what a URI names can't be redacted.
fn target_code<'u>(
    own: &str,
    known: &Known<'_, '_>,
    before: &Named<'u>,
    manifest: Option<&'u str>,
    target: &Target<'u>,
) -> Option<Code>
    ensures { (redacts : List (List ℕ)) (text : List ℕ) → AreNamed redacts before.now
        → result ≡ code_of (uri_entry_tests own.now known.now redacts text (Some (record {
          manifest = option_map (λ x. x.now) manifest.entry;
          target = target_view target.now;
        }))) }
{
    match target {
        Target::Assertion(label) => match manifest {
            Some(given) => assertion_code(own, known, before, given, *label),
            None => Some(Code::AssertionSelfRedacted),
        },
        Target::Whole | Target::Signature | Target::Other(_) => Some(Code::ProfileRedactionUri),
    }
}

/// Why what a text names can't be redacted after these.
fn entry_code<'u>(
    own: &str,
    known: &Known<'_, '_>,
    before: &Named<'u>,
    text: &'u str,
) -> Option<Code>
    ensures { (redacts : List (List ℕ)) → AreNamed redacts before.now
        → result ≡ code_of (entry_tests own.now known.now redacts text.now) }
{
    match parse(text) {
        Some(uri) => target_code(own, known, before, uri.manifest, &uri.target),
        None => Some(Code::ProfileRedactionUri),
    }
}

/// This redaction, which is refused.
pub fn refused(alloc: Global, text: &str, code: Code) -> Result<Option<RefusedRedaction>, NoMemory>
    ensures { IfOk result (λ found. found ≡ Some (record { text = text.now; code = code })) }
{
    let text = Text::copied(alloc, text)?;
    Ok(Some(RefusedRedaction { text, code }))
}

/// The first of these redactions that is refused.
fn first_refused(
    alloc: Global,
    own: &str,
    known: &Known<'_, '_>,
    redact: &[Text],
) -> Result<Option<RefusedRedaction>, NoMemory>
    ensures { IfOk result
        (λ found. found ≡ redaction_refusal own.now known.now redact.now) }
{
    let mut before = no_names(alloc);
    for (k, text) in redact.iter().enumerate() {
        if let Some(code) = entry_code(own, known, &before, text.as_str()) {
            return refused(alloc, text.as_str(), code);
        }
        add_named(&mut before, text.as_str())?;
    }
    Ok(None)
}

/// The first of these redactions that is refused in a new manifest with this label, over the store of this chain; none where each
/// may be made. An earlier redaction counts as made.
///
/// The labels of a store's manifests differ, which `c2_read_manifests::labels_of_a_store_differ` says.
pub fn refused_redaction(
    alloc: Global,
    chain: &Chain<'_>,
    own: &str,
    redact: &[Text],
) -> Result<Option<RefusedRedaction>, NoMemory>
    requires { LabelsDiffer chain.now.readings }
    ensures { IfOk result
        (λ found. found ≡ redaction_refusal own.now chain.now.readings redact.now) }
{
    if redact.is_empty() {
        return Ok(None);
    }
    let known = known_of(alloc, chain)?;
    first_refused(alloc, own, &known, redact)
}

/// Whether this manifest, or none, is the one with this label.
pub fn is_own(own: &str, manifest: Option<&str>) -> bool
    ensures { result ≡ names_own own.now (option_map (λ x. x.now) manifest.entry) }
{
    match manifest {
        Some(given) => given == own,
        None => true,
    }
}

/// Why this redaction is refused where there is no older store.
fn lone_code(own: &str, text: &str) -> Code
    ensures { Some result ≡ code_of (entry_tests own.now [] [] text.now) }
{
    let Some(uri) = parse(text) else {
        return Code::ProfileRedactionUri;
    };
    let Target::Assertion(label) = uri.target else {
        return Code::ProfileRedactionUri;
    };
    match kind_code(is_own(own, uri.manifest), label_kind(label)) {
        Some(code) => code,
        None => Code::ProfileRedactionTarget,
    }
}

/// The first of these redactions that is refused where there is no older store: the first, if there is one.
pub fn refused_without_store(
    alloc: Global,
    own: &str,
    redact: &[Text],
) -> Result<Option<RefusedRedaction>, NoMemory>
    ensures { IfOk result (λ found. found ≡ redaction_refusal own.now [] redact.now) }
{
    match redact {
        [] => Ok(None),
        [first, ..] => refused(alloc, first.as_str(), lone_code(own, first.as_str())),
    }
}
