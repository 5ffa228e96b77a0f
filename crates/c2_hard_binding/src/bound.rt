// The rule on the binding of a manifest to its media file.
ghost use Rattle.std.specs.Prelude.{◌≡◌, IfOk, IfErr, IsErr, Ok, bytes_eq, Option as AnyOption};
ghost use Rattle.std.specs.Prelude.{Result as AnyResult};
ghost use Rattle.std.specs.Option.{ForSome};
ghost use Rattle.c2_spec.specs.Digest.{alg_named};
ghost use Rattle.c2_spec.specs.declared.assertion.FieldError.{FieldError as AnyFieldError};
ghost use Rattle.c2_spec.specs.declared.assertion.Kind.{Kind as AnyKind};
ghost use Rattle.c2_cover.specs.Digests.{IsDigestOf};
ghost use Rattle.c2_rules.specs.Binding as form;
ghost use Rattle.c2_rules.specs.Binding.{Binding, Media};
ghost use Rattle.c2_rules.specs.Chains.{label_in};
ghost use Rattle.c2_rules.specs.Ingredients.{assertion_uri};
ghost use Rattle.c2_rules.specs.Rules as rules;
ghost use Rattle.c2_opening.specs.Media.{IsMediaOf};
ghost use Rattle.c2_container.specs.Contained.{HasRootsInside};
ghost use Rattle.c2_opening.specs.Opened.{IsOpeningCause};
ghost use Rattle.c2_base.specs.Source.{ReadsSource};
ghost use Rattle.c2_hard_binding.specs.Fields.{IsBindingFields, HasBoxesInside, ReadsTo, code_of};
ghost use Rattle.c2_hard_binding.specs.Found.{HasSize, IsBoundAs, IsItemBound};

use crate::binding::{binding_item, binding_label, read_payload};
use crate::fields::HardBinding;
use c2_assertion::FieldError;
use c2_base::limits::PIECE_LEN;
use c2_base::{Failed, NoMemory, Source, Text};
use c2_check_facts::{alg_name, label_kind};
use c2_container::Container;
use c2_cover::{Cover, CoverError, digest_cover};
use c2_hash::{Alg, Digest, Hashing, alg_of};
use c2_opening::ValidateError;
use c2_read_manifests::{ReadManifest, label};
use c2_rules::{Code, Failing};
use std::alloc::Global;

/// What a binding covers of its media file.
#[derive(Drop)]
pub struct BoundText {
    /// Which bytes of the file the binding covers.
    pub cover: Cover,

    /// The name of the algorithm of the binding's digest.
    pub alg: Text,
}

/// What was found of a binding.
#[derive(Drop)]
pub enum Bound {
    /// A rule on the binding fails.
    Fails(Failing),

    /// All rules on the binding hold, and it covers this of the file.
    Holds(BoundText),
}

/// This fails at the binding with this label.
fn fails(
    alloc: Global,
    own: &ReadManifest<'_>,
    name: &str,
    code: Code,
) -> Result<Bound, ValidateError>
    ensures found { IfOk result (λ found. found ≡ Bound.Fails
        (record { code = code; uri = assertion_uri (label_in own.now) name.now })) }
    ensures cause { IfErr result (λ e. e ≡ ValidateError.NoMemory) }
{
    let manifest = label(own);
    let Ok(uri) = format!(in alloc; "self#jumbf=/c2pa/{manifest}/c2pa.assertions/{name}") else {
        return Err(ValidateError::NoMemory);
    };
    match Text::from_string(alloc, uri) {
        Ok(uri) => Ok(Bound::Fails(Failing { code, uri })),
        Err(_) => Err(ValidateError::NoMemory),
    }
}

/// A manifest without a binding fails.
#[tactic(auto, using(c2_lemmas::proofs::Lists::nothing_after))]
fn fails_unbound(alloc: Global, own: &ReadManifest<'_>) -> Result<Bound, ValidateError>
    ensures found { IfOk result (λ found. found ≡ Bound.Fails
        (record { code = Code.AssertionCborInvalid; uri = rules.manifest_uri own.now })) }
    ensures cause { IfErr result (λ e. e ≡ ValidateError.NoMemory) }
{
    let manifest = label(own);
    let Ok(uri) = format!(in alloc; "self#jumbf=/c2pa/{manifest}") else {
        return Err(ValidateError::NoMemory);
    };
    let code = Code::AssertionCborInvalid;
    match Text::from_string(alloc, uri) {
        Ok(uri) => Ok(Bound::Fails(Failing { code, uri })),
        Err(_) => Err(ValidateError::NoMemory),
    }
}

/// What is said of a refused field. Out of memory is no refusal.
fn field_code(error: FieldError) -> Result<Code, NoMemory>
    ensures code { IfOk result (λ code. code ≡ form.field_code error) }
    ensures memory { error ≡ FieldError.NoMemory → IsErr result }
{
    match error {
        FieldError::Merkle => Ok(Code::UnsupportedMerkle),
        FieldError::Form => Ok(Code::ProfileHashForm),
        FieldError::TooMany(_) => Ok(Code::UnsupportedTooManyExclusions),
        FieldError::Test => Ok(Code::UnsupportedExclusionTest),
        FieldError::Path => Ok(Code::UnsupportedExclusionPath),
        FieldError::NoMemory => Err(NoMemory),
    }
}

/// The algorithm of a binding, where it is known.
fn known_alg(own: &ReadManifest<'_>, alg: &Option<Text>) -> Option<Alg>
    ensures { result ≡ alg_named (rules.alg_in own.now alg.now) }
{
    alg_of(alg_name(own, alg))
}

/// The digest of what a cover leaves of the file, which is read in pieces.
fn covered_digest<S: Source, H: Hashing>(
    alloc: Global,
    hashing: &H,
    source: &mut S,
    cover: &Cover,
    alg: Alg,
) -> Result<Digest, ValidateError>
    requires { S.len source.old ≡ cover.now.size }
    ensures digest { IfOk result (IsDigestOf (H.digest_of alg) cover.now (S.known source.old)) }
    ensures reads { ReadsSource S.len S.known S.faults IsOpeningCause source.old source.new result }
{
    let mut buf = match vec![in alloc; 0; PIECE_LEN] {
        Ok(buf) => buf,
        Err(_) => return Err(ValidateError::NoMemory),
    };
    match digest_cover(hashing, source, cover, alg, &mut buf) {
        Ok(digest) => Ok(digest),
        Err(Failed) => Err(ValidateError::ReadFault),
    }
}

/// Whether the digest is this.
fn is_digest(digest: &Digest, hash: &[u8]) -> bool
    ensures { result ≡ bytes_eq digest.now hash.now }
{
    digest.as_slice() == hash
}

/// The rule on the fields of a binding: its algorithm is known before any byte of the file is read.
fn check_fields<S: Source, H: Hashing>(
    alloc: Global,
    hashing: &H,
    source: &mut S,
    own: &ReadManifest<'_>,
    name: &str,
    fields: &HardBinding<'_>,
) -> Result<Bound, ValidateError>
    requires { HasBoxesInside (S.len source.old) fields.now }
    ensures found { let uri = assertion_uri (label_in own.now) name.now in
        ForSome (S.known source.old) (λ file. (kind : AnyKind) (b : Binding)
        → code_of fields.now ≡ form.mismatch_code kind → IsBindingFields file fields.now b
        → IfOk result (IsItemBound H.digest_of own.now uri kind file (Ok b))) }
    ensures size { IfOk result (HasSize (S.len source.old)) }
    ensures reads { ReadsSource S.len S.known S.faults IsOpeningCause source.old source.new result }
{
    let Some(alg) = known_alg(own, fields.alg()) else {
        return fails(alloc, own, name, Code::AlgorithmUnsupported);
    };
    let cover = match fields.cover(alloc, source) {
        Ok(cover) => cover,
        Err(CoverError::BadRange(_)) => return fails(alloc, own, name, Code::ProfileHashForm),
        Err(CoverError::ReadFault) => return Err(ValidateError::ReadFault),
        Err(CoverError::NoMemory) => return Err(ValidateError::NoMemory),
    };
    // Matched and not handed up by `?`: each way out has clauses of its own.
    let digest = match covered_digest(alloc, hashing, source, &cover, alg) {
        Ok(digest) => digest,
        Err(error) => return Err(error),
    };
    if !is_digest(&digest, fields.hash()) {
        return fails(alloc, own, name, fields.mismatch());
    }
    match Text::copied(alloc, alg_name(own, fields.alg())) {
        Ok(alg) => Ok(Bound::Holds(BoundText { cover, alg })),
        Err(_) => Err(ValidateError::NoMemory),
    }
}

/// The rule on what was read of the binding with this label: fields, or the refusal of one.
fn check_read<S: Source, H: Hashing>(
    alloc: Global,
    hashing: &H,
    source: &mut S,
    own: &ReadManifest<'_>,
    name: &str,
    read: &Result<HardBinding<'_>, FieldError>,
) -> Result<Bound, ValidateError>
    requires { IfOk read.now (HasBoxesInside (S.len source.old)) }
    ensures found { let uri = assertion_uri (label_in own.now) name.now in
        ForSome (S.known source.old) (λ file.
        (kind : AnyKind) (b : AnyResult Binding AnyFieldError)
        → IfOk read.now (λ h. code_of h ≡ form.mismatch_code kind) → ReadsTo file read.now b
        → IfOk result (IsItemBound H.digest_of own.now uri kind file b)) }
    ensures size { IfOk result (HasSize (S.len source.old)) }
    ensures reads { ReadsSource S.len S.known S.faults IsOpeningCause source.old source.new result }
{
    let error = match read {
        Ok(fields) => return check_fields(alloc, hashing, source, own, name, fields),
        Err(error) => *error,
    };
    match field_code(error) {
        Ok(code) => fails(alloc, own, name, code),
        Err(NoMemory) => Err(ValidateError::NoMemory),
    }
}

/// The rule on the binding of a manifest to its media file, which is read in pieces: the first part of it that fails, or what the
/// binding covers.
///
/// `ReadFault` comes only where the source failed in this call, `JudgeFault` never.
pub fn check_binding<S: Source, H: Hashing>(
    alloc: Global,
    hashing: &H,
    source: &mut S,
    container: &Container,
    own: &ReadManifest<'_>,
) -> Result<Bound, ValidateError>
    requires { HasRootsInside (S.len source.old) container.now }
    ensures found { ForSome (S.known source.old) (λ file.
        (m : Media) → IsMediaOf file container.now m
        → (b : AnyOption (AnyResult Binding AnyFieldError)) → form.HasBinding m own.now b
        → IfOk result (IsBoundAs H.digest_of own.now file b)) }
    ensures size { IfOk result (HasSize (S.len source.old)) }
    ensures reads { ReadsSource S.len S.known S.faults IsOpeningCause source.old source.new result }
{
    let Some(name) = binding_label(own) else {
        return fails_unbound(alloc, own);
    };
    let item = match read_payload(alloc, binding_item(own, name)) {
        Ok(Some(item)) => item,
        Ok(None) => return fails(alloc, own, name, Code::AssertionCborInvalid),
        Err(NoMemory) => return Err(ValidateError::NoMemory),
    };
    let read = HardBinding::read(alloc, container, label_kind(name), &item);
    check_read(alloc, hashing, source, own, name, &read)
}
