// Writing a claim.
ghost use Rattle.std.specs.Prelude.{◌≡◌, ◌++◌, ◌∷◌, [], IfOk, OnOk, Ok, map};
ghost use Rattle.c2_spec.specs.Cbor.Item as item;
ghost use Rattle.c2_spec.specs.Cbor.View.{view, items_of};
ghost use Rattle.c2_spec.specs.Cbor.Deterministic.{sorted, deterministic};
ghost use Rattle.c2_spec.specs.C2pa.Claim.{IsClaim, claim_of};
ghost use Rattle.c2_spec.specs.Cbor.Writing.{field, field_if, pair_view, ref_item};
ghost use Rattle.c2_claim.specs.Written.{redactions_field, claim_from};
ghost use Rattle.c2_claim.specs.Written as form;
ghost use Rattle.c2_spec.specs.declared.claim.ClaimVersion.TheVariants.{V2};
ghost use Rattle.c2_claim.specs.declared.writing.ClaimParts.{ClaimParts as AnyParts};

use c2_base::{Blob, NoMemory, Text, Texts};
use c2_cbor_write::encode;
use c2_spec::{Cbor, EncodeError, Ref, Refs};
use c2_uri::{Target, Uri, text};
use std::alloc::Global;

/// What a claim is written of.
#[derive(Debug, Drop)]
pub struct ClaimParts {
    /// The label of the claim's own manifest.
    pub label: Text,

    /// What names this asset among all.
    pub instance: Text,

    /// The name of the program that makes the claim.
    pub generator: Text,

    /// The title of the asset.
    pub title: Option<Text>,

    /// The name of the algorithm of each digest in the claim's manifest.
    pub alg: Text,

    /// The assertions that the claim's maker made.
    pub entries: Refs,

    /// URIs of assertions that are taken out of ingredients.
    pub redacted: Texts,
}

// A text.
fn text_item(alloc: Global, text: &str) -> Result<Cbor, NoMemory>
    ensures { IfOk result (λ v. view v ≡ item.text text.now) }
{
    Ok(Cbor::Text(Text::copied(alloc, text)?))
}

// Adds a field of this name.
fn add_field(
    alloc: Global,
    fields: &mut Vec<(Cbor, Cbor)>,
    name: &str,
    value: Cbor,
) -> Result<(), NoMemory>
    ensures { OnOk result (map pair_view fields.new.items
        ≡ map pair_view fields.old.items ++ field name.now (view value) ∷ []) }
{
    let key = Text::copied(alloc, name)?;
    fields.push((Cbor::Text(key), value))?;
    Ok(())
}

// Adds a text under this name, where there is one.
fn add_text(
    alloc: Global,
    fields: &mut Vec<(Cbor, Cbor)>,
    name: &str,
    text: &Option<Text>,
) -> Result<(), NoMemory>
    ensures { OnOk result (map pair_view fields.new.items
        ≡ map pair_view fields.old.items ++ field_if name.now item.text text.now) }
{
    let Some(text) = text else {
        return Ok(());
    };
    let value = text_item(alloc, text.as_str())?;
    add_field(alloc, fields, name, value)
}

// The item of a reference.
fn ref_written(alloc: Global, reference: &Ref) -> Result<Cbor, NoMemory>
    ensures { IfOk result (λ v. view v ≡ ref_item reference.now) }
{
    let mut fields = Vec::new(alloc);
    add_text(alloc, &mut fields, "alg", &reference.alg)?;
    let url = text_item(alloc, reference.url.as_str())?;
    add_field(alloc, &mut fields, "url", url)?;
    let hash = Cbor::Bytes(Blob::copied(alloc, reference.hash.as_slice())?);
    add_field(alloc, &mut fields, "hash", hash)?;
    Ok(Cbor::Map(fields))
}

// The items of these references.
fn refs_written(alloc: Global, references: &[Ref]) -> Result<Vec<Cbor>, NoMemory>
    ensures { IfOk result (λ vs. map view vs.items ≡ map ref_item references.now) }
{
    let mut items = Vec::new(alloc);
    for reference in references {
        items.push(ref_written(alloc, reference)?)?;
    }
    Ok(items)
}

// The items of these texts.
fn texts_written(alloc: Global, texts: &[Text]) -> Result<Vec<Cbor>, NoMemory>
    ensures { IfOk result (λ vs. map view vs.items ≡ map item.text texts.now) }
{
    let mut items = Vec::new(alloc);
    for text in texts {
        items.push(text_item(alloc, text.as_str())?)?;
    }
    Ok(items)
}

// Adds the redactions, where there are some.
fn add_redactions(
    alloc: Global,
    fields: &mut Vec<(Cbor, Cbor)>,
    redacted: &Texts,
) -> Result<(), NoMemory>
    ensures { OnOk result (map pair_view fields.new.items
        ≡ map pair_view fields.old.items ++ redactions_field redacted.now) }
{
    let redacted = redacted.as_slice();
    if redacted.is_empty() {
        return Ok(());
    }
    let items = texts_written(alloc, redacted)?;
    add_field(alloc, fields, "redacted_assertions", Cbor::List(items))
}

// The list of these references.
fn list_written(alloc: Global, references: &[Ref]) -> Result<Cbor, NoMemory>
    ensures { IfOk result (λ v. view v ≡ item.list (items_of (map ref_item references.now))) }
{
    let items = refs_written(alloc, references)?;
    Ok(Cbor::List(items))
}

// The URI of the signature.
fn signature_written(alloc: Global, label: &str) -> Result<Cbor, NoMemory>
    ensures { IfOk result (λ v. view v ≡ item.text (form.signature_uri label.now)) }
{
    let uri = Uri {
        manifest: Some(label),
        target: Target::Signature,
    };
    Ok(Cbor::Text(text(alloc, &uri)?))
}

// The item of the program's name.
fn generator_written(alloc: Global, name: &str) -> Result<Cbor, NoMemory>
    ensures { IfOk result (λ v. view v ≡ form.generator_item name.now) }
{
    let mut fields = Vec::new(alloc);
    let name = text_item(alloc, name)?;
    add_field(alloc, &mut fields, "name", name)?;
    Ok(Cbor::Map(fields))
}

// The item of a claim.
fn claim_written(alloc: Global, parts: &ClaimParts) -> Result<Cbor, NoMemory>
    ensures { IfOk result (λ v. view v ≡ form.claim_item parts.now) }
{
    let mut fields = Vec::new(alloc);
    let alg = text_item(alloc, parts.alg.as_str())?;
    add_field(alloc, &mut fields, "alg", alg)?;
    add_text(alloc, &mut fields, "dc:title", &parts.title)?;
    let signature = signature_written(alloc, parts.label.as_str())?;
    add_field(alloc, &mut fields, "signature", signature)?;
    let instance = text_item(alloc, parts.instance.as_str())?;
    add_field(alloc, &mut fields, "instanceID", instance)?;
    let created = list_written(alloc, parts.entries.as_slice())?;
    add_field(alloc, &mut fields, "created_assertions", created)?;
    add_redactions(alloc, &mut fields, &parts.redacted)?;
    let generator = generator_written(alloc, parts.generator.as_str())?;
    add_field(alloc, &mut fields, "claim_generator_info", generator)?;
    Ok(Cbor::Map(fields))
}

/// The deterministic bytes of the claim that is made of these parts: `alg`, `dc:title` where there is a title,
/// `signature`, `instanceID`, `created_assertions`, `redacted_assertions` where there are some, and `claim_generator_info`.
pub fn write(alloc: Global, parts: &ClaimParts) -> Result<Blob, NoMemory>
    ensures written { IfOk result (λ b. b ≡ deterministic (form.claim_item parts.now)) }

    // What is written is read as these parts, as a claim of version 2.
    ensures again { IfOk result (λ b. IsClaim V2 b (claim_from parts.now)) }
{
    let item = claim_written(alloc, parts)?;
    // The item is legal: nothing but memory fails.
    match encode(alloc, &item) {
        Ok(bytes) => Ok(bytes),
        Err(
            EncodeError::BadSimple
            | EncodeError::DuplicateKey
            | EncodeError::TooDeep
            | EncodeError::NoMemory,
        ) => Err(NoMemory),
    }
}

/// A claim that is made of parts, whatever they are, is read as these parts, under version 2.
pub fn a_written_claim_is_read()
    ensures { (p : AnyParts) → claim_of V2 (sorted (form.claim_item p)) ≡ Ok (claim_from p) }
{}
