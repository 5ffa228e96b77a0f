// The assertions of ingredients, by references to the manifests that they are.
ghost use Rattle.std.specs.Prelude.{◌≡◌, ℕ, IfOk, List};
ghost use Rattle.c2_spec.specs.C2pa.Uri.{signature, whole};
ghost use Rattle.c2_spec.specs.Cbor.Deterministic.{deterministic};
ghost use Rattle.c2_assertion.specs.Written.{ingredient_item};
ghost use Rattle.c2_layout.specs.Parts.{AreRefs, ingredient_by, told};
ghost use Rattle.c2_new_file_spec.specs.Store.{NamedManifest, ingredient_assertion, target_ref};

use crate::binding::item_bytes;
use crate::carried::ManifestRefs;
use c2_assertion::write_ingredient;
use c2_base::{Blob, NoMemory, Text};
use c2_definition::{NewAssertion, Payload};
use c2_spec::{Ingredient, Ref, Relationship};
use c2_uri::{Target, Uri, text};
use std::alloc::Global;

// A reference to the manifest with this label, by the digest of its contents.
fn manifest_ref(alloc: Global, label: &str, digest: &[u8]) -> Result<Ref, NoMemory>
    ensures { IfOk result (λ r. r ≡ target_ref told label.now whole digest.now) }
{
    let uri = Uri {
        manifest: Some(label),
        target: Target::Whole,
    };
    Ok(Ref {
        url: text(alloc, &uri)?,
        hash: Blob::copied(alloc, digest)?,
        alg: None,
    })
}

// A reference to the signature of that manifest, by the digest of the contents of its box.
fn signature_ref(alloc: Global, label: &str, digest: &[u8]) -> Result<Ref, NoMemory>
    ensures { IfOk result (λ r. r ≡ target_ref told label.now signature digest.now) }
{
    let uri = Uri {
        manifest: Some(label),
        target: Target::Signature,
    };
    Ok(Ref {
        url: text(alloc, &uri)?,
        hash: Blob::copied(alloc, digest)?,
        alg: None,
    })
}

// What is written of the ingredient that the manifest of these references is.
fn ingredient_fields(
    alloc: Global,
    relationship: Relationship,
    refs: &ManifestRefs,
) -> Result<Ingredient, NoMemory>
    ensures { IfOk result (λ fields. fields ≡ ingredient_by relationship refs.now) }
{
    let label = refs.label.as_str();
    let manifest = manifest_ref(alloc, label, refs.contents.as_slice())?;
    let signature = signature_ref(alloc, label, refs.signed.as_slice())?;
    Ok(Ingredient {
        relationship,
        manifest: Some(manifest),
        signature: Some(signature),
    })
}

// The bytes that are written of these fields.
fn fields_bytes(alloc: Global, fields: &Ingredient) -> Result<Blob, NoMemory>
    ensures { IfOk result (λ b. b ≡ deterministic (ingredient_item fields.now)) }
{
    let item = write_ingredient(alloc, fields)?;
    item_bytes(alloc, &item)
}

// The bytes of the assertion of that ingredient.
fn ingredient_bytes(
    alloc: Global,
    relationship: Relationship,
    refs: &ManifestRefs,
) -> Result<Blob, NoMemory>
    ensures { IfOk result (λ b. b
        ≡ deterministic (ingredient_item (ingredient_by relationship refs.now))) }
{
    let fields = ingredient_fields(alloc, relationship, refs)?;
    fields_bytes(alloc, &fields)
}

/// The assertion of an ingredient, under this label: how it relates to the new manifest, and the manifest that it is, whose digests are
/// those of its contents as they stand in the new store.
pub fn ingredient(
    alloc: Global,
    label: &str,
    relationship: Relationship,
    refs: &ManifestRefs,
) -> Result<NewAssertion, NoMemory>
    ensures { IfOk result (λ a. (hash : List ℕ → List ℕ) (p : NamedManifest)
        → AreRefs hash p refs.now → a ≡ ingredient_assertion hash
        (record { label = label.now; relationship = relationship; of = p })) }
{
    let bytes = ingredient_bytes(alloc, relationship, refs)?;
    let label = Text::copied(alloc, label)?;
    Ok(NewAssertion {
        label,
        kind: Payload::Cbor,
        bytes,
    })
}
