// The new claim.
ghost use Rattle.std.specs.Prelude.{◌≡◌, IfOk};
ghost use Rattle.c2_spec.specs.Cbor.Deterministic.{deterministic};
ghost use Rattle.c2_spec.specs.Digest as names;
ghost use Rattle.c2_claim.specs.Written.{claim_item};
ghost use Rattle.c2_new_file_spec.specs.Store as store;

use c2_base::{Blob, NoMemory, Text, Texts};
use c2_claim::{ClaimParts, write};
use c2_definition::Definition;
use c2_hash::alg_name;
use c2_spec::{Ref, Refs};
use std::alloc::Global;

// A copy of a title, where there is one.
fn copied_title(alloc: Global, title: &Option<Text>) -> Result<Option<Text>, NoMemory>
    ensures { IfOk result (λ copy. copy ≡ title.now) }
{
    let Some(title) = title else {
        return Ok(None);
    };
    Ok(Some(Text::copied(alloc, title.as_str())?))
}

// A copy of texts.
fn copied_texts(alloc: Global, texts: &[Text]) -> Result<Texts, NoMemory>
    ensures { IfOk result (λ copies. copies ≡ texts.now) }
{
    let mut copies = Vec::new(alloc);
    for text in texts {
        copies.push(Text::copied(alloc, text.as_str())?)?;
    }
    Ok(Texts::from_list(copies))
}

// Copies of the label, the instance and the generator of a definition.
fn copied_names(alloc: Global, definition: &Definition) -> Result<(Text, Text, Text), NoMemory>
    ensures label { IfOk result (λ three. three.0 ≡ definition.now.label) }
    ensures instance { IfOk result (λ three. three.1 ≡ definition.now.instance_id) }
    ensures generator { IfOk result (λ three. three.2 ≡ definition.now.generator) }
{
    let label = Text::copied(alloc, definition.label.as_str())?;
    let instance = Text::copied(alloc, definition.instance_id.as_str())?;
    let generator = Text::copied(alloc, definition.generator.as_str())?;
    Ok((label, instance, generator))
}

// Copies of the title of a definition, of the name of its algorithm, and of its redactions.
fn copied_terms(
    alloc: Global,
    definition: &Definition,
) -> Result<(Option<Text>, Text, Texts), NoMemory>
    ensures title { IfOk result (λ three. three.0 ≡ definition.now.title) }
    ensures alg { IfOk result (λ three. three.1 ≡ names.alg_name (store.new_alg definition.now)) }
    ensures redacted { IfOk result (λ three. three.2 ≡ definition.now.redact) }
{
    let title = copied_title(alloc, &definition.title)?;
    let alg = Text::copied(alloc, alg_name(definition.alg))?;
    let redacted = copied_texts(alloc, definition.redact.as_slice())?;
    Ok((title, alg, redacted))
}

// What the claim of a definition is written of, with these entries.
fn claim_parts(
    alloc: Global,
    definition: &Definition,
    entries: Vec<Ref>,
) -> Result<ClaimParts, NoMemory>
    ensures { IfOk result (λ parts. parts ≡ store.claim_with definition.now entries.items) }
{
    let (label, instance, generator) = copied_names(alloc, definition)?;
    let (title, alg, redacted) = copied_terms(alloc, definition)?;
    Ok(ClaimParts {
        label,
        instance,
        generator,
        title,
        alg,
        entries: Refs::from_list(entries),
        redacted,
    })
}

// The bytes of the claim of a definition, with these entries.
pub(crate) fn claim_of(
    alloc: Global,
    definition: &Definition,
    entries: Vec<Ref>,
) -> Result<Blob, NoMemory>
    ensures { IfOk result (λ claim. claim
        ≡ deterministic (claim_item (store.claim_with definition.now entries.items))) }
{
    let parts = claim_parts(alloc, definition, entries)?;
    write(alloc, &parts)
}
