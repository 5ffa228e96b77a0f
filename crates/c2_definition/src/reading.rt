// Reading a definition file.
ghost use Rattle.std.specs.Prelude.{◌≡◌, ◌↔◌, Bool, true, option_map, Err, IfErr, IfOk, Result};
ghost use Rattle.serde_json.specs.View.{view};
ghost use Rattle.c2_definition.specs.Json.{object_of};
ghost use Rattle.c2_definition.specs.DefinitionFile as file;
ghost use Rattle.c2_definition.specs.DefinitionFile.{HavePayloads, definition_of, IsDefinition};
ghost use Rattle.c2_definition.specs.DefinitionFile.{Agrees};
ghost use Rattle.c2_definition.specs.Stages.{AreLast, Passes, TellsObject, whole};
ghost use Rattle.c2_definition.specs.declared.fields.FirstFields.{FirstFields as AnyFirst};
ghost use Rattle.c2_definition.specs.declared.types.Definition.{Definition as AnyDefinition};
ghost use Rattle.c2_definition.specs.declared.types.DefinitionField.{DefinitionField as AnyField};

use crate::error::DefinitionError;
use crate::fields::{FirstFields, first_fields};
use crate::members::optional_texts_at;
use crate::payloads::whole_assertions;
use crate::types::{Definition, DefinitionField, NewAssertions};
use c2_base::limits::MAX_INPUT_LEN;
use c2_base::{NoMemory, Texts};
use c2_hash::{Alg, alg_of};
use serde_json::Value;
use std::alloc::Global;

// The algorithm of each digest; None where something stands there that is no name of one.
fn alg_in(value: &Value) -> Option<Alg>
    ensures { result ≡ file.alg_in (view value.now) }
{
    let Some(member) = value.get("alg") else {
        return Some(Alg::Sha256);
    };
    let name = member.as_str()?;
    alg_of(name)
}

// What the fields from the assertions on say.
#[derive(Drop)]
struct LastFields {
    assertions: NewAssertions,
    redact: Texts,
    alg: Alg,
}

// The fields of an object from its assertions on, or the first of them that is refused.
fn last_fields(alloc: Global, value: &Value) -> Result<LastFields, DefinitionError>
    ensures passes { (payloads : Bool) → TellsObject payloads (view value.now)
        → IfOk result (AreLast payloads (view value.now)) }
    ensures refuses { (payloads : Bool) (first : AnyFirst) → TellsObject payloads (view value.now)
        → Passes (view value.now) first
        → IfErr result (λ e. Agrees (definition_of payloads (view value.now)) (Err e)) }
{
    let Some(assertions) = whole_assertions(alloc, value)? else {
        return Err(DefinitionError::BadDefinition(DefinitionField::Assertions));
    };
    let Some(redact) = optional_texts_at(alloc, value, "redact")? else {
        return Err(DefinitionError::BadDefinition(DefinitionField::Redact));
    };
    let Some(alg) = alg_in(value) else {
        return Err(DefinitionError::BadDefinition(DefinitionField::Alg));
    };
    Ok(LastFields {
        assertions,
        redact,
        alg,
    })
}

// The definition of these fields.
fn whole(first: FirstFields, last: LastFields) -> Definition
    ensures { result ≡ whole first last }
{
    Definition {
        label: first.label,
        instance_id: first.instance_id,
        generator: first.generator,
        title: first.title,
        protected: first.protected,
        reserve: first.reserve,
        assertions: last.assertions,
        redact: last.redact,
        alg: last.alg,
    }
}

// The definition that an object is, or its first field that is refused.
fn definition_of(alloc: Global, value: &Value) -> Result<Definition, DefinitionError>
    ensures { (payloads : Bool) → (payloads ≡ true) ↔ HavePayloads (view value.now)
        → Agrees (definition_of payloads (view value.now)) result }
{
    let first = first_fields(alloc, value)?;
    let last = last_fields(alloc, value)?;
    Ok(whole(first, last))
}

// The object that bytes are; None where they are none.
fn object_of(alloc: Global, bytes: &[u8]) -> Result<Option<Value>, NoMemory>
    ensures { IfOk result (λ found. option_map view found ≡ object_of bytes.now) }
{
    match Value::from_slice(alloc, bytes) {
        Ok(value) => {
            if !value.is_object() {
                return Ok(None);
            }
            Ok(Some(value))
        }
        Err(error) => {
            if error.is_memory() {
                return Err(NoMemory);
            }
            Ok(None)
        }
    }
}

/// The definition that a file is.
///
/// `BadDefinition` with what is refused first, in the order of `DefinitionField`. Of several members with one key the last
/// holds; `assertions` and `redact` may be missing, and are empty then; `alg` may be missing, and is SHA-256 then; a null is
/// refused wherever it stands.
pub fn read_definition(alloc: Global, bytes: &[u8]) -> Result<Definition, DefinitionError>
    // What the file is, or what is refused first, is answered, unless memory runs out.
    ensures { (r : Result AnyDefinition AnyField) → IsDefinition bytes.now r → Agrees r result }
{
    if bytes.len() as u64 > MAX_INPUT_LEN {
        return Err(DefinitionError::BadDefinition(DefinitionField::Size));
    }
    let Some(value) = object_of(alloc, bytes)? else {
        return Err(DefinitionError::BadDefinition(DefinitionField::Json));
    };
    definition_of(alloc, &value)
}
