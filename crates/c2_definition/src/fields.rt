// The fields of a definition before its assertions.
ghost use Rattle.std.specs.Prelude.{◌≡◌, option_map, IfOk, IfErr};
ghost use Rattle.serde_json.specs.View.{view};
ghost use Rattle.c2_definition.specs.DefinitionFile as file;
ghost use Rattle.c2_definition.specs.Stages.{Passes, RefusesFirst};

use crate::error::DefinitionError;
use crate::keys::has_fields;
use crate::labels::is_manifest_label;
use crate::members::{filled_at, hex_at, number_at, optional_text_at, text_at};
use crate::types::{DefinitionField, MAX_PROTECTED, MAX_RESERVE, MIN_RESERVE};
use c2_base::{Blob, NoMemory, Text};
use serde_json::Value;
use std::alloc::Global;

/// What the fields before the assertions say.
#[derive(Drop)]
pub struct FirstFields {
    pub label: Text,
    pub instance_id: Text,
    pub generator: Text,
    pub title: Option<Text>,
    pub protected: Blob,
    pub reserve: u32,
}

// The label of the manifest.
fn label_in(value: &Value) -> Option<&str>
    ensures { option_map (λ t. t.now) result ≡ file.label_in (view value.now) }
{
    let label = text_at(value, "label")?;
    if !is_manifest_label(label) {
        return None;
    }
    Some(label)
}

// The protected header of the signed message.
fn protected_in(alloc: Global, value: &Value) -> Result<Option<Blob>, NoMemory>
    ensures { IfOk result (λ found. found ≡ file.protected_in (view value.now)) }
{
    let Some(bytes) = hex_at(alloc, value, "protected")? else {
        return Ok(None);
    };
    if bytes.as_slice().len() > MAX_PROTECTED {
        return Ok(None);
    }
    Ok(Some(bytes))
}

// How many bytes are reserved for the signed message.
fn reserve_in(value: &Value) -> Option<u32>
    ensures { result ≡ file.reserve_in (view value.now) }
{
    let reserve = number_at(value, "reserve")?;
    if reserve < MIN_RESERVE || reserve > MAX_RESERVE {
        return None;
    }
    Some(reserve as u32)
}

/// The fields of an object before its assertions, or the first that is refused.
pub fn first_fields(alloc: Global, value: &Value) -> Result<FirstFields, DefinitionError>
    ensures passes { IfOk result (Passes (view value.now)) }
    ensures refuses { IfErr result (RefusesFirst (view value.now)) }
{
    if !has_fields(value) {
        return Err(DefinitionError::BadDefinition(DefinitionField::Other));
    }
    let Some(label) = label_in(value) else {
        return Err(DefinitionError::BadDefinition(DefinitionField::Label));
    };
    let Some(instance) = filled_at(value, "instance_id") else {
        return Err(DefinitionError::BadDefinition(DefinitionField::InstanceId));
    };
    let Some(generator) = filled_at(value, "generator") else {
        return Err(DefinitionError::BadDefinition(DefinitionField::Generator));
    };
    let Some(title) = optional_text_at(alloc, value, "title")? else {
        return Err(DefinitionError::BadDefinition(DefinitionField::Title));
    };
    let Some(protected) = protected_in(alloc, value)? else {
        return Err(DefinitionError::BadDefinition(DefinitionField::Protected));
    };
    let Some(reserve) = reserve_in(value) else {
        return Err(DefinitionError::BadDefinition(DefinitionField::Reserve));
    };
    Ok(FirstFields {
        label: Text::copied(alloc, label)?,
        instance_id: Text::copied(alloc, instance)?,
        generator: Text::copied(alloc, generator)?,
        title,
        protected,
        reserve,
    })
}
