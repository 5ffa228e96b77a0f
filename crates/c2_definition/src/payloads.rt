// The bytes of new assertions.
ghost use Rattle.std.specs.Prelude.{◌≡◌, ◌↔◌, Bool, true, IfOk, None, if◌then◌else◌};
ghost use Rattle.std.specs.List.{AllByRecursion};
ghost use Rattle.serde_json.specs.View.{view};
ghost use Rattle.c2_definition.specs.DefinitionFile as file;

use crate::assertions::assertions_in;
use crate::types::{NewAssertion, NewAssertions, Payload};
use c2_base::NoMemory;
use c2_cbor::decode_whole;
use c2_cbor_spec::each_list_is_an_item_or_not;
use c2_spec::CborError;
use serde_json::Value;
use std::alloc::Global;

// Whether bytes are one whole item.
fn is_whole_item(alloc: Global, bytes: &[u8]) -> Result<bool, NoMemory>
    ensures { IfOk result (λ yes. (yes ≡ true) ↔ file.IsWholeItem bytes.now) }
{
    each_list_is_an_item_or_not();
    match decode_whole(alloc, bytes) {
        Ok(_item) => Ok(true),
        Err(CborError::NoMemory) => Err(NoMemory),
        Err(_) => Ok(false),
    }
}

// Whether the bytes of a new assertion are for its content box.
fn has_payload(alloc: Global, assertion: &NewAssertion) -> Result<bool, NoMemory>
    ensures { IfOk result (λ yes. (yes ≡ true) ↔ file.HasPayload assertion.now) }
{
    match assertion.kind {
        Payload::Cbor => is_whole_item(alloc, assertion.bytes.as_slice()),
        Payload::Json => Ok(true),
    }
}

// Whether those of all are.
fn have_payloads(alloc: Global, list: &[NewAssertion]) -> Result<bool, NoMemory>
    ensures { IfOk result (λ yes. (yes ≡ true) ↔ AllByRecursion file.HasPayload list.now) }
{
    for assertion in list {
        if !has_payload(alloc, assertion)? {
            return Ok(false);
        }
    }
    Ok(true)
}

#[tactic(auto, using(crate::proofs::PayloadSteps::none_listed, crate::proofs::PayloadSteps::listed, crate::proofs::PayloadSteps::not_listed))]
/// The new assertions of an object, where their bytes are for their content boxes.
pub fn whole_assertions(alloc: Global, value: &Value) -> Result<Option<NewAssertions>, NoMemory>
    ensures { (payloads : Bool) → (payloads ≡ true) ↔ file.HavePayloads (view value.now)
        → IfOk result (λ found. found
        ≡ (if payloads then file.assertions_in (view value.now) else None)) }
{
    let Some(list) = assertions_in(alloc, value)? else {
        return Ok(None);
    };
    if !have_payloads(alloc, list.as_slice())? {
        return Ok(None);
    }
    Ok(Some(list))
}
