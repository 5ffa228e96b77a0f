// Fields of a map that is written.
ghost use Rattle.std.specs.Prelude.{◌≡◌, ◌++◌, [], ◌∷◌, codes, OnOk, map};
ghost use Rattle.c2_spec.specs.Cbor.Item as item;
ghost use Rattle.c2_spec.specs.Cbor.View.{view};
ghost use Rattle.c2_spec.specs.Cbor.Writing.{field, field_if, pair_view};

use c2_base::{Blob, NoMemory, Text};
use c2_spec::Cbor;
use std::alloc::Global;

// Adds a field of this name.
pub(crate) fn add_field(
    alloc: Global,
    fields: &mut Vec<(Cbor, Cbor)>,
    name: &str,
    value: Cbor,
) -> Result<(), NoMemory>
    ensures { OnOk result (map pair_view fields.new.items
        ≡ map pair_view fields.old.items ++ field name.now (view value) ∷ []) }
{
    let key = Cbor::Text(Text::copied(alloc, name)?);
    fields.push((key, value))?;
    Ok(())
}

// Adds a field of this name that is a text.
pub(crate) fn add_text(
    alloc: Global,
    fields: &mut Vec<(Cbor, Cbor)>,
    name: &str,
    text: &str,
) -> Result<(), NoMemory>
    ensures { OnOk result (map pair_view fields.new.items
        ≡ map pair_view fields.old.items ++ field name.now (item.text text.now) ∷ []) }
{
    let value = Cbor::Text(Text::copied(alloc, text)?);
    add_field(alloc, fields, name, value)
}

// Adds a field of this name that is a byte string.
pub(crate) fn add_bytes(
    alloc: Global,
    fields: &mut Vec<(Cbor, Cbor)>,
    name: &str,
    bytes: &Blob,
) -> Result<(), NoMemory>
    ensures { OnOk result (map pair_view fields.new.items
        ≡ map pair_view fields.old.items ++ field name.now (item.bytes bytes.now) ∷ []) }
{
    let value = Cbor::Bytes(Blob::copied(alloc, bytes.as_slice())?);
    add_field(alloc, fields, name, value)
}

// Adds the algorithm, where one is named.
pub(crate) fn add_alg(
    alloc: Global,
    fields: &mut Vec<(Cbor, Cbor)>,
    alg: &Option<Text>,
) -> Result<(), NoMemory>
    ensures { OnOk result (map pair_view fields.new.items
        ≡ map pair_view fields.old.items ++ field_if (codes "alg") item.text alg.now) }
{
    match alg {
        Some(name) => add_text(alloc, fields, "alg", name.as_str()),
        None => Ok(()),
    }
}
