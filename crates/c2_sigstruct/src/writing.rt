// Writing a message, with padding.
ghost use Rattle.std.specs.Prelude.{◌≡◌, ◌+◌, length, replicate, IfOk, OnOk};
ghost use Rattle.c2_spec.specs.Cbor.Item.{Pairs, no_pairs};
ghost use Rattle.c2_spec.specs.Cbor.View.{view, pairs_view};
ghost use Rattle.c2_spec.specs.C2pa.Sign1.{parts_of, SpellsMessage};
ghost use Rattle.c2_spec.specs.C2pa.Message.{bare_bytes, pairs_then, tagged_message, with_entries};
ghost use Rattle.c2_spec.specs.C2pa.Message.{padded, padded_bytes, padded_read, CanBePadded};
ghost use Rattle.c2_pad.specs.Fill.{zeros_before, fill_pairs, fill_cost};

use crate::Sign1;
use crate::asking::written;
use crate::tagged::tagged_item;
use c2_base::{Blob, NoMemory, Text};
use c2_cbor_write::copy;
use c2_pad::types::Fill;
use c2_spec::Cbor;
use std::alloc::Global;

// So many zero bytes.
fn zero_bytes(alloc: Global, zeros: u32) -> Result<Blob, NoMemory>
    ensures { IfOk result (λ b. b ≡ replicate zeros 0) }
{
    let bytes = vec![in alloc; 0u8; zeros as usize]?;
    Ok(Blob::from_vec(bytes))
}

// Puts an entry of zero bytes behind the others, where there is to be one.
fn push_zeros(
    alloc: Global,
    pairs: &mut Vec<(Cbor, Cbor)>,
    key: &str,
    zeros: Option<u32>,
) -> Result<(), NoMemory>
    ensures { OnOk result (pairs_view pairs.new.items
        ≡ pairs_then (pairs_view pairs.old.items) (zeros_before key.now zeros no_pairs)) }
{
    if let Some(zeros) = zeros {
        let name = Text::copied(alloc, key)?;
        let value = zero_bytes(alloc, zeros)?;
        pairs.push((Cbor::Text(name), Cbor::Bytes(value)))?;
    }
    Ok(())
}

// A header with the entries of the fill behind its own.
fn padded_header(alloc: Global, header: &Cbor, fill: Fill) -> Result<Cbor, NoMemory>
    ensures { IfOk result (λ x. view x ≡ with_entries (view header.now) (fill_pairs fill)) }
{
    match copy(alloc, header)? {
        Cbor::Map(mut pairs) => {
            push_zeros(alloc, &mut pairs, "pad", fill.pad)?;
            push_zeros(alloc, &mut pairs, "pad2", fill.pad2)?;
            Ok(Cbor::Map(pairs))
        }
        other => Ok(other),
    }
}

// The item of the message with the tag 18, and with the entries of the fill in its unprotected header.
fn padded_item(alloc: Global, sign: &Sign1, fill: Fill) -> Result<Cbor, NoMemory>
    ensures { IfOk result (λ x. view x
        ≡ tagged_message (padded (parts_of sign.now) (fill_pairs fill))) }
{
    let header = padded_header(alloc, &sign.unprotected, fill)?;
    tagged_item(alloc, sign, header)
}

/// The deterministic bytes of the message with the tag 18, and with the entries of the fill in its unprotected header. They are
/// read as the same message, but for these entries.
pub fn write_sign1(alloc: Global, sign: &Sign1, fill: Fill) -> Result<Blob, NoMemory>
    requires can { (entries : Pairs) × CanBePadded (parts_of sign.now) entries }
    ensures written { IfOk result (λ b. b ≡ padded_bytes (parts_of sign.now) (fill_pairs fill)) }
    // The bytes are longer than the message without padding by what the fill costs.
    ensures longer { IfOk result (λ b.
        length b ≡ length (bare_bytes (parts_of sign.now)) + fill_cost fill) }
    ensures again { IfOk result (λ b.
        SpellsMessage b (padded_read (parts_of sign.now) (fill_pairs fill))) }
{
    let item = padded_item(alloc, sign, fill)?;
    written(alloc, &item)
}
