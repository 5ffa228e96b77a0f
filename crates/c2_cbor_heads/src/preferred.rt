//! The spelling of an item with shortest heads and definite lengths, pairs in the order in which they stand.

ghost use Rattle.std.specs.Prelude.{◌≡◌, ◌<◌, ◌∷◌, ◌++◌, OnOk, length};
ghost use Rattle.c2_spec.specs.Cbor.View.{view, items_view, pairs_view};
ghost use Rattle.c2_spec.specs.Cbor.Deterministic.{shortest_head, simple_bytes, preferred};
ghost use Rattle.c2_spec.specs.Cbor.Deterministic.{preferred_items, preferred_pairs};

use c2_spec::Cbor;
use std::alloc::AllocError;

/// Appends a byte, and these behind it.
fn push_after(out: &mut Vec<u8>, first: u8, bytes: &[u8]) -> Result<(), AllocError>
    ensures { OnOk result (out.new.items ≡ out.old.items ++ first ∷ bytes.now) }
{
    out.push(first)?;
    out.extend_from_slice(bytes)?;
    Ok(())
}

/// Appends the shortest head of a major type with this argument.
#[tactic(auto, unfolding(c2_spec::specs::Cbor::Deterministic::shortest_head))]
pub fn push_head(out: &mut Vec<u8>, major: u8, n: u64) -> Result<(), AllocError>
    requires { major < 8 }
    ensures { OnOk result (out.new.items ≡ out.old.items ++ shortest_head major n) }
{
    let first = 32 * major;
    if n < 24 {
        out.push(first + n as u8)?;
        Ok(())
    } else if n < 256 {
        push_after(out, first + 24, &[n as u8])
    } else if n < 65536 {
        push_after(out, first + 25, &(n as u16).to_be_bytes())
    } else if n < 4294967296 {
        push_after(out, first + 26, &(n as u32).to_be_bytes())
    } else {
        push_after(out, first + 27, &n.to_be_bytes())
    }
}

/// Appends a string of a major type: its head, and its bytes.
fn push_string(out: &mut Vec<u8>, major: u8, bytes: &[u8]) -> Result<(), AllocError>
    requires { major < 8 }
    ensures { OnOk result (out.new.items
        ≡ out.old.items ++ shortest_head major (length bytes.now) ++ bytes.now) }
{
    push_head(out, major, bytes.len() as u64)?;
    out.extend_from_slice(bytes)?;
    Ok(())
}

/// Appends a simple value.
fn push_simple(out: &mut Vec<u8>, a: u8) -> Result<(), AllocError>
    ensures { OnOk result (out.new.items ≡ out.old.items ++ simple_bytes a) }
{
    if a < 24 {
        out.push(224 + a)?;
        return Ok(());
    }
    push_after(out, 248, &[a])
}

/// Appends the spelling of an item with shortest heads and definite lengths, the pairs of each map in the order in which they stand.
#[cycle(preferred)]
pub fn push_preferred(out: &mut Vec<u8>, item: &Cbor) -> Result<(), AllocError>
    ensures { OnOk result (out.new.items ≡ out.old.items ++ preferred (view item.now)) }
{
    match item {
        Cbor::Uint(n) => push_head(out, 0, *n),
        Cbor::Nint(n) => push_head(out, 1, *n),
        Cbor::Bytes(b) => push_string(out, 2, b.as_slice()),
        Cbor::Text(t) => push_string(out, 3, t.as_str().as_bytes()),
        Cbor::List(items) => {
            push_head(out, 4, items.len() as u64)?;
            push_items(out, items)
        }
        Cbor::Map(pairs) => {
            push_head(out, 5, pairs.len() as u64)?;
            push_pairs(out, pairs)
        }
        Cbor::Tag(n, item) => {
            push_head(out, 6, *n)?;
            push_preferred(out, item)
        }
        Cbor::Simple(a) => push_simple(out, *a),
        Cbor::Half(n) => push_after(out, 249, &n.to_be_bytes()),
        Cbor::Single(n) => push_after(out, 250, &n.to_be_bytes()),
        Cbor::Double(n) => push_after(out, 251, &n.to_be_bytes()),
    }
}

#[cycle(preferred)]
fn push_items(out: &mut Vec<u8>, items: &[Cbor]) -> Result<(), AllocError>
    ensures { OnOk result (out.new.items ≡ out.old.items
        ++ preferred_items (items_view items.now)) }
{
    for item in items {
        push_preferred(out, item)?;
    }
    Ok(())
}

#[cycle(preferred)]
fn push_pairs(out: &mut Vec<u8>, pairs: &[(Cbor, Cbor)]) -> Result<(), AllocError>
    ensures { OnOk result (out.new.items ≡ out.old.items
        ++ preferred_pairs (pairs_view pairs.now)) }
{
    for pair in pairs {
        push_preferred(out, &pair.0)?;
        push_preferred(out, &pair.1)?;
    }
    Ok(())
}
