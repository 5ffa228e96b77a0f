//! Copying an item.

ghost use Rattle.std.specs.Prelude.{◌≡◌, IfOk};
ghost use Rattle.c2_spec.specs.Cbor.Item.{bytes as byte_string, text as text_string, tag};
ghost use Rattle.c2_spec.specs.Cbor.View.{view, items_view, pairs_view};

use c2_base::{Blob, NoMemory, Text};
use c2_spec::Cbor;
use std::alloc::Global;

// The item that these bytes are.
fn byte_item(alloc: Global, bytes: &[u8]) -> Result<Cbor, NoMemory>
    ensures { IfOk result (λ x. view x ≡ byte_string bytes.now) }
{
    let owned = Blob::copied(alloc, bytes)?;
    Ok(Cbor::Bytes(owned))
}

// The item that this text is.
fn text_item(alloc: Global, text: &str) -> Result<Cbor, NoMemory>
    ensures { IfOk result (λ x. view x ≡ text_string text.now) }
{
    let owned = Text::copied(alloc, text)?;
    Ok(Cbor::Text(owned))
}

// The item under this tag.
fn tagged(alloc: Global, n: u64, item: Cbor) -> Result<Cbor, NoMemory>
    ensures { IfOk result (λ x. view x ≡ tag n (view item)) }
{
    let inner = Box::new(alloc, item)?;
    Ok(Cbor::Tag(n, inner))
}

/// A copy of an item: it stands for the same.
#[cycle(copy)]
pub fn copy(alloc: Global, item: &Cbor) -> Result<Cbor, NoMemory>
    ensures { IfOk result (λ x. view x ≡ view item.now) }
{
    match item {
        Cbor::Uint(n) => Ok(Cbor::Uint(*n)),
        Cbor::Nint(n) => Ok(Cbor::Nint(*n)),
        Cbor::Bytes(b) => byte_item(alloc, b.as_slice()),
        Cbor::Text(t) => text_item(alloc, t.as_str()),
        Cbor::List(items) => Ok(Cbor::List(copy_items(alloc, items)?)),
        Cbor::Map(pairs) => Ok(Cbor::Map(copy_pairs(alloc, pairs)?)),
        Cbor::Tag(n, inner) => {
            let within = copy(alloc, inner)?;
            tagged(alloc, *n, within)
        }
        Cbor::Simple(a) => Ok(Cbor::Simple(*a)),
        Cbor::Half(n) => Ok(Cbor::Half(*n)),
        Cbor::Single(n) => Ok(Cbor::Single(*n)),
        Cbor::Double(n) => Ok(Cbor::Double(*n)),
    }
}

#[cycle(copy)]
fn copy_items(alloc: Global, items: &[Cbor]) -> Result<Vec<Cbor>, NoMemory>
    ensures { IfOk result (λ x. items_view x.items ≡ items_view items.now) }
{
    let mut copies = Vec::new(alloc);
    for item in items {
        copies.push(copy(alloc, item)?)?;
    }
    Ok(copies)
}

#[cycle(copy)]
fn copy_pairs(alloc: Global, pairs: &[(Cbor, Cbor)]) -> Result<Vec<(Cbor, Cbor)>, NoMemory>
    ensures { IfOk result (λ x. pairs_view x.items ≡ pairs_view pairs.now) }
{
    let mut copies = Vec::new(alloc);
    for pair in pairs {
        let key = copy(alloc, &pair.0)?;
        let value = copy(alloc, &pair.1)?;
        copies.push((key, value))?;
    }
    Ok(copies)
}
