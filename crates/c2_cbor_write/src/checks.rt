//! What an item must be to be written.

ghost use Rattle.std.specs.Prelude.{◌≡◌, ◌<◌, ◌↔◌, IsTrue, false};
ghost use Rattle.c2_spec.specs.Cbor.View.{view, items_view, pairs_view};
ghost use Rattle.c2_spec.specs.Cbor.Legal.{depth, items_depth, pairs_depth};
ghost use Rattle.c2_cbor_spec.specs.Fine.{Fine, FineItems, FinePairs};
ghost use Rattle.c2_spec.specs.Cbor.Legal.{HasBadSimple, ItemsHaveBadSimple, PairsHaveBadSimple};

use c2_spec::Cbor;

/// Whether the item is deeper than so many levels.
#[cycle(deeper)]
pub fn is_deeper(item: &Cbor, levels: u8) -> bool
    ensures { IsTrue result ↔ (levels < depth (view item.now)) }
{
    if levels == 0 {
        return true;
    }
    match item {
        Cbor::List(items) => items_deeper(items, levels - 1),
        Cbor::Map(pairs) => pairs_deeper(pairs, levels - 1),
        Cbor::Tag(_, inner) => is_deeper(inner, levels - 1),
        _ => false,
    }
}

#[cycle(deeper)]
fn items_deeper(items: &[Cbor], levels: u8) -> bool
    ensures { IsTrue result ↔ (levels < items_depth (items_view items.now)) }
{
    for item in items {
        if is_deeper(item, levels) {
            return true;
        }
    }
    false
}

#[cycle(deeper)]
fn pairs_deeper(pairs: &[(Cbor, Cbor)], levels: u8) -> bool
    ensures { IsTrue result ↔ (levels < pairs_depth (pairs_view pairs.now)) }
{
    for pair in pairs {
        if is_deeper(&pair.0, levels) || is_deeper(&pair.1, levels) {
            return true;
        }
    }
    false
}

/// Whether the item has no Simple from 24 to 31.
// The values and lengths that are read and not used give the prover their ranges.
#[cycle(fine)]
pub fn is_fine(item: &Cbor) -> bool
    ensures yes { IsTrue result → Fine (view item.now) }
    ensures no { result ≡ false → HasBadSimple (view item.now) }
{
    match item {
        Cbor::Uint(n) => {
            let _n = *n;
            true
        }
        Cbor::Nint(n) => {
            let _n = *n;
            true
        }
        Cbor::Bytes(b) => {
            let _len = b.as_slice().len();
            true
        }
        Cbor::Text(t) => {
            let _len = t.as_str().len();
            true
        }
        Cbor::List(items) => {
            let _len = items.len();
            items_fine(items)
        }
        Cbor::Map(pairs) => {
            let _len = pairs.len();
            pairs_fine(pairs)
        }
        Cbor::Tag(n, inner) => {
            let _n = *n;
            is_fine(inner)
        }
        Cbor::Simple(a) => *a < 24 || *a >= 32,
        Cbor::Half(n) => {
            let _n = *n;
            true
        }
        Cbor::Single(n) => {
            let _n = *n;
            true
        }
        Cbor::Double(n) => {
            let _n = *n;
            true
        }
    }
}

#[cycle(fine)]
fn items_fine(items: &[Cbor]) -> bool
    ensures yes { IsTrue result → FineItems (items_view items.now) }
    ensures no { result ≡ false → ItemsHaveBadSimple (items_view items.now) }
{
    for item in items {
        if !is_fine(item) {
            return false;
        }
    }
    true
}

#[cycle(fine)]
fn pairs_fine(pairs: &[(Cbor, Cbor)]) -> bool
    ensures yes { IsTrue result → FinePairs (pairs_view pairs.now) }
    ensures no { result ≡ false → PairsHaveBadSimple (pairs_view pairs.now) }
{
    for pair in pairs {
        if !is_fine(&pair.0) || !is_fine(&pair.1) {
            return false;
        }
    }
    true
}
