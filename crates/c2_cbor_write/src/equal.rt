//! Whether a map of an item has two equal keys.

ghost use Rattle.std.specs.Prelude.{◌≡◌, IsTrue, false, IfOk};
ghost use Rattle.c2_spec.specs.Cbor.View.{view, items_view, pairs_view};
ghost use Rattle.c2_spec.specs.Cbor.Legal.{HasDistinctKeys, ItemsHaveDistinctKeys};
ghost use Rattle.c2_spec.specs.Cbor.Legal.{PairsHaveDistinctKeys};
ghost use Rattle.c2_cbor_spec.specs.Fine.{Fine, FineItems, FinePairs};
ghost use Rattle.c2_spec.specs.Cbor.Unwritable.{HasEqualKeys, ItemsHaveEqualKeys};
ghost use Rattle.c2_spec.specs.Cbor.Unwritable.{PairsHaveEqualKeys};

use c2_base::NoMemory;
use c2_cbor_heads::first_equal;
use c2_spec::Cbor;
use std::alloc::Global;

#[cycle(equal)]
pub fn has_equal_keys(alloc: Global, item: &Cbor) -> Result<bool, NoMemory>
    ensures yes { IfOk result (λ b. Fine (view item.now)
        → IsTrue b → HasEqualKeys (view item.now)) }
    ensures no { IfOk result (λ b. Fine (view item.now)
        → b ≡ false → HasDistinctKeys (view item.now)) }
{
    match item {
        Cbor::List(items) => {
            let found = items_equal(alloc, items)?;
            Ok(found)
        }
        Cbor::Map(pairs) => {
            let found = pairs_equal(alloc, pairs)?;
            Ok(found)
        }
        Cbor::Tag(_, inner) => {
            let found = has_equal_keys(alloc, inner)?;
            Ok(found)
        }
        _ => Ok(false),
    }
}

#[cycle(equal)]
fn items_equal(alloc: Global, items: &[Cbor]) -> Result<bool, NoMemory>
    ensures yes { IfOk result (λ b. FineItems (items_view items.now)
        → IsTrue b → ItemsHaveEqualKeys (items_view items.now)) }
    ensures no { IfOk result (λ b. FineItems (items_view items.now)
        → b ≡ false → ItemsHaveDistinctKeys (items_view items.now)) }
{
    for item in items {
        if has_equal_keys(alloc, item)? {
            return Ok(true);
        }
    }
    Ok(false)
}

#[cycle(equal)]
fn pairs_equal(alloc: Global, pairs: &[(Cbor, Cbor)]) -> Result<bool, NoMemory>
    ensures yes { IfOk result (λ b. FinePairs (pairs_view pairs.now)
        → IsTrue b → PairsHaveEqualKeys (pairs_view pairs.now)) }
    ensures no { IfOk result (λ b. FinePairs (pairs_view pairs.now)
        → b ≡ false → PairsHaveDistinctKeys (pairs_view pairs.now)) }
{
    for pair in pairs {
        if has_equal_keys(alloc, &pair.0)? {
            return Ok(true);
        }
        if has_equal_keys(alloc, &pair.1)? {
            return Ok(true);
        }
    }
    let at = first_equal(alloc, pairs)?;
    Ok(at.is_some())
}
