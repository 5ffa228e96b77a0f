//! Whether an item is plain.

ghost use Rattle.std.specs.Prelude.{◌≡◌, ◌↔◌, true, IfOk};
ghost use Rattle.c2_spec.specs.Cbor.View.{view};
ghost use Rattle.c2_spec.specs.Cbor.Plain.{IsPlain};

use crate::checks::{is_deeper, is_fine};
use crate::deterministic::deterministic_bytes;
use c2_base::NoMemory;
use c2_base::limits::MAX_CBOR_DEPTH;
use c2_spec::Cbor;
use std::alloc::Global;

/// Whether the item is legal, and no map in it has two keys with the same deterministic bytes: then what is written of it is
/// read again, and else not.
pub fn is_plain(alloc: Global, item: &Cbor) -> Result<bool, NoMemory>
    ensures { IfOk result (λ b. (b ≡ true) ↔ IsPlain (view item.now)) }
{
    if !is_fine(item) || is_deeper(item, MAX_CBOR_DEPTH) {
        return Ok(false);
    }
    let (_bytes, is_plain) = deterministic_bytes(alloc, item)?;
    Ok(is_plain)
}
