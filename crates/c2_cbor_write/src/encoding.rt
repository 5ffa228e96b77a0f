//! Writing an item.

ghost use Rattle.std.specs.Prelude.{◌≡◌, ◌++◌, ◌⊎◌, ℕ, List, true, false, length, IfOk, IfErr};
ghost use Rattle.std.specs.Prelude.{IsTrue};
ghost use Rattle.c2_spec.specs.Cbor.View.{view};
ghost use Rattle.c2_spec.specs.Cbor.Legal.{IsLegal, HasDistinctKeys};
ghost use Rattle.c2_spec.specs.Cbor.Deterministic.{sorted, deterministic};
ghost use Rattle.c2_spec.specs.Cbor.Plain.{IsPlain, HasPlainKeys};
ghost use Rattle.c2_spec.specs.Cbor.Unwritable.{IsUnwritable, HasEqualKeys};
ghost use Rattle.c2_spec.specs.Cbor.Answers.{BeginsWith, Succeeds, Refuses};
ghost use Rattle.c2_spec.specs.declared.cbor.EncodeError.{EncodeError as AnyError};
ghost use Rattle.c2_spec.specs.declared.cbor.EncodeError.TheVariants.{DuplicateKey, TooDeep};
ghost use Rattle.c2_spec.specs.declared.cbor.EncodeError.TheVariants.{NoMemory as OutOfMemory};
ghost use Rattle.c2_cbor_spec.specs.Fine.{Fine};

use crate::checks::{is_deeper, is_fine};
use crate::deterministic::deterministic_bytes;
use crate::equal::has_equal_keys;
use c2_base::limits::MAX_CBOR_DEPTH;
use c2_base::{Blob, NoMemory};
use c2_spec::{Cbor, EncodeError};
use std::alloc::Global;

// Whether a map of the item has two equal keys; a plain item has none, and isn't searched.
fn has_equal_keys_unless(alloc: Global, is_plain: bool, item: &Cbor) -> Result<bool, NoMemory>
    requires { is_plain ≡ true → HasPlainKeys (view item.now) }
    ensures yes { IfOk result (λ b. Fine (view item.now)
        → IsTrue b → HasEqualKeys (view item.now)) }
    ensures no { IfOk result (λ b. Fine (view item.now)
        → b ≡ false → HasDistinctKeys (view item.now)) }
{
    if is_plain {
        return Ok(false);
    }
    has_equal_keys(alloc, item)
}

// Of an item that is too deep: equal keys come first.
fn deep_error(alloc: Global, item: &Cbor) -> Result<EncodeError, NoMemory>
    ensures equal { IfOk result (λ e. Fine (view item.now)
        → e ≡ DuplicateKey → HasEqualKeys (view item.now)) }
    ensures deep { IfOk result (λ e. Fine (view item.now)
        → e ≡ TooDeep → HasDistinctKeys (view item.now)) }
    ensures two { IfOk result (λ e. (e ≡ DuplicateKey) ⊎ (e ≡ TooDeep)) }
{
    if has_equal_keys(alloc, item)? {
        return Ok(EncodeError::DuplicateKey);
    }
    Ok(EncodeError::TooDeep)
}

/// The deterministic bytes of a legal item (RFC 8949, section 4.2.1): shortest heads, definite lengths, and each map's pairs
/// sorted by the bytes of their keys. Floats keep their width.
pub fn encode(alloc: Global, item: &Cbor) -> Result<Blob, EncodeError>
    // What is written are the deterministic bytes of a legal item.
    ensures written { IfOk result (λ b. b ≡ deterministic (view item.now)) }
    ensures legal { IfOk result (λ _. IsLegal (view item.now)) }
    // A legal item is written.
    ensures only { IsLegal (view item.now) → Succeeds OutOfMemory result }
    // An error is the first of the three reasons, and that is answered.
    ensures fault { IfErr result (λ e. (e ≡ OutOfMemory) ⊎ IsUnwritable (view item.now) e) }
    ensures refused { (e : AnyError)
        → IsUnwritable (view item.now) e → Refuses OutOfMemory result e }
    // What is written of a plain item is read as that item, sorted, whatever follows.
    ensures again { IfOk result (λ b. IsPlain (view item.now)
        → (r : List ℕ) → BeginsWith (b ++ r) (sorted (view item.now)) (length b)) }
{
    if !is_fine(item) {
        return Err(EncodeError::BadSimple);
    }
    if is_deeper(item, MAX_CBOR_DEPTH) {
        return Err(deep_error(alloc, item)?);
    }
    let (bytes, is_plain) = deterministic_bytes(alloc, item)?;
    if has_equal_keys_unless(alloc, is_plain, item)? {
        return Err(EncodeError::DuplicateKey);
    }
    Ok(Blob::from_vec(bytes))
}
