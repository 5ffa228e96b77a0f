// The redactions of a claim.
ghost use Rattle.std.specs.Prelude.{◌≡◌, IfOk};
ghost use Rattle.c2_claim.specs.Apart.{redactions_of};
ghost use Rattle.c2_spec.specs.Cbor.View.{view};

use c2_base::{NoMemory, Texts};
use c2_spec::Cbor;
use std::alloc::Global;

/// The redactions of a claim: the texts that are held apart from its item, and else those under `redacted_assertions`, none where
/// that is absent. None where something else stands there.
pub fn redactions(
    alloc: Global,
    item: &Cbor,
    texts: Option<Texts>,
) -> Result<Option<Texts>, NoMemory>
    ensures { IfOk result (λ found. found ≡ redactions_of (view item.now) texts) }
{
    match texts {
        Some(texts) => Ok(Some(texts)),
        None => c2_cbor_fields::optional_texts(alloc, item, "redacted_assertions"),
    }
}
