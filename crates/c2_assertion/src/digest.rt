// Reading the digest of a hash.
ghost use Rattle.std.specs.Prelude.{◌≡◌, IfOk};
ghost use Rattle.c2_spec.specs.Cbor.View.{view};
ghost use Rattle.c2_assertion.specs.Reading.{digest_of};

use c2_base::{Blob, NoMemory, Text};
use c2_spec::Cbor;
use std::alloc::Global;

/// A digest, with its algorithm where one is named.
#[derive(Drop)]
pub struct Digest {
    pub alg: Option<Text>,
    pub hash: Blob,
}

/// The digest that an item states; None where one of its two fields hasn't its form.
pub(crate) fn digest_in(alloc: Global, item: &Cbor) -> Result<Option<Digest>, NoMemory>
    ensures { IfOk result (λ found. found ≡ digest_of (view item.now)) }
{
    let Some(alg) = c2_cbor_fields::optional_text(alloc, item, "alg")? else {
        return Ok(None);
    };
    let Some(hash) = c2_cbor_fields::byte_string(alloc, item, "hash")? else {
        return Ok(None);
    };
    Ok(Some(Digest { alg, hash }))
}
