// A message as an item, with its tag.
ghost use Rattle.std.specs.Prelude.{◌≡◌, ◌↔◌, true, IfOk};
ghost use Rattle.c2_spec.specs.Cbor.View.{view};
ghost use Rattle.c2_spec.specs.C2pa.Sign1.{parts_of};
ghost use Rattle.c2_spec.specs.C2pa.Message.{tagged_message, IsPlainMessage};

use crate::Sign1;
use crate::message::SIGN1_TAG;
use c2_base::{Blob, NoMemory};
use c2_cbor_write::copy;
use c2_spec::Cbor;
use std::alloc::Global;

// The item of the message with the tag 18, and with this header for its unprotected one.
pub fn tagged_item(alloc: Global, sign: &Sign1, unprotected: Cbor) -> Result<Cbor, NoMemory>
    ensures { IfOk result (λ x. view x ≡ tagged_message (record {
      protected = sign.now.protected;
      unprotected = view unprotected;
      signature = sign.now.signature;
    })) }
{
    let protected = Blob::copied(alloc, sign.protected.as_slice())?;
    let signature = Blob::copied(alloc, sign.signature.as_slice())?;
    let items = vec![in alloc;
        Cbor::Bytes(protected),
        unprotected,
        Cbor::Simple(22),
        Cbor::Bytes(signature),
    ]?;
    Ok(Cbor::Tag(SIGN1_TAG, Box::new(alloc, Cbor::List(items))?))
}

/// Whether the message with the tag 18 is plain: whether what is written of it is read as the same message.
pub fn is_plain(alloc: Global, sign: &Sign1) -> Result<bool, NoMemory>
    ensures { IfOk result (λ b. (b ≡ true) ↔ IsPlainMessage (parts_of sign.now)) }
{
    let unprotected = copy(alloc, &sign.unprotected)?;
    let item = tagged_item(alloc, sign, unprotected)?;
    c2_cbor_write::is_plain(alloc, &item)
}
