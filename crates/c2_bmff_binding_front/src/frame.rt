// The box of a new store, before the store is there.
ghost use Rattle.std.specs.Prelude.{◌≡◌, ◌≤◌, IfOk, replicate};
ghost use Rattle.std.specs.Int.{to_be_bytes};
ghost use Rattle.c2_base.specs.declared.limits.TheConstants.{MAX_STORE_LEN};
ghost use Rattle.c2_spec.specs.Bmff.Boxes.{box_bytes};
ghost use Rattle.c2_spec.specs.Bmff.Writing.{c2pa_box};

use c2_base::NoMemory;
use std::alloc::Global;

/// How many bytes the C2PA box of a store has before the store.
pub const FRAME_LEN: u64 = 45;

// What stands in the box between its size and the store: the type, the user type of C2PA, version and flags 0, the purpose, and no Merkle
// box.
const FRAME: [u8; 41] =
    *b"uuid\xD8\xFE\xC3\xD6\x1B\x0E\x48\x3C\x92\x97\x58\x28\x87\x7E\xC4\x81\0\0\0\0manifest\0\0\0\0\0\0\0\0\0";

/// The C2PA box of a store of zero bytes, as many as are told.
pub(crate) fn blank_box(alloc: Global, store_len: u64) -> Result<Vec<u8>, NoMemory>
    requires { store_len ≤ MAX_STORE_LEN }
    ensures { IfOk result (λ v. v.items ≡ box_bytes (c2pa_box (replicate store_len 0))) }
{
    let len = (FRAME_LEN + store_len) as usize;
    let mut bytes = Vec::with_capacity(alloc, len)?;
    bytes.extend_from_slice(&(len as u32).to_be_bytes())?;
    bytes.extend_from_slice(&FRAME)?;
    bytes.resize(len, 0)?;
    Ok(bytes)
}
