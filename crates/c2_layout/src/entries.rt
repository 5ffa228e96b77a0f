// References of a claim to the assertions of its own manifest.
ghost use Rattle.std.specs.Prelude.{◌≡◌, IfOk};
ghost use Rattle.c2_new_file_spec.specs.Store as store;

use c2_base::{Blob, NoMemory};
use c2_spec::Ref;
use c2_uri::{Target, Uri, text};
use std::alloc::Global;

/// The reference to the assertion with this label in its own manifest, by the digest of its box's contents.
pub fn own_ref(alloc: Global, label: &str, digest: &[u8]) -> Result<Ref, NoMemory>
    ensures { IfOk result (λ r. r ≡ store.own_ref label.now digest.now) }
{
    let uri = Uri {
        manifest: None,
        target: Target::Assertion(label),
    };
    Ok(Ref {
        url: text(alloc, &uri)?,
        hash: Blob::copied(alloc, digest)?,
        alg: None,
    })
}
