// The parent of a new manifest.
ghost use Rattle.std.specs.Prelude.{◌≡◌, ◌<◌, ◌-◌, [], IfOk, IfSome, Some};
ghost use Rattle.std.specs.Option.{option_map_or};
ghost use Rattle.c2_spec.specs.C2pa.Manifest.{IsStoreOf};
ghost use Rattle.c2_spec.specs.Jumbf.Boxes.{tree_count, box_at, any_contents};
ghost use Rattle.c2_new_file_spec.specs.Manifests.{supers_in};
ghost use Rattle.c2_new_file_spec.specs.Redacting.{boxes_in, redacted_boxes};
ghost use Rattle.c2_parent.specs.Boxes.{redacted_any};
ghost use Rattle.c2_parent.specs.Parents.{HasParent};

use crate::carried::{Redactions, append_redacted_contents};
use crate::manifests::name_of;
use c2_base::NoMemory;
use c2_hash::{Alg, Digest, Hashing, digest_of};
use c2_jumbf::{Tree, contents};
use c2_store::{Store, manifest_count, signature, whole};
use std::alloc::Global;

/// The parent of a new manifest, as references name it: its label, and the digests of its contents and of the contents of its
/// signature box, both by the algorithm of the new manifest.
#[derive(Drop)]
pub struct ParentDigests<'t> {
    pub label: &'t str,
    pub contents: Digest,
    pub signed: Digest,
}

/// The digest by this algorithm of what is behind the header of a manifest less what is redacted of it.
fn contents_digest<'u, H: Hashing>(
    alloc: Global,
    hashing: &H,
    alg: Alg,
    tree: &'u Tree<'_>,
    i: usize,
    redactions: &Redactions<'u>,
) -> Result<Digest, NoMemory>
    requires { i < tree_count tree.now }
    ensures { IfOk result (λ d. d ≡ H.digest_of alg
        (any_contents (redacted_any redactions.now (box_at tree.now i).box))) }
{
    let mut out = Vec::with_capacity(alloc, contents(tree, i).len())?;
    append_redacted_contents(&mut out, tree, i, redactions)?;
    Ok(digest_of(hashing, alg, out.as_slice()))
}

/// The digest by this algorithm of the contents of a signature box; that of nothing where there is no such box.
fn signature_digest<H: Hashing>(
    hashing: &H,
    alg: Alg,
    tree: &Tree<'_>,
    sign: Option<usize>,
) -> Digest
    requires { IfSome sign (λ i. i < tree_count tree.now) }
    ensures { result ≡ H.digest_of alg
        (option_map_or (λ i. any_contents (box_at tree.now i).box) sign []) }
{
    match sign {
        Some(i) => digest_of(hashing, alg, contents(tree, i)),
        None => digest_of(hashing, alg, &[]),
    }
}

/// The parent of a new manifest over this store, by digests by this algorithm: the store's last manifest, as it stands in the new store,
/// less what is redacted of it.
/// Where it has no signature box, `signed` is the digest of nothing. Whatever the store, these are the digests of some parent.
pub fn parent_digests<'u, H: Hashing>(
    alloc: Global,
    hashing: &H,
    alg: Alg,
    tree: &'u Tree<'_>,
    store: &Store,
    redactions: &Redactions<'u>,
) -> Result<ParentDigests<'u>, NoMemory>
    requires { IsStoreOf tree.now store.now }
    ensures { IfOk result (HasParent (H.digest_of alg)
        (supers_in (redacted_boxes redactions.now (boxes_in tree.now)))) }
{
    let last = manifest_count(store) - 1;
    let at = whole(store, last);
    let sign = signature(store, last);
    let label = name_of(tree, at);
    let contents = contents_digest(alloc, hashing, alg, tree, at, redactions)?;
    let signed = signature_digest(hashing, alg, tree, sign);
    Ok(ParentDigests {
        label,
        contents,
        signed,
    })
}
