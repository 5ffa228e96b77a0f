// The digest of what the exclusions of a new BMFF hash leave of a file.
ghost use Rattle.std.specs.Prelude.{◌≡◌, ◌<◌, List, All, IfErr, IfOk, OnOk, length};
ghost use Rattle.std.specs.Option.{ForSome};
ghost use Rattle.c2_base.specs.Source.{StaysSource};
ghost use Rattle.c2_bmff_rows.specs.Rows.{IsBoxWithin, rows_of};
ghost use Rattle.c2_cover.specs.BmffCovers.{IsBmffCoverOf};
ghost use Rattle.c2_bmff_binding_hash.specs.Causes.{IsBmffHashCause};
ghost use Rattle.c2_spec.specs.Bmff.Boxes.{Box, HasRoots};
ghost use Rattle.c2_spec.specs.Bmff.Writing.{built_exclusions, built_text};
ghost use Rattle.c2_spec.specs.Digest.{digest_len};

use crate::error::{BmffError, bmff_error};
use c2_base::Source;
use c2_bmff::types::Roots;
use c2_bmff_binding_exclusions::new_exclusions;
use c2_cover::{Cover, bmff_cover, digest_cover};
use c2_hash::{Alg, Digest, Hashing};
use std::alloc::Global;

// What the exclusions of a new hash leave of the file with these root boxes.
#[tactic(auto, using(crate::proofs::ErrorLemmas::of_boxes, crate::proofs::ErrorLemmas::same_cause))]
fn new_bmff_cover<S: Source>(
    alloc: Global,
    source: &mut S,
    roots: &Roots,
) -> Result<Cover, BmffError>
    requires inside { All (IsBoxWithin (S.len source.old)) roots.now }
    ensures cover { IfOk result (λ c. ForSome (S.known source.old) (λ file.
        IsBmffCoverOf file roots.now built_exclusions c)) }
    ensures size { IfOk result (λ c. c.size ≡ S.len source.old) }
    ensures stays { StaysSource S.len S.known S.faults source.old source.new }
    ensures count { OnOk result (S.faults source.new ≡ S.faults source.old) }
    ensures cause { IfErr result (IsBmffHashCause (S.faults source.old) (S.faults source.new)) }
{
    let exclusions = new_exclusions(alloc)?;
    match bmff_cover(alloc, source, roots, exclusions.as_slice()) {
        Ok(cover) => Ok(cover),
        Err(error) => Err(bmff_error(error)),
    }
}

/// The digest by this algorithm of what the exclusions of a new hash leave of a BMFF file with these root boxes, read through a buffer that isn't
/// empty. It is the same with the new store and without, so the hash can be made before the store is.
///
/// [`BmffError::ReadFault`] comes only where the source failed, [`BmffError::NoMemory`] where memory ran out. Takes 16 bytes for each root
/// box, and no more for a larger file.
pub fn bmff_digest<S: Source, H: Hashing>(
    alloc: Global,
    hashing: &H,
    alg: Alg,
    source: &mut S,
    roots: &Roots,
    buf: &mut [u8],
) -> Result<Digest, BmffError>
    requires inside { All (IsBoxWithin (S.len source.old)) roots.now }
    requires room { 0 < length buf.old }
    ensures digest { IfOk result (λ d. ForSome (S.known source.old) (λ file. (boxes : List Box)
        → HasRoots file boxes → roots.now ≡ rows_of boxes
        → d ≡ H.digest_of alg (built_text boxes))) }
    ensures len { IfOk result (λ d. length d ≡ digest_len alg) }
    ensures cause { IfErr result (IsBmffHashCause (S.faults source.old) (S.faults source.new)) }
    ensures count { OnOk result (S.faults source.new ≡ S.faults source.old) }
    ensures stays { StaysSource S.len S.known S.faults source.old source.new }
{
    let cover = new_bmff_cover(alloc, source, roots)?;
    let digest = digest_cover(hashing, source, &cover, alg, buf)?;
    Ok(digest)
}
