// The parts of the new manifest over a media file.
ghost use Rattle.std.specs.Prelude.{◌≡◌, ◌+◌, ◌<◌, IfErr, IfOk, length, option_map, ℕ};
ghost use Rattle.c2_base.specs.Source.{ReadsSource};
ghost use Rattle.c2_without_store.specs.Clears.{cleared, cleared_len};
ghost use Rattle.c2_spec.specs.Digest.{digest_len};
ghost use Rattle.c2_definition.specs.DefinitionFile.{IsWellFormed};
ghost use Rattle.c2_layout.specs.Parts.{AreParts, IsContent, parts_size};
ghost use Rattle.c2_new_file_spec.specs.Store.{Content, new_alg};
ghost use Rattle.c2_build_parts.specs.Bound.{AreNewParts, IsBoundDigest, IsOverBase, IsSmall};
ghost use Rattle.c2_build_parts.specs.Bound.{point_binding, point_store_len};
ghost use Rattle.c2_build_refusals.specs.Kinds.{IsReadCause, SaysNothing};

use crate::digesting::hash_all;
use c2_base::{Failed, NoMemory, Range, Source};
use c2_bmff_binding::new_bmff_binding;
use c2_bmff_binding_hash::{BmffError, bmff_digest};
use c2_build_refusals::{BuildError, Drafted, InsertPoint};
use c2_definition::{Definition, NewAssertion};
use c2_hash::{Alg, Digest, Hashing};
use c2_layout::{NewParts, bound_parts, data_binding};
use c2_without_store::{Clearing, Named, WithoutStore};
use std::alloc::Global;
use std::marker::Brand;

/// What a new binding binds of a media file, and how it is digested.
#[derive(Clone, Copy, Debug)]
pub struct Bound<'d> {
    /// How the media file is cleared of its older store.
    pub clearing: Clearing,

    /// The place of the new store in what is left.
    pub point: &'d InsertPoint,

    /// How many bytes are left.
    pub size: u64,

    /// The algorithm of the digest.
    pub alg: Alg,
}

// The digest of what is bound of a base, which is read through a buffer that isn't empty.
fn digest_of<B: Source, H: Hashing>(
    alloc: Global,
    hashing: &H,
    base: &mut B,
    bound: &Bound<'_>,
    buf: &mut [u8],
) -> Result<Digest, BuildError>
    requires over { IsOverBase (B.len base.old) bound.now }
    requires room { 0 < length buf.old }
    ensures digest { IsBoundDigest H.digest_of bound.now.alg bound.now.point.now
        (B.known base.old) result }
    ensures reads { ReadsSource B.len B.known B.faults IsReadCause base.old base.new result }
{
    let alg = bound.alg;
    match bound.point {
        InsertPoint::Segments { .. } => match hash_all(hashing, alg, base, bound.size, buf) {
            Ok(digest) => Ok(digest),
            Err(Failed) => Err(BuildError::ReadFault),
        },
        InsertPoint::Boxes(roots) => match bmff_digest(alloc, hashing, alg, base, roots, buf) {
            Ok(digest) => Ok(digest),
            Err(BmffError::ReadFault) => Err(BuildError::ReadFault),
            Err(BmffError::NoMemory) => Err(BuildError::NoMemory),
        },
    }
}

// Puts the digest of what is bound of what is left into `found`, of a media file of which this is known, and gives the file back.
fn digest_left<'m, A: Source, K: Named, H: Hashing>(
    alloc: Global,
    hashing: &H,
    media: &'m mut A,
    bound: &Bound<'_>,
    buf: &mut [u8],
    found: &mut Result<Digest, BuildError>,
) -> &'m mut A
    requires name { media.ghost_name ≡ K.name }
    requires len { A.len media.old ≡ K.len }
    requires known { A.known media.old ≡ K.known }
    requires over { IsOverBase (cleared_len bound.now.clearing (A.len media.old)) bound.now }
    requires room { 0 < length buf.old }
    ensures same { result.ghost_name ≡ media.entry.ghost_name }
    ensures digest { IsBoundDigest H.digest_of bound.now.alg bound.now.point.now
        (option_map (cleared bound.now.clearing) (A.known media.old)) found.new }
    ensures reads { ReadsSource A.len A.known A.faults IsReadCause media.old result.now found.new }
{
    let mut base = WithoutStore::<A, K>::new(media, bound.clearing);
    *found = digest_of(alloc, hashing, &mut base, bound, buf);
    base.into_media()
}

/// The digest of what is bound of what is left of a media file, which is read through a buffer that isn't empty: of all of it in a JPEG file, and
/// of what the binding of a film covers in a BMFF file. `ReadFault` comes only where the file's count of faults rose in this call, and `NoMemory`
/// where memory ran out.
pub fn bound_digest<A: Source, H: Hashing>(
    alloc: Global,
    hashing: &H,
    media: &mut A,
    bound: &Bound<'_>,
    buf: &mut [u8],
) -> Result<Digest, BuildError>
    requires over { IsOverBase (cleared_len bound.now.clearing (A.len media.old)) bound.now }
    requires room { 0 < length buf.old }
    ensures digest { IsBoundDigest H.digest_of bound.now.alg bound.now.point.now
        (option_map (cleared bound.now.clearing) (A.known media.old)) result }
    ensures reads { ReadsSource A.len A.known A.faults IsReadCause media.old media.new result }
{
    let mut found = Err(BuildError::NoMemory);
    let _media = digest_left::<A, Brand, H>(alloc, hashing, media, bound, buf, &mut found);
    found
}

/// The new binding at this place, to a file outside this range, by this digest by an algorithm. It names the range in a JPEG file alone.
/// `NoMemory` comes where memory ran out.
pub fn binding_at(
    alloc: Global,
    alg: Alg,
    point: &InsertPoint,
    range: Range,
    digest: &Digest,
) -> Result<NewAssertion, NoMemory>
    ensures { IfOk result (λ a. a
        ≡ point_binding alg point.now range.start range.length digest.now) }
{
    match point {
        InsertPoint::Segments { .. } => data_binding(alloc, alg, range, digest.as_slice()),
        InsertPoint::Boxes(_) => new_bmff_binding(alloc, alg, digest.as_slice()),
    }
}

// The parts of the new manifest with this digest of what its binding binds.
fn parts_with<H: Hashing>(
    alloc: Global,
    hashing: &H,
    definition: &Definition,
    drafted: &Drafted,
    digest: &Digest,
) -> Result<NewParts, NoMemory>
    requires formed { IsWellFormed definition.now }
    requires small { (len : ℕ) × IsSmall (H.digest_of (new_alg definition.now)) len definition.now
        drafted.now }
    requires digest { length digest.now ≡ digest_len (new_alg definition.now) }
    ensures parts { IfOk result (λ p. (c : Content)
        → IsContent (H.digest_of (new_alg definition.now)) definition.now drafted.now.ground.carried
        c
        → AreParts (H.digest_of (new_alg definition.now)) c (point_binding (new_alg definition.now)
        drafted.now.point
        drafted.now.draft.start drafted.now.draft.length digest.now) p) }
    ensures size { IfOk result (λ p. (c : Content)
        → IsContent (H.digest_of (new_alg definition.now)) definition.now drafted.now.ground.carried
        c
        → length drafted.now.ground.carried.boxes
        + parts_size definition.now.label p definition.now.reserve
        ≡ point_store_len drafted.now.point c) }
{
    let range = Range {
        start: drafted.draft.start,
        length: drafted.draft.length,
    };
    let binding = binding_at(alloc, definition.alg, &drafted.point, range, digest)?;
    let carried = &drafted.ground.carried;
    bound_parts(alloc, hashing, definition, carried, &binding)
}

/// The parts of a new manifest over a media file, whose base is digested through a buffer that isn't empty. `ReadFault` comes only where the
/// file's count of faults rose in this call, and `NoMemory` where memory ran out.
pub fn parts_for<A: Source, H: Hashing>(
    alloc: Global,
    hashing: &H,
    media: &mut A,
    definition: &Definition,
    drafted: &Drafted,
    buf: &mut [u8],
) -> Result<NewParts, BuildError>
    requires formed { IsWellFormed definition.now }
    requires small { IsSmall (H.digest_of (new_alg definition.now))
        (cleared_len drafted.now.ground.clearing (A.len media.old)) definition.now drafted.now }
    requires room { 0 < length buf.old }
    ensures parts { IfOk result (AreNewParts (H.digest_of (new_alg definition.now))
        (option_map (cleared drafted.now.ground.clearing) (A.known media.old))
        definition.now drafted.now) }
    ensures size { IfOk result (λ p. (c : Content)
        → IsContent (H.digest_of (new_alg definition.now)) definition.now drafted.now.ground.carried
        c
        → length drafted.now.ground.carried.boxes
        + parts_size definition.now.label p definition.now.reserve
        ≡ point_store_len drafted.now.point c) }
    ensures nothing { IfErr result SaysNothing }
    ensures reads { ReadsSource A.len A.known A.faults IsReadCause media.old media.new result }
{
    // Matched and not handed up by `?`: each way out has clauses of its own.
    let bound = Bound {
        clearing: drafted.ground.clearing,
        point: &drafted.point,
        size: drafted.draft.size,
        alg: definition.alg,
    };
    let digest = match bound_digest(alloc, hashing, media, &bound, buf) {
        Ok(digest) => digest,
        Err(error) => return Err(error),
    };
    match parts_with(alloc, hashing, definition, drafted, &digest) {
        Ok(parts) => Ok(parts),
        Err(NoMemory) => Err(BuildError::NoMemory),
    }
}
