// The digest of what the exclusions of a new hash leave of the file with its new store.
ghost use Rattle.std.specs.Prelude.{◌≡◌, ◌+◌, ◌<◌, IfErr, IfOk, length, option_map};
ghost use Rattle.std.specs.Option.{ForSome};
ghost use Rattle.c2_base.specs.Source.{ReadsSource};
ghost use Rattle.c2_bmff_boxes.specs.Causes.{IsBmffCaused};
ghost use Rattle.c2_spec.specs.Digest.{digest_len};
ghost use Rattle.c2_spec.specs.PutIn.{put_in};
ghost use Rattle.c2_bmff_binding_front.specs.Digests.{IsFileDigest, IsRootsDigest, IsUnrefused};
ghost use Rattle.c2_bmff_binding_front.specs.Putting.{FitsIn, FitsMoved, FitsPiece, moved};
ghost use Rattle.c2_bmff_binding_front.specs.Putting.{with_blank};

use crate::Front;
use crate::frame::{FRAME_LEN, blank_box};
use c2_base::{MediaError, NoMemory, Source};
use c2_bmff_binding_hash::{BmffError, bmff_digest};
use c2_bmff_boxes::roots;
use c2_hash::{Alg, Digest, Hashing};
use c2_inserted::{Inserted, NamedPiece};
use c2_shift::{NamedTables, Shifted};
use std::alloc::Global;
use std::marker::Brand;

// What digests are made with.
#[derive(Drop)]
struct Digesting<'h, H> {
    alloc: Global,
    hashing: &'h H,
    alg: Alg,
}

impl<'h, H: Hashing> Digesting<'h, H> {
    // The digest of what the exclusions leave of a file, which is read through a buffer that isn't empty.
    fn of_file<S: Source>(&self, file: &mut S, buf: &mut [u8]) -> Result<Digest, MediaError>
        requires { 0 < length buf.old }
        ensures digest { IsFileDigest H.digest_of self.now.alg (S.known file.old) result }
        ensures reads { ReadsSource S.len S.known S.faults IsBmffCaused file.old file.new result }
    {
        // Matched and not handed up by `?`, here and below: each way out has clauses of its own.
        let roots = match roots(self.alloc, file) {
            Ok(roots) => roots,
            Err(error) => return Err(error),
        };
        match bmff_digest(self.alloc, self.hashing, self.alg, file, &roots, buf) {
            Ok(digest) => Ok(digest),
            Err(BmffError::ReadFault) => Err(MediaError::ReadFault),
            Err(BmffError::NoMemory) => Err(MediaError::NoMemory),
        }
    }

    // Puts into `found` the digest over a file, of which this is known, with a piece put in, and gives the file back.
    fn over_named<'m, B: Source, K: NamedPiece>(
        &self,
        base: &'m mut B,
        place: u64,
        piece: &'m [u8],
        buf: &mut [u8],
        found: &mut Result<Digest, MediaError>,
    ) -> &'m mut B
        requires name { base.ghost_name ≡ K.name }
        requires len { B.len base.old ≡ K.len }
        requires known { B.known base.old ≡ K.known }
        requires fits { FitsPiece (B.len base.old) place piece.now }
        requires room { 0 < length buf.old }
        ensures same { result.ghost_name ≡ base.entry.ghost_name }
        ensures digest { IsFileDigest H.digest_of self.now.alg
            (option_map (put_in place piece.now) (B.known base.old)) found.new }
        ensures reads { ReadsSource B.len B.known B.faults IsBmffCaused
            base.old result.now found.new }
    {
        let mut file = Inserted::<B, K>::new(base, place, piece);
        *found = self.of_file(&mut file, buf);
        file.into_base()
    }

    // The digest over a file with a piece put in.
    fn over<B: Source>(
        &self,
        base: &mut B,
        place: u64,
        piece: &[u8],
        buf: &mut [u8],
    ) -> Result<Digest, MediaError>
        requires fits { FitsPiece (B.len base.old) place piece.now }
        requires room { 0 < length buf.old }
        ensures digest { IsFileDigest H.digest_of self.now.alg
            (option_map (put_in place piece.now) (B.known base.old)) result }
        ensures reads { ReadsSource B.len B.known B.faults IsBmffCaused base.old base.new result }
    {
        let mut found = Err(MediaError::NoMemory);
        let _base = self.over_named::<B, Brand>(base, place, piece, buf, &mut found);
        found
    }

    // Puts into `found` the digest over a file, of which this is known, with moved places and a piece put in, and gives the file back.
    fn moved_named<'m, A: Source, K: NamedTables>(
        &self,
        media: &'m mut A,
        front: &'m Front,
        piece: &[u8],
        buf: &mut [u8],
        found: &mut Result<Digest, MediaError>,
    ) -> &'m mut A
        requires name { media.ghost_name ≡ K.name }
        requires len { A.len media.old ≡ K.len }
        requires known { A.known media.old ≡ K.known }
        requires fits { FitsMoved (A.len media.old) front.now piece.now }
        requires room { 0 < length buf.old }
        ensures same { result.ghost_name ≡ media.entry.ghost_name }
        ensures digest { IsFileDigest H.digest_of self.now.alg (option_map
            (put_in front.now.place piece.now) (option_map (moved front.now) (A.known media.old)))
            found.new }
        ensures reads { ReadsSource A.len A.known A.faults IsBmffCaused
            media.old result.now found.new }
    {
        let moves = FRAME_LEN + front.store_len;
        let mut base = Shifted::<A, K>::new(media, &front.tables, front.place, moves);
        *found = self.over(&mut base, front.place, piece, buf);
        base.into_media()
    }

    // The digest over a file with moved places and a piece put in.
    fn moved<A: Source>(
        &self,
        media: &mut A,
        front: &Front,
        piece: &[u8],
        buf: &mut [u8],
    ) -> Result<Digest, MediaError>
        requires fits { FitsMoved (A.len media.old) front.now piece.now }
        requires room { 0 < length buf.old }
        ensures digest { IsFileDigest H.digest_of self.now.alg (option_map
            (put_in front.now.place piece.now) (option_map (moved front.now) (A.known media.old)))
            result }
        ensures reads { ReadsSource A.len A.known A.faults IsBmffCaused media.old media.new result }
    {
        let mut found = Err(MediaError::NoMemory);
        let _media = self.moved_named::<A, Brand>(media, front, piece, buf, &mut found);
        found
    }
}

/// The digest by this algorithm of what the exclusions of a new hash leave of the file in which a new store is put in front, read through a
/// buffer that isn't empty. Of the new store only its length matters, so the digest is known before the store is.
///
/// Of a file that tells its bytes nothing is refused where its new file has root boxes. [`MediaError::ReadFault`] comes only where the
/// source failed, [`MediaError::NoMemory`] where memory ran out. Takes as many bytes as the box of the new store
/// has, and some for each root box; no more for a larger file.
pub fn front_digest<A: Source, H: Hashing>(
    alloc: Global,
    hashing: &H,
    alg: Alg,
    media: &mut A,
    front: &Front,
    buf: &mut [u8],
) -> Result<Digest, MediaError>
    requires fits { FitsIn (A.len media.old) front.now }
    requires room { 0 < length buf.old }
    ensures digest { IfOk result (λ d. ForSome (A.known media.old) (λ file.
        IsRootsDigest (H.digest_of alg) d (with_blank front.now file))) }
    ensures len { IfOk result (λ d. length d ≡ digest_len alg) }
    ensures refused { IfErr result (λ e. ForSome (A.known media.old) (λ file.
        IsUnrefused e (with_blank front.now file))) }
    ensures reads { ReadsSource A.len A.known A.faults IsBmffCaused media.old media.new result }
{
    let Ok(piece) = blank_box(alloc, front.store_len) else {
        return Err(MediaError::NoMemory);
    };
    let digesting = Digesting {
        alloc,
        hashing,
        alg,
    };
    digesting.moved(media, front, piece.as_slice(), buf)
}
