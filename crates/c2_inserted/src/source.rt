// A file with a piece put in, as a source.
ghost use Rattle.std.specs.Prelude.{◌≡◌, ◌+◌, ◌<◌, ◌≤◌, ◌^◌, ℕ, List, None, All, length};
ghost use Rattle.std.specs.Prelude.{option_map, IfOk};
ghost use Rattle.std.specs.declared.option.Option.{Option};
ghost use Rattle.c2_base.specs.Causes.{HasCause};
ghost use Rattle.c2_base.specs.Source.{IsReadCount, ReadsAt, StaysSource};
ghost use Rattle.c2_spec.specs.PutIn.{put_in};

use c2_base::{Failed, Source};
use std::marker::{Brand, PhantomData};

/// What is known of a borrow of a source that a piece is put into. Callers choose it, and no code reads it.
pub trait NamedPiece {
    // the borrow's name
    ghost name: { ℕ };

    // the source's length
    ghost len: { ℕ };

    // the source's bytes, where they are known
    ghost known: { Option (List ℕ) };
}

impl NamedPiece for Brand {
    ghost name = { 0 };

    ghost len = { 0 };

    ghost known = { None };
}

/// A file with a piece put in at `place`, over the file as it is. Its borrow is the one of which `K` tells, so that who lends it to a
/// call knows afterwards that it still is over this file, and that the file is as it was: [`Inserted::into_base`] gives it back.
#[derive(Drop)]
pub struct Inserted<'m, S: Source, K: NamedPiece> {
    /// The file as it is.
    pub base: &'m mut S,
    /// The place in the file where the piece is put in, in bytes.
    pub place: u64,
    /// The piece.
    pub piece: &'m [u8],
    /// What is known of the borrow.
    pub of: PhantomData<K>,
    ghost same: { base.ghost_name ≡ K.name },
    ghost same_len: { S.len base.now ≡ K.len },
    ghost same_bytes: { S.known base.now ≡ K.known },
    ghost inside: { place ≤ K.len },
    ghost room: { K.len + length piece.now < 2 ^ 64 },
    ghost are_bytes: { All (λ b. b < 2 ^ 8) piece.now },
}

// Reads bytes of a file with a piece put in.
fn read_inserted<S: Source>(
    base: &mut S,
    place: u64,
    piece: &[u8],
    pos: u64,
    buf: &mut [u8],
) -> Result<usize, Failed>
    requires inside { place ≤ S.len base.old }
    requires room { S.len base.old + length piece.now < 2 ^ 64 }
    ensures stays { StaysSource S.len S.known S.faults base.old base.new }
    ensures cause { HasCause (S.faults base.old) (S.faults base.new) result }
    ensures count { IfOk result
        (IsReadCount (S.len base.old + length piece.now) pos (length buf.old)) }
    ensures bytes { IfOk result (λ n. ReadsAt
        (option_map (put_in place piece.now) (S.known base.old)) pos n buf.old buf.new) }
{
    let len = piece.len() as u64;
    if pos < place {
        let room = (place - pos).min(buf.len() as u64) as usize;
        let count = base.read_at(pos, &mut buf[..room])?;
        return Ok(count);
    }
    if pos < place + len {
        let rest = &piece[(pos - place) as usize..];
        let count = rest.len().min(buf.len());
        buf[..count].copy_from_slice(&rest[..count]);
        return Ok(count);
    }
    let count = base.read_at(pos - len, buf)?;
    Ok(count)
}

impl<'m, S: Source, K: NamedPiece> Inserted<'m, S, K> {
    /// This file with the piece put in at a place in it or at its end; both together are no longer than a source may be. Takes no memory.
    pub fn new(base: &'m mut S, place: u64, piece: &'m [u8]) -> Inserted<'m, S, K>
        requires name { base.ghost_name ≡ K.name }
        requires len { S.len base.old ≡ K.len }
        requires known { S.known base.old ≡ K.known }
        requires inside { place ≤ S.len base.old }
        requires room { S.len base.old + length piece.now < 2 ^ 64 }
        ensures base { result.base.now ≡ base.old }
        ensures place { result.place ≡ place }
        ensures piece { result.piece.now ≡ piece.now }
    {
        Inserted {
            base,
            place,
            piece,
            of: PhantomData,
        }
    }

    /// The file as it is. Takes no memory.
    pub fn into_base(self) -> &'m mut S
        ensures same { result.ghost_name ≡ K.name }
        ensures len { S.len result.now ≡ K.len }
        ensures known { S.known result.now ≡ K.known }
        ensures base { result.now ≡ self.entry.base.now }
    {
        let Inserted {
            base,
            place: _,
            piece: _,
            of: _,
        } = self;
        base
    }
}

impl<'m, S: Source, K: NamedPiece> Source for Inserted<'m, S, K> {
    ghost use Rattle.std.specs.Prelude.{◌+◌, length, option_map};
    ghost use Rattle.c2_spec.specs.PutIn.{put_in};
    ghost use Rattle.c2_inserted.specs.Lengths.{put_in_bytes, put_in_fits, put_in_size};

    ghost len = { λ s. S.len s.base.now + length s.piece.now };

    ghost known = { λ s. option_map (put_in s.place s.piece.now) (S.known s.base.now) };

    ghost faults = { λ s. S.faults s.base.now };

    ghost known_len = { λ s. put_in_size s.place s.piece.now (S.known s.base.now)
        (S.len s.base.now) (S.known_len s.base.now) };

    ghost known_bytes = { λ s. put_in_bytes s.place s.piece.now (S.known s.base.now)
        s.are_bytes (S.known_bytes s.base.now) };

    ghost fits = { λ s. put_in_fits K.len (S.len s.base.now) s.piece.now s.same_len s.room };

    fn size(&mut self) -> Result<u64, Failed> {
        let len = self.base.size()?;
        Ok(len + self.piece.len() as u64)
    }

    fn read_at(&mut self, pos: u64, buf: &mut [u8]) -> Result<usize, Failed> {
        read_inserted(self.base, self.place, self.piece, pos, buf)
    }
}
