// A media file with moved places, as a source.
ghost use Rattle.std.specs.Prelude.{◌≡◌, ℕ, List, None, length, option_map, IfOk};
ghost use Rattle.std.specs.declared.option.Option.{Option};
ghost use Rattle.c2_base.specs.Causes.{HasCause};
ghost use Rattle.c2_base.specs.Source.{IsReadCount, ReadsAt, StaysSource};
ghost use Rattle.c2_bmff_chunks.specs.Shifted.{shifted};
ghost use Rattle.c2_bmff_chunks.specs.Tables.{StandApart};
ghost use Rattle.c2_bmff_chunks.proofs.Lengths.{stand_apart_once};

use crate::moving::Shift;
use crate::shifting::put_tables;
use crate::types::Tables;
use c2_base::{Failed, Source};
use std::marker::{Brand, PhantomData};

/// What is known of a borrow of a source in which places are moved. Callers choose it, and no code reads it.
pub trait NamedTables {
    // the borrow's name
    ghost name: { ℕ };

    // the source's length
    ghost len: { ℕ };

    // the source's bytes, where they are known
    ghost known: { Option (List ℕ) };
}

impl NamedTables for Brand {
    ghost name = { 0 };

    ghost len = { 0 };

    ghost known = { None };
}

/// A media file in whose tables the places from `from` on are greater by `by`, over the file as it is. Its borrow is the one of which `K`
/// tells, so that who lends it to a call knows afterwards that it still is over this file, and that the file is as it was:
/// [`Shifted::into_media`] gives it back.
#[derive(Drop)]
pub struct Shifted<'m, S: Source, K: NamedTables> {
    /// The file as it is.
    pub media: &'m mut S,
    /// The chunk tables of the file.
    pub tables: &'m Tables,
    /// Where the places begin that are moved.
    pub from: u64,
    /// How far they are moved.
    pub by: u64,
    /// What is known of the borrow.
    pub of: PhantomData<K>,
    ghost same: { media.ghost_name ≡ K.name },
    ghost same_len: { S.len media.now ≡ K.len },
    ghost same_bytes: { S.known media.now ≡ K.known },
    ghost inside: { StandApart 0 K.len tables.now } by { stand_apart_once 0 K.len tables.now },
}

// Reads bytes of a file with moved places.
fn read_moved<S: Source>(
    source: &mut S,
    tables: &Tables,
    from: u64,
    by: u64,
    pos: u64,
    buf: &mut [u8],
) -> Result<usize, Failed>
    requires inside { StandApart 0 (S.len source.old) tables.now }
    ensures stays { StaysSource S.len S.known S.faults source.old source.new }
    ensures cause { HasCause (S.faults source.old) (S.faults source.new) result }
    ensures count { IfOk result (IsReadCount (S.len source.old) pos (length buf.old)) }
    ensures bytes { IfOk result (λ n. ReadsAt
        (option_map (shifted from by tables.now) (S.known source.old)) pos n buf.old buf.new) }
{
    let count = source.read_at(pos, buf)?;
    if count == 0 {
        return Ok(0);
    }
    let shift = Shift { from, by };
    put_tables(source, tables.as_slice(), &shift, pos, &mut buf[..count])?;
    Ok(count)
}

impl<'m, S: Source, K: NamedTables> Shifted<'m, S, K> {
    /// This file with the places in its tables moved, whose fields lie in it. Takes no memory.
    pub fn new(media: &'m mut S, tables: &'m Tables, from: u64, by: u64) -> Shifted<'m, S, K>
        requires name { media.ghost_name ≡ K.name }
        requires len { S.len media.old ≡ K.len }
        requires known { S.known media.old ≡ K.known }
        requires inside { StandApart 0 (S.len media.old) tables.now }
        ensures media { result.media.now ≡ media.old }
        ensures tables { result.tables.now ≡ tables.now }
        ensures from { result.from ≡ from }
        ensures by { result.by ≡ by }
    {
        Shifted {
            media,
            tables,
            from,
            by,
            of: PhantomData,
        }
    }

    /// The file as it is. Takes no memory.
    pub fn into_media(self) -> &'m mut S
        ensures same { result.ghost_name ≡ K.name }
        ensures len { S.len result.now ≡ K.len }
        ensures known { S.known result.now ≡ K.known }
        ensures media { result.now ≡ self.entry.media.now }
    {
        let Shifted {
            media,
            tables: _,
            from: _,
            by: _,
            of: _,
        } = self;
        media
    }
}

impl<'m, S: Source, K: NamedTables> Source for Shifted<'m, S, K> {
    ghost use Rattle.std.specs.Prelude.{option_map};
    ghost use Rattle.c2_bmff_chunks.specs.Shifted.{shifted};
    ghost use Rattle.c2_bmff_chunks.proofs.Lengths.{shifted_bytes, shifted_size};

    ghost len = { λ s. S.len s.media.now };

    ghost known = { λ s. option_map (shifted s.from s.by s.tables.now) (S.known s.media.now) };

    ghost faults = { λ s. S.faults s.media.now };

    ghost known_len = { λ s. shifted_size s.from s.by s.tables.now (S.known s.media.now)
        (S.len s.media.now) (S.known_len s.media.now) };

    ghost known_bytes = { λ s. shifted_bytes s.from s.by s.tables.now (S.known s.media.now)
        (S.known_bytes s.media.now) };

    ghost fits = { λ s. S.fits s.media.now };

    fn size(&mut self) -> Result<u64, Failed> {
        self.media.size()
    }

    fn read_at(&mut self, pos: u64, buf: &mut [u8]) -> Result<usize, Failed> {
        read_moved(self.media, self.tables, self.from, self.by, pos, buf)
    }
}
