// A media file that is cleared, as a source.
ghost use Rattle.std.specs.Prelude.{◌≡◌, ◌+◌, ◌-◌, ◌≤◌, ◌<◌, ℕ, List, None, length, option_map};
ghost use Rattle.std.specs.Prelude.{IfOk};
ghost use Rattle.std.specs.declared.option.Option.{Option};
ghost use Rattle.c2_base.specs.Causes.{HasCause};
ghost use Rattle.c2_base.specs.Source.{StaysSource, IsReadCount, ReadsAt};
ghost use Rattle.c2_without_store.specs.Clears.{cleared_len, cut_len, freed_in};
ghost use Rattle.c2_spec.specs.PutIn.{taken_out};

use crate::clearing::Clearing;
use crate::freeing::put_freed;
use c2_base::{Failed, Range, Source};
use c2_bmff_boxes::RootBox;
use std::marker::{Brand, PhantomData};

/// What is known of a borrow of a source. Callers choose it, and no code reads it.
pub trait Named {
    // the borrow's name
    ghost name: { ℕ };

    // the source's length
    ghost len: { ℕ };

    // the source's bytes, where they are known
    ghost known: { Option (List ℕ) };
}

impl Named for Brand {
    ghost name = { 0 };

    ghost len = { 0 };

    ghost known = { None };
}

/// A media file that is cleared, over the file as it is. Its borrow is the one of which `K` tells, so that who lends it to a call knows
/// afterwards that it still is over this file, and that the file is as it was: [`WithoutStore::into_media`] gives it back.
#[derive(Drop)]
pub struct WithoutStore<'m, S: Source, K: Named> {
    /// The file as it is.
    pub media: &'m mut S,
    /// How it is cleared.
    pub clearing: Clearing,
    /// What is known of the borrow.
    pub of: PhantomData<K>,
    ghost same: { media.ghost_name ≡ K.name },
    ghost same_len: { S.len media.now ≡ K.len },
    ghost same_bytes: { S.known media.now ≡ K.known },
}

// How many bytes are left of a file of so many.
fn left_len(clearing: Clearing, size: u64) -> u64
    ensures { result ≡ cleared_len clearing size }
{
    match clearing {
        Clearing::Cut(range) => {
            let end = range.start.saturating_add(range.length);
            range.start.min(size) + size.saturating_sub(end)
        }
        Clearing::Freed(_) => size,
    }
}

// Reads bytes into the first `room` places of a buffer.
fn read_first<S: Source>(
    source: &mut S,
    pos: u64,
    buf: &mut [u8],
    room: usize,
) -> Result<usize, Failed>
    requires { room ≤ length buf.old }
    ensures stays { StaysSource S.len S.known S.faults source.old source.new }
    ensures cause { HasCause (S.faults source.old) (S.faults source.new) result }
    ensures count { IfOk result (IsReadCount (S.len source.old) pos room) }
    ensures bytes { IfOk result (λ n. ReadsAt (S.known source.old) pos n buf.old buf.new) }
{
    source.read_at(pos, &mut buf[..room])
}

// Reads bytes of a file less a range.
fn read_cut<S: Source>(
    source: &mut S,
    range: Range,
    pos: u64,
    buf: &mut [u8],
) -> Result<usize, Failed>
    ensures stays { StaysSource S.len S.known S.faults source.old source.new }
    ensures cause { HasCause (S.faults source.old) (S.faults source.new) result }
    ensures count { IfOk result
        (IsReadCount (cut_len range (S.len source.old)) pos (length buf.old)) }
    ensures bytes { IfOk result (λ n. ReadsAt
        (option_map (taken_out range.start range.length) (S.known source.old))
        pos n buf.old buf.new) }
{
    if pos < range.start {
        let room = (range.start - pos).min(buf.len() as u64) as usize;
        return read_first(source, pos, buf, room);
    }
    let Some(from) = pos.checked_add(range.length) else {
        return Ok(0);
    };
    source.read_at(from, buf)
}

// Reads bytes of a file with the box of this row freed.
fn read_freed<S: Source>(
    source: &mut S,
    row: RootBox,
    pos: u64,
    buf: &mut [u8],
) -> Result<usize, Failed>
    ensures stays { StaysSource S.len S.known S.faults source.old source.new }
    ensures cause { HasCause (S.faults source.old) (S.faults source.new) result }
    ensures count { IfOk result (IsReadCount (S.len source.old) pos (length buf.old)) }
    ensures bytes { IfOk result (λ n. ReadsAt
        (option_map (freed_in row) (S.known source.old)) pos n buf.old buf.new) }
{
    let count = source.read_at(pos, buf)?;
    put_freed(&mut buf[..count], pos, row);
    Ok(count)
}

impl<'m, S: Source, K: Named> WithoutStore<'m, S, K> {
    /// What is left of this file. Takes no memory.
    pub fn new(media: &'m mut S, clearing: Clearing) -> WithoutStore<'m, S, K>
        requires name { media.ghost_name ≡ K.name }
        requires len { S.len media.old ≡ K.len }
        requires known { S.known media.old ≡ K.known }
        ensures media { result.media.now ≡ media.old }
        ensures clearing { result.clearing ≡ clearing }
    {
        WithoutStore {
            media,
            clearing,
            of: PhantomData,
        }
    }

    /// The file as it is. Takes no memory.
    pub fn into_media(self) -> &'m mut S
        ensures same { result.ghost_name ≡ K.name }
        ensures len { S.len result.now ≡ K.len }
        ensures known { S.known result.now ≡ K.known }
        ensures media { result.now ≡ self.entry.media.now }
    {
        let WithoutStore {
            media,
            clearing: _,
            of: _,
        } = self;
        media
    }
}

impl<'m, S: Source, K: Named> Source for WithoutStore<'m, S, K> {
    ghost use Rattle.std.specs.Prelude.{option_map};
    ghost use Rattle.c2_without_store.specs.Clears.{cleared, cleared_len};
    ghost use Rattle.c2_without_store.specs.Lengths.{cleared_bytes, cleared_fits, cleared_size};

    ghost len = { λ s. cleared_len s.clearing (S.len s.media.now) };

    ghost known = { λ s. option_map (cleared s.clearing) (S.known s.media.now) };

    ghost faults = { λ s. S.faults s.media.now };

    ghost known_len = { λ s. cleared_size s.clearing (S.known s.media.now) (S.len s.media.now)
        (S.known_len s.media.now) };

    ghost known_bytes = { λ s. cleared_bytes s.clearing (S.known s.media.now)
        (S.known_bytes s.media.now) };

    ghost fits = { λ s. cleared_fits s.clearing (S.len s.media.now) (S.fits s.media.now) };

    fn size(&mut self) -> Result<u64, Failed> {
        let size = self.media.size()?;
        Ok(left_len(self.clearing, size))
    }

    fn read_at(&mut self, pos: u64, buf: &mut [u8]) -> Result<usize, Failed> {
        match self.clearing {
            Clearing::Cut(range) => read_cut(self.media, range, pos, buf),
            Clearing::Freed(row) => read_freed(self.media, row, pos, buf),
        }
    }
}
