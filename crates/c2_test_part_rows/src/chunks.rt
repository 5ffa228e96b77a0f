// Chunk tables of films, and films with the places in them moved.
ghost use Rattle.std.specs.Prelude.{◌≡◌};
ghost use Rattle.c2_bmff_chunks.specs.Tables.{StandApart};

use crate::line::{Line, shown};
use crate::settings::Settings;
use c2_base::{Blob, MemSource, ReadAllError, Source, read_all};
use c2_bmff::roots;
use c2_shift::types::Tables;
use c2_shift::{ChunkTable, NamedTables, Shifted, check_shift, read_shifted, tables};
use c2_test_tables::Trouble;
use std::alloc::Global;
use std::marker::Brand;

// The most bytes of a film that is read whole.
const MAX_FILE_LEN: u64 = 1_000_000;

// The most bytes of a part.
const MAX_PART_LEN: usize = 16;

fn show_tables(out: &mut Line, list: &[ChunkTable]) {
    let mut gap = "";
    for table in list {
        out.text(gap);
        gap = " / ";
        out.number(table.first);
        out.text(" ");
        out.number(table.count as u64);
        if table.wide {
            out.text(" wide");
        }
    }
    if list.is_empty() {
        out.text("none");
    }
}

/// The first field of each chunk table of a film, how many it has, and whether they are wide.
pub fn listed(alloc: Global, source: &mut MemSource) -> Result<String, Trouble> {
    let boxes = match roots(alloc, source) {
        Ok(boxes) => boxes,
        Err(error) => return shown(alloc, &error),
    };
    let mut out = Line::new(alloc);
    match tables(alloc, source, &boxes) {
        Ok(found) => show_tables(&mut out, found.as_slice()),
        Err(error) => out.debug(&error),
    }
    out.whole()
}

// Reads all bytes of a film with moved places into `found`, over a borrow of which `K` tells, and gives the film back.
fn read_over<'m, S: Source, K: NamedTables>(
    alloc: Global,
    media: &'m mut S,
    list: &'m Tables,
    from: u64,
    by: u64,
    found: &mut Result<Blob, ReadAllError>,
) -> &'m mut S
    requires name { media.ghost_name ≡ K.name }
    requires len { S.len media.old ≡ K.len }
    requires known { S.known media.old ≡ K.known }
    requires inside { StandApart 0 (S.len media.old) list.now }
{
    let mut whole = Shifted::<S, K>::new(media, list, from, by);
    *found = read_all(alloc, &mut whole, MAX_FILE_LEN);
    whole.into_media()
}

// All bytes of a film with moved places.
fn read_moved<S: Source>(
    alloc: Global,
    media: &mut S,
    list: &Tables,
    from: u64,
    by: u64,
) -> Result<Blob, ReadAllError>
    requires inside { StandApart 0 (S.len media.old) list.now }
{
    let mut found = Err(ReadAllError::NoMemory);
    let _media = read_over::<S, Brand>(alloc, media, list, from, by, &mut found);
    found
}

/// All bytes of a film in whose chunk tables the places from `from` on are greater by `by`, or why they can't be.
pub fn moved(
    alloc: Global,
    settings: &Settings,
    source: &mut MemSource,
) -> Result<String, Trouble> {
    let (from, by) = (settings.number("from")?, settings.number("by")?);
    let Ok(boxes) = roots(alloc, source) else {
        return Err(Trouble::BadLine);
    };
    let list = match tables(alloc, source, &boxes) {
        Ok(list) => list,
        Err(error) => return shown(alloc, &error),
    };
    if let Err(error) = check_shift(source, &list, from, by) {
        return shown(alloc, &error);
    }
    let mut out = Line::new(alloc);
    match read_moved(alloc, source, &list, from, by) {
        Ok(bytes) => out.hex(bytes.as_slice()),
        Err(error) => out.debug(&error),
    }
    out.whole()
}

/// A part of these bytes, which is all that is read of them.
pub fn part(alloc: Global, settings: &Settings, source: &mut MemSource) -> Result<String, Trouble> {
    let (from, by) = (settings.number("from")?, settings.number("by")?);
    let range = settings.range("part")?;
    let Ok(boxes) = roots(alloc, source) else {
        return Err(Trouble::BadLine);
    };
    let Ok(list) = tables(alloc, source, &boxes) else {
        return Err(Trouble::BadLine);
    };
    let Ok(size) = source.size() else {
        return Err(Trouble::BadLine);
    };
    if range.start > size
        || range.length > size - range.start
        || range.length > MAX_PART_LEN as u64
    {
        return Err(Trouble::BadLine);
    }
    let mut buf = [0; MAX_PART_LEN];
    let bytes = &mut buf[..range.length as usize];
    let answer = read_shifted(source, &list, from, by, range.start, bytes);
    let mut out = Line::new(alloc);
    match answer {
        Ok(()) => out.hex(bytes),
        Err(error) => out.debug(&error),
    }
    out.whole()
}
