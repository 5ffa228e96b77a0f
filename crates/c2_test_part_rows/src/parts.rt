// Parts of files: copied into a sink, left out of one, and put into another file.
ghost use Rattle.std.specs.Prelude.{◌≡◌, ◌+◌, ◌<◌, ◌≤◌, ◌^◌, length};

use crate::line::Line;
use crate::read::bytes_of;
use crate::settings::Settings;
use c2_base::{Blob, MemSink, MemSource, ReadAllError, Source, read_all};
use c2_copying::copy;
use c2_inserted::{Inserted, NamedPiece};
use c2_strip::strip;
use c2_test_tables::Trouble;
use std::alloc::Global;
use std::fmt;
use std::marker::Brand;

// The most bytes of a file that is read whole.
const MAX_FILE_LEN: u64 = 1_000_000;

/// What is answered where the bytes from `from` to `to` are copied through a buffer of three bytes into a sink with `room`, and what the
/// sink has then.
pub fn copied(
    alloc: Global,
    settings: &Settings,
    source: &mut MemSource,
) -> Result<String, Trouble> {
    let (from, to) = (settings.number("from")?, settings.number("to")?);
    let Ok(size) = source.size() else {
        return Err(Trouble::BadLine);
    };
    if from > to || to > size {
        return Err(Trouble::BadLine);
    }
    let mut sink = MemSink::with_room(alloc, settings.number("room")? as usize, 0)?;
    let mut buf = [0; 3];
    let answer = copy(source, &mut sink, from, to, &mut buf);
    taken(alloc, &answer, &sink)
}

/// An answer, and what a sink has; a full stop where nothing follows.
pub fn taken<T: fmt::Debug>(alloc: Global, answer: &T, sink: &MemSink) -> Result<String, Trouble> {
    let mut out = Line::new(alloc);
    out.debug(answer);
    out.between(sink.bytes().is_empty(), " ");
    out.hex(sink.bytes());
    if sink.finished() {
        out.text(".");
    }
    out.whole()
}

/// What is answered where a file is written without its store, through a buffer of three bytes, into a sink with `room`, and what the sink
/// has then.
pub fn without_store(
    alloc: Global,
    settings: &Settings,
    source: &mut MemSource,
) -> Result<String, Trouble> {
    let mut sink = MemSink::with_room(alloc, settings.number("room")? as usize, 0)?;
    let mut buf = [0; 3];
    let answer = strip(alloc, source, &mut sink, &mut buf);
    taken(alloc, &answer, &sink)
}

// Reads all bytes of a file with a piece put in into `found`, over a borrow of which `K` tells, and gives the file back.
fn read_over<'m, S: Source, K: NamedPiece>(
    alloc: Global,
    base: &'m mut S,
    place: u64,
    piece: &'m [u8],
    found: &mut Result<Blob, ReadAllError>,
) -> &'m mut S
    requires name { base.ghost_name ≡ K.name }
    requires len { S.len base.old ≡ K.len }
    requires known { S.known base.old ≡ K.known }
    requires inside { place ≤ S.len base.old }
    requires room { S.len base.old + length piece.now < 2 ^ 64 }
{
    let mut whole = Inserted::<S, K>::new(base, place, piece);
    *found = read_all(alloc, &mut whole, MAX_FILE_LEN);
    whole.into_base()
}

// All bytes of a file with a piece put in.
fn read_with<S: Source>(
    alloc: Global,
    base: &mut S,
    place: u64,
    piece: &[u8],
) -> Result<Blob, ReadAllError>
    requires inside { place ≤ S.len base.old }
    requires room { S.len base.old + length piece.now < 2 ^ 64 }
{
    let mut found = Err(ReadAllError::NoMemory);
    let _base = read_over::<S, Brand>(alloc, base, place, piece, &mut found);
    found
}

/// The bytes of a file with the bytes `piece` put in at `place`.
pub fn inserted(
    alloc: Global,
    settings: &Settings,
    source: &mut MemSource,
) -> Result<String, Trouble> {
    let place = settings.number("place")?;
    let piece = bytes_of(alloc, settings.text("piece"))?;
    let Ok(size) = source.size() else {
        return Err(Trouble::BadLine);
    };
    if place > size || size.checked_add(piece.len() as u64).is_none() {
        return Err(Trouble::BadLine);
    }
    let mut out = Line::new(alloc);
    match read_with(alloc, source, place, piece.as_slice()) {
        Ok(bytes) => out.hex(bytes.as_slice()),
        Err(error) => out.debug(&error),
    }
    out.whole()
}
