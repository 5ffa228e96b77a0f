// Stores by themselves: written out of a file, and checked beside one.
use crate::line::shown;
use crate::parts::taken;
use crate::read::bytes_of;
use crate::settings::Settings;
use c2_base::{Blob, MemSink, MemSource};
use c2_hash::Sha;
use c2_judge::Judge;
use c2_sidecar::{extract, validate_external};
use c2_test_tables::Trouble;
use std::alloc::Global;

// The length of pieces in which the external store is read.
const PIECE: usize = 65_536;

/// What is answered where the store of a file is written into a sink with `room`, and what the sink has then.
pub fn store_alone(
    alloc: Global,
    settings: &Settings,
    source: &mut MemSource,
) -> Result<String, Trouble> {
    let mut sink = MemSink::with_room(alloc, settings.number("room")? as usize, 0)?;
    let answer = extract(alloc, source, &mut sink);
    taken(alloc, &answer, &sink)
}

/// What is answered where a file is checked with the bytes `store`, a second source of which call `store fault` fails, before no judges.
pub fn external(
    alloc: Global,
    settings: &Settings,
    source: &mut MemSource,
) -> Result<String, Trouble> {
    let bytes = bytes_of(alloc, settings.text("store"))?;
    let bytes = Blob::copied(alloc, bytes.as_slice())?;
    let mut store = MemSource::new(bytes, PIECE, settings.number("store fault")?);
    let mut judges: Vec<Box<dyn Judge>> = Vec::new(alloc);
    let answer = validate_external(alloc, &Sha, source, &mut store, &mut judges);
    shown(alloc, &answer)
}
