// Files of media.
use crate::line::{Line, shown};
use crate::settings::Settings;
use crate::{chunks, films, parts, sidecars};
use c2_base::{Blob, Found, MediaError, MemSource};
use c2_jpegseg::{free_number, insert_place, locate};
use c2_test_tables::Trouble;
use std::alloc::Global;

// The lengths of pieces in which a file is read.
const PIECES: [usize; 3] = [1, 7, 65_536];

/// What is said of a file.
#[derive(Clone, Copy)]
pub enum FileView {
    Packets,
    Place,
    FreeNumber,
    RootBoxes,
    Film,
    BoxPlace,
    Exclusions,
    Copied,
    Inserted,
    WithoutStore,
    StoreAlone,
    External,
    ChunkTables,
    Shifted,
    ShiftedPart,
}

/// What is said of a file that is read in pieces: the same for pieces of each length. Where a call fails, the file is read in the longest.
pub fn in_pieces(
    alloc: Global,
    settings: &Settings,
    what: FileView,
    bytes: &[u8],
) -> Result<String, Trouble> {
    let fail_at = settings.number("fault")?;
    let wanted = said_in(alloc, settings, what, bytes, 65_536, fail_at)?;
    if fail_at > 0 {
        return Ok(wanted);
    }
    for most in PIECES {
        let got = said_in(alloc, settings, what, bytes, most, 0)?;
        if got.as_str() != wanted.as_str() {
            return Ok(format!(in alloc; "{got} in pieces of {most}")?);
        }
    }
    Ok(wanted)
}

// What is said of a file over a source that gives `most` bytes a call.
fn said_in(
    alloc: Global,
    settings: &Settings,
    what: FileView,
    bytes: &[u8],
    most: usize,
    fail_at: u64,
) -> Result<String, Trouble> {
    let mut source = MemSource::new(Blob::copied(alloc, bytes)?, most.max(1), fail_at);
    said(alloc, settings, what, &mut source)
}

// What is said of a file.
fn said(
    alloc: Global,
    settings: &Settings,
    what: FileView,
    source: &mut MemSource,
) -> Result<String, Trouble> {
    match what {
        FileView::Packets => located(alloc, locate(alloc, source)),
        FileView::Place => shown(alloc, &insert_place(source, settings.range("skip")?)),
        FileView::FreeNumber => shown(alloc, &free_number(alloc, source, settings.range("skip")?)),
        FileView::RootBoxes => films::root_boxes(alloc, source),
        FileView::Film => films::store(alloc, source),
        FileView::BoxPlace => films::box_place(alloc, settings, source),
        FileView::Exclusions => films::excluded(alloc, settings, source),
        FileView::Copied => parts::copied(alloc, settings, source),
        FileView::Inserted => parts::inserted(alloc, settings, source),
        FileView::WithoutStore => parts::without_store(alloc, settings, source),
        FileView::StoreAlone => sidecars::store_alone(alloc, settings, source),
        FileView::External => sidecars::external(alloc, settings, source),
        FileView::ChunkTables => chunks::listed(alloc, source),
        FileView::Shifted => chunks::moved(alloc, settings, source),
        FileView::ShiftedPart => chunks::part(alloc, settings, source),
    }
}

/// The range of a store that is found, and the store's length and digest.
pub fn located(
    alloc: Global,
    answer: Result<Option<Found>, MediaError>,
) -> Result<String, Trouble> {
    let mut out = Line::new(alloc);
    match answer {
        Ok(Some(found)) => {
            out.range(found.start, found.length);
            out.text(" ");
            out.digest(found.store.as_slice());
        }
        Ok(None) => out.text("none"),
        Err(error) => out.debug(&error),
    }
    out.whole()
}
