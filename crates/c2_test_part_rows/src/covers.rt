// What a hash covers.
ghost use Rattle.std.specs.Prelude.{◌<◌};

use crate::films::exclusions_of;
use crate::line::{Line, shown};
use crate::settings::{Settings, ranges_of};
use c2_base::{Blob, Failed, MemSource, Range};
use c2_bmff::{Exclusion, roots};
use c2_cover::{
    Cover, bmff_cover, check_ranges, covered_count, data_cover, digest_cover, outside_count,
};
use c2_hash::{Digest, Sha};
use c2_test_tables::Trouble;
use std::alloc::Global;

// How many bytes a read gives, and how many the buffer takes.
const LENGTHS: [(usize, usize); 9] = [
    (1, 1),
    (1, 7),
    (1, 65_536),
    (7, 1),
    (7, 7),
    (7, 65_536),
    (65_536, 1),
    (65_536, 7),
    (65_536, 65_536),
];

/// Whether ranges rise inside a file of the size that is set, or the first that doesn't.
pub fn checked(alloc: Global, settings: &Settings, input: &str) -> Result<String, Trouble> {
    let ranges = ranges_of(alloc, input)?;
    let size = settings.number("size")?;
    shown(alloc, &check_ranges(ranges.as_slice(), size))
}

/// How many positions of a file of the size that is set the ranges leave, and how many of the excluded ones stand outside the range that
/// is set.
pub fn counts(alloc: Global, settings: &Settings, input: &str) -> Result<String, Trouble> {
    let ranges = ranges_of(alloc, input)?;
    let size = settings.number("size")?;
    let embedded = settings.range("embedded")?;
    let mut out = Line::new(alloc);
    match data_cover(alloc, ranges.as_slice(), size) {
        Ok(cover) => show_counts(&mut out, embedded, &cover),
        Err(error) => out.debug(&error),
    }
    out.whole()
}

// The two counts of a cover.
fn show_counts(out: &mut Line, embedded: Range, cover: &Cover) {
    out.number(covered_count(cover));
    out.text(" covered, ");
    out.number(outside_count(cover, embedded.start, embedded.length));
    out.text(" outside");
}

// The counts, and the digest of what is covered, by the algorithm that is set.
fn show_cover(out: &mut Line, embedded: Range, cover: &Cover, digest: Result<Digest, Failed>) {
    show_counts(out, embedded, cover);
    out.text(" ");
    match digest {
        Ok(digest) => out.hex(digest.as_slice()),
        Err(Failed) => out.text("failed"),
    }
}

/// What the ranges that are set leave of a file: the same by reads and buffers of each length.
pub fn data(alloc: Global, settings: &Settings, bytes: &[u8]) -> Result<String, Trouble> {
    let ranges = ranges_of(alloc, settings.text("ranges"))?;
    let wanted = data_at(alloc, settings, ranges.as_slice(), bytes, 1, 1)?;
    for (most, room) in LENGTHS {
        let (most, room) = (most.max(1), room.max(1));
        let got = data_at(alloc, settings, ranges.as_slice(), bytes, most, room)?;
        if got.as_str() != wanted.as_str() {
            return Ok(format!(in alloc; "{got} by {most} and {room} bytes")?);
        }
    }
    Ok(wanted)
}

// What a data hash covers over a source that gives `most` bytes a call, through a buffer of `room` bytes.
fn data_at(
    alloc: Global,
    settings: &Settings,
    ranges: &[Range],
    bytes: &[u8],
    most: usize,
    room: usize,
) -> Result<String, Trouble>
    requires most { 0 < most }
    requires room { 0 < room }
{
    let (embedded, alg) = (settings.range("embedded")?, settings.alg()?);
    let mut source = MemSource::new(Blob::copied(alloc, bytes)?, most, 0);
    let mut buf = vec![in alloc; 0; room]?;
    let mut out = Line::new(alloc);
    match data_cover(alloc, ranges, bytes.len() as u64) {
        Ok(cover) => {
            let digest = digest_cover(&Sha, &mut source, &cover, alg, &mut buf);
            show_cover(&mut out, embedded, &cover, digest);
        }
        Err(error) => out.debug(&error),
    }
    out.whole()
}

/// What the exclusions that are set leave of a film: the same by reads and buffers of each length.
pub fn film(alloc: Global, settings: &Settings, bytes: &[u8]) -> Result<String, Trouble> {
    let entries = exclusions_of(alloc, settings)?;
    let wanted = bmff_at(alloc, settings, entries.as_slice(), bytes, 1, 1)?;
    for (most, room) in LENGTHS {
        let (most, room) = (most.max(1), room.max(1));
        let got = bmff_at(alloc, settings, entries.as_slice(), bytes, most, room)?;
        if got.as_str() != wanted.as_str() {
            return Ok(format!(in alloc; "{got} by {most} and {room} bytes")?);
        }
    }
    Ok(wanted)
}

// What a BMFF hash covers over a source that gives `most` bytes a call, through a buffer of `room` bytes.
fn bmff_at(
    alloc: Global,
    settings: &Settings,
    entries: &[Exclusion],
    bytes: &[u8],
    most: usize,
    room: usize,
) -> Result<String, Trouble>
    requires most { 0 < most }
    requires room { 0 < room }
{
    let (embedded, alg) = (settings.range("embedded")?, settings.alg()?);
    let mut source = MemSource::new(Blob::copied(alloc, bytes)?, most, 0);
    let mut buf = vec![in alloc; 0; room]?;
    let Ok(boxes) = roots(alloc, &mut source) else {
        return Err(Trouble::BadLine);
    };
    let mut out = Line::new(alloc);
    match bmff_cover(alloc, &mut source, &boxes, entries) {
        Ok(cover) => {
            let digest = digest_cover(&Sha, &mut source, &cover, alg, &mut buf);
            show_cover(&mut out, embedded, &cover, digest);
        }
        Err(error) => out.debug(&error),
    }
    out.whole()
}
