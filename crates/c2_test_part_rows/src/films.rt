// BMFF files.
use crate::line::{Line, shown};
use crate::media::located;
use crate::read::bytes_of;
use crate::settings::{Settings, range_of};
use c2_base::{Blob, MemSource, Range, Ranges};
use c2_bmff::{
    ByteTests, Exclusion, Path, RootBox, insert_place, locate, match_path, match_paths, read_path,
    roots,
};
use c2_test_tables::Trouble;
use std::alloc::Global;

/// Whether a text has the form of a path.
pub fn path(alloc: Global, text: &str) -> Result<String, Trouble> {
    let form = match read_path(alloc, text)? {
        Some(_) => "yes",
        None => "no",
    };
    Ok(String::from_str(alloc, form)?)
}

fn show_root(out: &mut Line, root: &RootBox) {
    out.range(root.start, root.length);
    out.text(" ");
    out.number(root.header);
    out.text(" ");
    out.text(str::from_utf8(&root.kind).unwrap_or("?"));
    if root.to_end {
        out.text(" to the end");
    }
}

fn show_roots(out: &mut Line, boxes: &[RootBox]) {
    let mut gap = "";
    for root in boxes {
        out.text(gap);
        gap = " / ";
        show_root(out, root);
    }
}

/// Start, length, header and kind of each root box.
pub fn root_boxes(alloc: Global, source: &mut MemSource) -> Result<String, Trouble> {
    let mut out = Line::new(alloc);
    match roots(alloc, source) {
        Ok(boxes) => show_roots(&mut out, boxes.as_slice()),
        Err(error) => out.debug(&error),
    }
    out.whole()
}

/// The store of a film.
pub fn store(alloc: Global, source: &mut MemSource) -> Result<String, Trouble> {
    match roots(alloc, source) {
        Ok(boxes) => located(alloc, locate(alloc, source, &boxes)),
        Err(error) => shown(alloc, &error),
    }
}

/// Where the box of a store goes in a film, without the root box of the index that is set, where one is.
pub fn box_place(
    alloc: Global,
    settings: &Settings,
    source: &mut MemSource,
) -> Result<String, Trouble> {
    let Ok(boxes) = roots(alloc, source) else {
        return Err(Trouble::BadLine);
    };
    let mut skip = None;
    if settings.text("without") != "" {
        let index = settings.number("without")?;
        if index >= boxes.as_slice().len() as u64 {
            return Err(Trouble::BadLine);
        }
        skip = Some(index as usize);
    }
    let place = insert_place(&boxes, skip);
    Ok(format!(in alloc; "{place:?}")?)
}

// What stands behind the path of an exclusion.
#[derive(Drop)]
struct Limits {
    tests: Vec<(u64, Blob)>,
    parts: Vec<Range>,
    length: Option<u64>,
}

impl Limits {
    // Takes in a word: a length, `OFFSET=HEX` for a byte test, or `START+LENGTH` for a part.
    fn take(&mut self, alloc: Global, word: &str) -> Result<(), Trouble> {
        if let Some((offset, digits)) = word.split_once('=') {
            return self.take_test(alloc, offset, digits);
        }
        if word.contains('+') {
            self.parts.push(range_of(word)?)?;
        } else {
            self.length = Some(word.parse::<u64>()?);
        }
        Ok(())
    }

    fn take_test(&mut self, alloc: Global, offset: &str, digits: &str) -> Result<(), Trouble> {
        let offset = offset.parse::<u64>()?;
        let value = Blob::from_vec(bytes_of(alloc, digits)?);
        self.tests.push((offset, value))?;
        Ok(())
    }

    // The exclusion with this path.
    fn behind(self, path: Path) -> Exclusion {
        let Limits {
            tests,
            parts,
            length,
        } = self;
        Exclusion {
            path,
            length,
            tests: ByteTests::from_list(tests),
            subset: subset_of(parts),
        }
    }
}

// The parts, where there are some.
fn subset_of(parts: Vec<Range>) -> Option<Ranges> {
    if parts.is_empty() {
        None
    } else {
        Some(Ranges::from_list(parts))
    }
}

// One exclusion: a path, and behind spaces its limits.
fn exclusion_of(alloc: Global, text: &str) -> Result<Exclusion, Trouble> {
    let (path, words) = text.split_once(' ').unwrap_or((text, ""));
    let limits = limits_of(alloc, words)?;
    match read_path(alloc, path)? {
        Some(path) => Ok(limits.behind(path)),
        None => Err(Trouble::BadLine),
    }
}

fn limits_of(alloc: Global, words: &str) -> Result<Limits, Trouble> {
    let mut limits = Limits {
        tests: Vec::new(alloc),
        parts: Vec::new(alloc),
        length: None,
    };
    for word in words.split_whitespace() {
        limits.take(alloc, word)?;
    }
    Ok(limits)
}

/// The exclusions that are set, a comma between them.
pub fn exclusions_of(alloc: Global, settings: &Settings) -> Result<Vec<Exclusion>, Trouble> {
    let mut entries = Vec::new(alloc);
    let text = settings.text("exclusions");
    if text.is_empty() {
        return Ok(entries);
    }
    for part in text.split(',') {
        entries.push(exclusion_of(alloc, part)?)?;
    }
    Ok(entries)
}

/// The ranges of a film that the exclusions exclude.
pub fn excluded(
    alloc: Global,
    settings: &Settings,
    source: &mut MemSource,
) -> Result<String, Trouble> {
    let entries = exclusions_of(alloc, settings)?;
    let boxes = match roots(alloc, source) {
        Ok(boxes) => boxes,
        Err(error) => return shown(alloc, &error),
    };
    let mut out = Line::new(alloc);
    let found = match entries.as_slice() {
        [entry] => match_path(alloc, source, &boxes, entry),
        entries => match_paths(alloc, source, &boxes, entries),
    };
    match found {
        Ok(ranges) => show_ranges(&mut out, ranges.as_slice()),
        Err(error) => out.debug(&error),
    }
    out.whole()
}

// Ranges, a space between them; `none` where there are none.
fn show_ranges(out: &mut Line, ranges: &[Range]) {
    let mut gap = "";
    for range in ranges {
        out.text(gap);
        gap = " ";
        out.range(range.start, range.length);
    }
    if ranges.is_empty() {
        out.text("none");
    }
}
