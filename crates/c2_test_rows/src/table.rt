// A table, line by line.
use crate::bytes::in_jpeg;
use crate::given::Given;
use crate::line::Line;
use crate::settings::Settings;
use crate::views::view;
use c2_test_tables::Trouble;
use std::alloc::Global;

/// What the lines so far say, and how many rows there were.
#[derive(Drop)]
pub struct Table {
    settings: Settings,
    given: Given,
    name: String,
    count: u64,
    held: u64,
}

impl Table {
    /// A table without lines.
    pub fn new(alloc: Global) -> Table {
        Table {
            settings: Settings::new(alloc),
            given: Given::new(alloc),
            name: String::new(alloc),
            count: 0,
            held: 0,
        }
    }

    /// What the last row is named.
    pub fn name(&self) -> &str {
        self.name.as_str()
    }

    /// How many rows there were.
    pub fn count(&self) -> u64 {
        self.count
    }

    /// How many of them hold.
    pub fn held(&self) -> u64 {
        self.held
    }

    /// Takes in a line: the name of the rows behind it, a row, or a setting. Says how a row deviates.
    pub fn take(&mut self, alloc: Global, line: &str) -> Result<Option<String>, Trouble> {
        if let Some(name) = line.strip_prefix("# ") {
            self.name = String::from_str(alloc, name)?;
            return Ok(None);
        }
        if let Some((given, wanted)) = line.split_once(" => ") {
            self.given.take(alloc, given)?;
            self.count = self.count.saturating_add(1);
            let got = row(alloc, &self.settings, &self.given, wanted)?;
            return self.compare(alloc, wanted, got);
        }
        if let Some((key, value)) = line.split_once(':') {
            self.settings.set(alloc, key, value.trim())?;
            return Ok(None);
        }
        if line.is_empty() {
            Ok(None)
        } else {
            Err(Trouble::BadLine)
        }
    }

    // Counts a row that came to something else, or to what was wanted.
    fn compare(
        &mut self,
        alloc: Global,
        wanted: &str,
        got: Option<String>,
    ) -> Result<Option<String>, Trouble> {
        let Some(got) = got else {
            self.held = self.held.saturating_add(1);
            return Ok(None);
        };
        let mut out = Line::new(alloc);
        out.text(self.name());
        out.text(": wanted ");
        out.text(wanted);
        out.text(", got ");
        out.text(got.as_str());
        Ok(Some(out.whole()?))
    }
}

// What the first run of a row comes to that comes to something else than is wanted.
fn row(
    alloc: Global,
    settings: &Settings,
    given: &Given,
    wanted: &str,
) -> Result<Option<String>, Trouble> {
    let first = given.first.as_slice();
    if settings.packets.is_empty() {
        return in_pieces(alloc, settings, given, first, wanted);
    }
    for most in settings.packets.iter() {
        let file = in_jpeg(alloc, first, *most)?;
        let got = in_pieces(alloc, settings, given, file.as_slice(), wanted)?;
        if got.is_some() {
            return Ok(got);
        }
    }
    Ok(None)
}

// What the first run of a row over this first file comes to that comes to something else than is wanted.
fn in_pieces(
    alloc: Global,
    settings: &Settings,
    given: &Given,
    first: &[u8],
    wanted: &str,
) -> Result<Option<String>, Trouble> {
    if settings.pieces.is_empty() {
        return Err(Trouble::BadLine);
    }
    for pieces in settings.pieces.iter() {
        let got = view(alloc, settings, given.with_first(first, *pieces))?;
        if got.as_str() != wanted {
            return Ok(Some(told(alloc, got.as_str(), *pieces)?));
        }
    }
    Ok(None)
}

// What a row comes to that is read in these pieces.
fn told(alloc: Global, got: &str, pieces: (usize, usize)) -> Result<String, Trouble> {
    let mut out = Line::new(alloc);
    out.text(got);
    out.text(" in pieces of ");
    out.number(pieces.0 as u64);
    out.text(" and ");
    out.number(pieces.1 as u64);
    out.whole()
}
