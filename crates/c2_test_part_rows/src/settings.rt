// What the lines of a table set for the rows behind them.
use c2_base::Range;
use c2_hash::{Alg, alg_of};
use c2_test_tables::Trouble;
use std::alloc::Global;

/// What is set: a key and a value each, of which the last of a key holds.
#[derive(Drop)]
pub struct Settings {
    pairs: Vec<(String, String)>,
}

impl Settings {
    /// Nothing.
    pub fn new(alloc: Global) -> Settings {
        Settings {
            pairs: Vec::new(alloc),
        }
    }

    /// Sets the value of a key.
    pub fn set(&mut self, alloc: Global, key: &str, value: &str) -> Result<(), Trouble> {
        let key = String::from_str(alloc, key)?;
        let value = String::from_str(alloc, value)?;
        self.pairs.push((key, value))?;
        Ok(())
    }

    /// The value of a key, and an empty one where it is not set.
    pub fn text(&self, key: &str) -> &str {
        let mut found = "";
        for pair in self.pairs.iter() {
            if pair.0.as_str() == key {
                found = pair.1.as_str();
            }
        }
        found
    }

    /// The value of a key as a number; 0 where it is not set.
    pub fn number(&self, key: &str) -> Result<u64, Trouble> {
        match self.text(key) {
            "" => Ok(0),
            text => Ok(text.parse::<u64>()?),
        }
    }

    /// The algorithm that is set by its name; SHA-256 where none is set.
    pub fn alg(&self) -> Result<Alg, Trouble> {
        match self.text("alg") {
            "" => Ok(Alg::Sha256),
            name => match alg_of(name) {
                Some(alg) => Ok(alg),
                None => Err(Trouble::BadLine),
            },
        }
    }

    /// The value of a key as a range; an empty one at 0 where it is not set.
    pub fn range(&self, key: &str) -> Result<Range, Trouble> {
        match self.text(key) {
            "" => Ok(Range {
                start: 0,
                length: 0,
            }),
            text => range_of(text),
        }
    }
}

/// The range that `START+LENGTH` is.
pub fn range_of(text: &str) -> Result<Range, Trouble> {
    let Some((start, length)) = text.split_once('+') else {
        return Err(Trouble::BadLine);
    };
    Ok(Range {
        start: start.parse::<u64>()?,
        length: length.parse::<u64>()?,
    })
}

/// Ranges, a space between them.
pub fn ranges_of(alloc: Global, text: &str) -> Result<Vec<Range>, Trouble> {
    let mut ranges = Vec::new(alloc);
    for word in text.split_whitespace() {
        ranges.push(range_of(word)?)?;
    }
    Ok(ranges)
}
