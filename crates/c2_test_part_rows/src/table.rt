// A table, line by line.
use crate::settings::Settings;
use crate::views::view;
use c2_test_tables::Trouble;
use std::alloc::Global;

/// What the lines so far say, and how many rows there were.
#[derive(Drop)]
pub struct Table {
    settings: Settings,
    input: String,
    count: u64,
    held: u64,
}

impl Table {
    /// A table without lines.
    pub fn new(alloc: Global) -> Table {
        Table {
            settings: Settings::new(alloc),
            input: String::new(alloc),
            count: 0,
            held: 0,
        }
    }

    /// How many rows there were.
    pub fn count(&self) -> u64 {
        self.count
    }

    /// How many of them hold.
    pub fn held(&self) -> u64 {
        self.held
    }

    /// Takes in a line: a remark, a row, or a setting. Says how a row deviates.
    pub fn take(&mut self, alloc: Global, line: &str) -> Result<Option<String>, Trouble> {
        if line.is_empty() || line.starts_with("# ") {
            return Ok(None);
        }
        let Some((input, wanted)) = line.split_once(" => ") else {
            let Some((key, value)) = line.split_once(':') else {
                return Err(Trouble::BadLine);
            };
            self.settings.set(alloc, key, value.trim())?;
            return Ok(None);
        };
        // A dot stands for the input of the row before.
        if input != "." {
            self.input = String::from_str(alloc, input)?;
        }
        self.count = self.count.saturating_add(1);
        let got = view(alloc, &self.settings, self.input.as_str())?;
        if got.as_str() == wanted {
            self.held = self.held.saturating_add(1);
            return Ok(None);
        }
        Ok(Some(format!(in alloc; "{input}: wanted {wanted}, got {got}")?))
    }
}
