// A line that says what a run comes to.
use c2_test_tables::Trouble;
use std::alloc::Global;
use std::fmt;

/// A text that grows piece by piece. That memory ran out is told at its end, so that no piece needs an answer of its own.
#[derive(Drop)]
pub struct Line {
    text: String,
    is_cut: bool,
}

impl Line {
    /// Nothing.
    pub fn new(alloc: Global) -> Line {
        Line {
            text: String::new(alloc),
            is_cut: false,
        }
    }

    /// Appends a text.
    pub fn text(&mut self, text: &str) {
        if self.text.push_str(text).is_err() {
            self.is_cut = true;
        }
    }

    /// Appends a number.
    pub fn number(&mut self, number: u64) {
        if write!(&mut self.text, "{number}").is_err() {
            self.is_cut = true;
        }
    }

    /// Appends bytes as hex.
    pub fn hex(&mut self, bytes: &[u8]) {
        for byte in bytes {
            if write!(&mut self.text, "{byte:02x}").is_err() {
                self.is_cut = true;
            }
        }
    }

    /// Appends a value as Rust shows it.
    pub fn debug<T: fmt::Debug>(&mut self, value: &T) {
        if write!(&mut self.text, "{value:?}").is_err() {
            self.is_cut = true;
        }
    }

    /// The whole text.
    pub fn whole(self) -> Result<String, Trouble> {
        if self.is_cut {
            return Err(Trouble::NoMemory);
        }
        Ok(self.text)
    }
}
