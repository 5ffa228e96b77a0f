// A line that says what an input comes to.
use c2_base::Text;
use c2_hash::{Alg, Sha, digest_of};
use c2_test_tables::Trouble;
use std::alloc::Global;
use std::fmt;

/// A text that grows piece by piece. That memory ran out is told at its end, so that no piece needs an answer of its own.
#[derive(Drop)]
pub struct Line {
    text: String,
    is_cut: bool,
}

impl Line {
    /// Nothing.
    pub fn new(alloc: Global) -> Line {
        Line {
            text: String::new(alloc),
            is_cut: false,
        }
    }

    /// Memory ran out for what belongs here.
    pub fn cut(&mut self) {
        self.is_cut = true;
    }

    /// Appends a text.
    pub fn text(&mut self, text: &str) {
        if self.text.push_str(text).is_err() {
            self.is_cut = true;
        }
    }

    /// Appends what stands between one thing and the next: nothing before the first.
    pub fn between(&mut self, is_first: bool, gap: &str) {
        if !is_first {
            self.text(gap);
        }
    }

    /// Appends a text, or `-` where there is none.
    pub fn name(&mut self, name: &Option<Text>) {
        match name {
            Some(name) => self.text(name.as_str()),
            None => self.text("-"),
        }
    }

    /// Appends a number.
    pub fn number(&mut self, number: u64) {
        if write!(&mut self.text, "{number}").is_err() {
            self.is_cut = true;
        }
    }

    /// Appends a start and a length.
    pub fn range(&mut self, start: u64, length: u64) {
        self.number(start);
        self.text("+");
        self.number(length);
    }

    /// Appends bytes as hex.
    pub fn hex(&mut self, bytes: &[u8]) {
        for byte in bytes {
            if write!(&mut self.text, "{byte:02x}").is_err() {
                self.is_cut = true;
            }
        }
    }

    /// Appends how many bytes these are, and their digest.
    pub fn digest(&mut self, bytes: &[u8]) {
        self.number(bytes.len() as u64);
        self.text(" ");
        self.hex(digest_of(&Sha, Alg::Sha256, bytes).as_slice());
    }

    /// Appends a value as Rust shows it.
    pub fn debug<T: fmt::Debug>(&mut self, value: &T) {
        if write!(&mut self.text, "{value:?}").is_err() {
            self.is_cut = true;
        }
    }

    /// The whole text.
    pub fn whole(self) -> Result<String, Trouble> {
        if self.is_cut {
            return Err(Trouble::NoMemory);
        }
        Ok(self.text)
    }
}

/// A value as Rust shows it.
pub fn shown<T: fmt::Debug>(alloc: Global, value: &T) -> Result<String, Trouble> {
    let mut out = Line::new(alloc);
    out.debug(value);
    out.whole()
}
