// The files of a row.
use crate::bytes::bytes_of;
use c2_test_tables::Trouble;
use std::alloc::Global;

/// The files that rows have had at the four places of sources, and how many of them the last row has.
#[derive(Drop)]
pub struct Given {
    pub first: Vec<u8>,
    pub second: Vec<u8>,
    pub third: Vec<u8>,
    pub fourth: Vec<u8>,
    pub count: usize,
}

/// The files of a row, and the lengths of pieces in which they are read.
#[derive(Clone, Copy)]
pub struct Read<'a> {
    pub first: &'a [u8],
    pub second: Option<&'a [u8]>,
    pub third: Option<&'a [u8]>,
    pub fourth: Option<&'a [u8]>,
    pub pieces: (usize, usize),
}

impl Given {
    /// No files.
    pub fn new(alloc: Global) -> Given {
        Given {
            first: Vec::new(alloc),
            second: Vec::new(alloc),
            third: Vec::new(alloc),
            fourth: Vec::new(alloc),
            count: 0,
        }
    }

    /// Takes in what stands in a row: up to four files with bars between them. A dot stands for the last file at this place.
    pub fn take(&mut self, alloc: Global, text: &str) -> Result<(), Trouble> {
        self.count = 0;
        for file in text.split(" | ") {
            self.take_file(alloc, file)?;
        }
        Ok(())
    }

    // Takes in the next file.
    fn take_file(&mut self, alloc: Global, file: &str) -> Result<(), Trouble> {
        let place = self.count;
        self.count = self.count.saturating_add(1);
        match place {
            0 => put(alloc, &mut self.first, file),
            1 => put(alloc, &mut self.second, file),
            2 => put(alloc, &mut self.third, file),
            3 => put(alloc, &mut self.fourth, file),
            _ => Err(Trouble::BadLine),
        }
    }

    /// These files with another first one, read in pieces of these lengths.
    pub fn with_first<'a>(&'a self, first: &'a [u8], pieces: (usize, usize)) -> Read<'a> {
        Read {
            first,
            second: self.behind(1, &self.second),
            third: self.behind(2, &self.third),
            fourth: self.behind(3, &self.fourth),
            pieces,
        }
    }

    // This file, where the row has more files than these.
    fn behind<'a>(&'a self, count: usize, file: &'a Vec<u8>) -> Option<&'a [u8]> {
        if self.count > count {
            Some(file.as_slice())
        } else {
            None
        }
    }
}

// Puts a file into its place, unless it is the one that is there.
fn put(alloc: Global, place: &mut Vec<u8>, file: &str) -> Result<(), Trouble> {
    if file != "." {
        *place = bytes_of(alloc, file)?;
    }
    Ok(())
}
