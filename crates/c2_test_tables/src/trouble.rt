// Why a table isn't gone through to its end.
use c2_base::NoMemory;
use hex::FromHexError;
use std::alloc::{AllocError, AllocFailed};
use std::io;
use std::num::ParseIntError;
use std::str::Utf8Error;

/// Why a table isn't gone through to its end.
#[derive(Clone, Copy, Debug, PartialEq, Eq)]
pub enum Trouble {
    /// Memory ran out.
    NoMemory,

    /// The file can't be read, or isn't text.
    NoTable,

    /// The line is none of a table.
    BadLine,

    /// The words of the command line can't be read, or nothing can be printed.
    NoOutside,
}

impl From<NoMemory> for Trouble {
    fn from(_error: NoMemory) -> Trouble {
        Trouble::NoMemory
    }
}

impl From<AllocError> for Trouble {
    fn from(_error: AllocError) -> Trouble {
        Trouble::NoMemory
    }
}

impl<T: Drop> From<AllocFailed<T>> for Trouble {
    fn from(_error: AllocFailed<T>) -> Trouble {
        Trouble::NoMemory
    }
}

impl From<FromHexError> for Trouble {
    fn from(_error: FromHexError) -> Trouble {
        Trouble::BadLine
    }
}

impl From<ParseIntError> for Trouble {
    fn from(_error: ParseIntError) -> Trouble {
        Trouble::BadLine
    }
}

impl From<Utf8Error> for Trouble {
    fn from(_error: Utf8Error) -> Trouble {
        Trouble::NoTable
    }
}

impl From<io::Error> for Trouble {
    fn from(_error: io::Error) -> Trouble {
        Trouble::NoOutside
    }
}
