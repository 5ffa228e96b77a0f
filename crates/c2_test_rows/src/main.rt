//! Tables of rows: whole runs of `run` over files, judges and reports in memory, and what each must come to.
//!
//! The words of the command line name tables, which are files. Each is gone through, and its rows that deviate are told; the rows that
//! hold are counted. `tests/README.md` says how a table is written.
#![tactic(auto)]

mod bytes;
mod given;
mod judges;
mod line;
mod once;
mod settings;
mod sinks;
mod table;
mod views;

use crate::table::Table;
use c2_base::{Blob, HostFile, read_all};
use c2_test_tables::Trouble;
use std::alloc::Global;
use std::env;
use std::process::ExitCode;

// The most bytes of a table.
const MAX_TABLE_LEN: u64 = 4_000_000;

fn main(rt: HostRuntime) -> ExitCode {
    match run_tables(&rt, rt.alloc()) {
        Ok(true) => ExitCode::SUCCESS,
        _ => ExitCode::FAILURE,
    }
}

// Goes through the tables that the words name, and says whether all their rows hold.
fn run_tables(rt: &HostRuntime, alloc: Global) -> Result<bool, Trouble> {
    let mut held = true;
    for name in env::args(rt)?.skip(1) {
        held &= run_table(rt, alloc, name.as_str())?;
    }
    Ok(held)
}

// Goes through a table, and says whether all its rows hold.
fn run_table(rt: &HostRuntime, alloc: Global, name: &str) -> Result<bool, Trouble> {
    let file = text_of(rt, alloc, name)?;
    let mut table = Table::new(alloc);
    for line in str::from_utf8(file.as_slice())?.lines() {
        match table.take(alloc, line) {
            Ok(None) => {}
            Ok(Some(deviation)) => println!(rt; "{name}: {deviation}")?,
            Err(trouble) => {
                let row = table.name();
                println!(rt; "{name}: {trouble:?} at {row}")?;
                return Err(trouble);
            }
        }
    }
    let (held, count) = (table.held(), table.count());
    println!(rt; "{name}: {held} of {count} rows hold")?;
    Ok(held == count)
}

// The bytes of a table.
fn text_of(rt: &HostRuntime, alloc: Global, name: &str) -> Result<Blob, Trouble> {
    let mut file = HostFile::named(rt, name);
    match read_all(alloc, &mut file, MAX_TABLE_LEN) {
        Ok(bytes) => Ok(bytes),
        Err(_) => {
            println!(rt; "{name}: can't be read")?;
            Err(Trouble::NoTable)
        }
    }
}
