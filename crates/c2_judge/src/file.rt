// Reading a verdict file into a map.
ghost use Rattle.std.specs.Prelude.{OnOk};
ghost use Rattle.c2_judge.specs.Reading.{HasReadRows, AddsRow};

use crate::rows::{read_row, split_line};
use c2_base::NoMemory;
use c2_spec::{ListError, Verdict, VerdictRow};
use std::alloc::Global;
use std::collections::BTreeMap;

/// Verdicts by the ids of their questions.
pub type Verdicts = BTreeMap<[u8; 32], Verdict>;

// Adds a row, unless an earlier one has its id.
fn add_row(verdicts: &mut Verdicts, row: VerdictRow) -> Result<(), NoMemory>
    ensures { OnOk result (AddsRow row verdicts.old verdicts.new) }
{
    if !verdicts.contains_key(&row.id) {
        verdicts.insert(row.id, row.verdict)?;
    }
    Ok(())
}

// The rows of a verdict file, or its first bad line.
pub fn read_rows(alloc: Global, bytes: &[u8]) -> Result<Verdicts, ListError>
    ensures { HasReadRows bytes.now result }
{
    let mut verdicts = BTreeMap::new(alloc);
    let mut rest = bytes;
    let mut number = 0;
    'lines: while !rest.is_empty() {
        let (line, after) = split_line(rest);
        number += 1;
        let Some(row) = read_row(line) else {
            return Err(ListError::BadRow(number));
        };
        if add_row(&mut verdicts, row).is_err() {
            return Err(ListError::NoMemory);
        }
        rest = after;
    }
    Ok(verdicts)
}
