// Reading a file with moved places.
ghost use Rattle.std.specs.Prelude.{◌≡◌, ◌+◌, ◌<◌, ◌≤◌, ◌^◌, ℕ, length, take, OnOk, option_map};
ghost use Rattle.std.specs.List.{AllByRecursion};
ghost use Rattle.std.specs.Option.{ForSome};
ghost use Rattle.c2_base.specs.Causes.{HasCause};
ghost use Rattle.c2_base.specs.Source.{FilledAt, StaysSource};
ghost use Rattle.c2_bmff_chunks.specs.Fields.{all_fields, fields_of};
ghost use Rattle.c2_bmff_chunks.specs.Shifted.{part_with, shifted};
ghost use Rattle.c2_bmff_chunks.specs.Tables.{StandApart, fields_len, table_len};
ghost use Rattle.c2_bmff_chunks.specs.declared.table.ChunkTable.{ChunkTable};
ghost use Rattle.c2_shift.specs.Parts.{IsAsRead};

use crate::fields::{field_len, fields_len};
use crate::moving::Shift;
use crate::putting::put_field;
use crate::types::Tables;
use c2_base::{Failed, Source, fill_at};
use c2_bmff_chunks::{ChunkTable, Field};

// Where the fields of a table end.
fn end_of(table: ChunkTable) -> u64
    requires { table.first + table_len table < 2 ^ 64 }
    ensures { result ≡ table.first + table_len table }
{
    table.first + fields_len(table.wide, table.count)
}

// How many fields of a table end at a place or before it.
fn passed(table: ChunkTable, pos: u64) -> u32
    requires { table.first + table_len table < 2 ^ 64 }
    ensures count { result ≤ table.count }
    ensures end { 0 < result → table.first + fields_len table.wide result ≤ pos }
{
    let gap = pos.saturating_sub(table.first);
    let fields = if table.wide { gap / 8 } else { gap / 4 };
    fields.min(table.count as u64) as u32
}

// Puts what the fields of a table have over those of these bytes, which stand at `pos`, that they reach. From the first field on these are
// as they were read.
fn put_table<S: Source>(
    source: &mut S,
    table: ChunkTable,
    shift: &Shift,
    pos: u64,
    bytes: &mut [u8],
) -> Result<(), Failed>
    requires inside { table.first + table_len table ≤ S.len source.old }
    requires part { pos + length bytes.old ≤ S.len source.old }
    requires raw { ForSome (S.known source.old) (λ file. IsAsRead file pos table.first bytes.old) }
    ensures put { OnOk result (ForSome (S.known source.old) (λ file. bytes.new
        ≡ part_with shift.now.from shift.now.by pos file (fields_of table) bytes.old)) }
    ensures raw { OnOk result (ForSome (S.known source.old) (λ file.
        IsAsRead file pos (table.first + table_len table) bytes.new)) }
    ensures stays { StaysSource S.len S.known S.faults source.old source.new }
    ensures cause { HasCause (S.faults source.old) (S.faults source.new) result }
{
    let end = pos + bytes.len() as u64;
    let len = field_len(table.wide);
    let skipped = passed(table, pos);
    let mut at = table.first + fields_len(table.wide, skipped);
    let mut left = table.count - skipped;
    'fields: while left > 0 {
        if at >= end {
            return Ok(());
        }
        let field = Field {
            at,
            wide: table.wide,
        };
        put_field(source, field, shift, pos, bytes)?;
        at += len;
        left -= 1;
    }
    Ok(())
}

// How many of these tables, at least, end at a place or before it: those after them, but maybe the first, end behind it.
fn first_behind(tables: &[ChunkTable], pos: u64) -> usize
    requires { (high : ℕ) × StandApart 0 high tables.now × (high < 2 ^ 64) }
    ensures count { result ≤ length tables.now }
    ensures before { AllByRecursion (λ (t : ChunkTable). t.first + table_len t ≤ pos)
        (take result tables.now) }
{
    let mut low = 0;
    let mut high = tables.len();
    'halves: while low < high {
        let middle = low + (high - low) / 2;
        if end_of(tables[middle]) <= pos {
            low = middle + 1;
        } else {
            high = middle;
        }
    }
    low
}

/// Puts what the fields of tables have over those of these bytes, which were read at `pos`, that they reach.
pub(crate) fn put_tables<S: Source>(
    source: &mut S,
    tables: &[ChunkTable],
    shift: &Shift,
    pos: u64,
    bytes: &mut [u8],
) -> Result<(), Failed>
    requires inside { StandApart 0 (S.len source.old) tables.now }
    requires part { pos + length bytes.old ≤ S.len source.old }
    requires raw { FilledAt (S.known source.old) pos bytes.old }
    ensures put { OnOk result (ForSome (S.known source.old) (λ file. bytes.new
        ≡ part_with shift.now.from shift.now.by pos file (all_fields tables.now) bytes.old)) }
    ensures stays { StaysSource S.len S.known S.faults source.old source.new }
    ensures cause { HasCause (S.faults source.old) (S.faults source.new) result }
{
    let end = pos + bytes.len() as u64;
    let mut rest = &tables[first_behind(tables, pos)..];
    'tables: while rest.len() > 0 {
        let table = rest[0];
        if table.first >= end {
            return Ok(());
        }
        put_table(source, table, shift, pos, bytes)?;
        rest = &rest[1..];
    }
    Ok(())
}

/// Fills `buf` with the bytes from `pos` on of a file in whose tables each place from `from` on is greater by `by`. A place that would be
/// too large for its field stays, which never comes where [`crate::check_shift`] passes. The fields and the bytes lie in the source. Fields
/// that lie in the buffer are taken from it, so that at most two are read besides.
///
/// `Failed` comes only where the source failed; `buf` may hold other bytes then. Takes no memory.
pub fn read_shifted<S: Source>(
    source: &mut S,
    tables: &Tables,
    from: u64,
    by: u64,
    pos: u64,
    buf: &mut [u8],
) -> Result<(), Failed>
    requires inside { StandApart 0 (S.len source.old) tables.now }
    requires part { pos + length buf.old ≤ S.len source.old }
    ensures filled { OnOk result
        (FilledAt (option_map (shifted from by tables.now) (S.known source.old)) pos buf.new) }
    ensures stays { StaysSource S.len S.known S.faults source.old source.new }
    ensures cause { HasCause (S.faults source.old) (S.faults source.new) result }
{
    fill_at(source, pos, buf)?;
    put_tables(source, tables.as_slice(), &Shift { from, by }, pos, buf)?;
    Ok(())
}
