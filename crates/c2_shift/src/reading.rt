// Chunk tables read from their boxes.
ghost use Rattle.std.specs.Prelude.{◌≡◌, ◌+◌, ◌<◌, ◌≤◌, [], ◌∷◌, ◌++◌, ℕ, IfOk, IfErr, IfSome};
ghost use Rattle.std.specs.Prelude.{OnOk};
ghost use Rattle.std.specs.Option.{ForSome};
ghost use Rattle.std.specs.List.{flat_map};
ghost use Rattle.c2_base.specs.Causes.{HasCause};
ghost use Rattle.c2_base.specs.Source.{ReadsSource, StaysSource};
ghost use Rattle.c2_bmff_rows.specs.Rows.{IsRowWithin};
ghost use Rattle.c2_bmff_chunks.specs.Refusals.{IsFirstRefusal, sibling_refusals};
ghost use Rattle.c2_bmff_chunks.specs.Tables.{StandApart, is_table_kind, tables_among};
ghost use Rattle.c2_shift.specs.Causes.{IsTablesCause, OrShiftFault};
ghost use Rattle.c2_shift.specs.Walking.{FillsBox, IsTableOr, LieIn, StaysApart};

use crate::fields::{fields_len, number_in};
use c2_base::{Failed, Source};
use c2_bmff_boxes::RootBox;
use c2_bmff_chunks::{ChunkTable, Field, ShiftError};

// The type of the box of offsets of auxiliary information.
const SAIO: [u8; 4] = *b"saio";

// The type of the box of a table of fields of 4 bytes.
const STCO: [u8; 4] = *b"stco";

// The type of the box of a table of fields of 8 bytes.
const CO64: [u8; 4] = *b"co64";

// Whether a box of this type is a table.
fn is_table_kind(kind: [u8; 4]) -> bool
    ensures { result ≡ is_table_kind kind }
{
    kind == STCO || kind == CO64
}

// The table in the box of this row, or None where the box hasn't its form.
fn table_in<S: Source>(source: &mut S, row: RootBox) -> Result<Option<ChunkTable>, Failed>
    requires inside { IsRowWithin (S.len source.old) row }
    ensures table { IfOk result
        (λ t. ForSome (S.known source.old) (λ file. IsTableOr file row t)) }
    ensures fills { IfOk result (λ t. IfSome t (FillsBox row)) }
    ensures stays { StaysSource S.len S.known S.faults source.old source.new }
    ensures cause { HasCause (S.faults source.old) (S.faults source.new) result }
{
    let wide = row.kind == CO64;
    let size = row.length - row.header;
    if size < 8 {
        return Ok(None);
    }
    let start = row.start + row.header;
    let field = Field {
        at: start + 4,
        wide: false,
    };
    let count = number_in(source, field)? as u32;
    if size != 8 + fields_len(wide, count) {
        return Ok(None);
    }
    Ok(Some(ChunkTable {
        first: start + 8,
        count,
        wide,
    }))
}

// Adds the table in the box of this row, where it is one; refuses other offsets, and a table that hasn't its form.
fn add_table<S: Source>(
    source: &mut S,
    row: RootBox,
    tables: &mut Vec<ChunkTable>,
) -> Result<(), ShiftError>
    requires inside { IsRowWithin (S.len source.old) row }
    ensures passed { OnOk result (ForSome (S.known source.old) (λ file.
        (sibling_refusals file row ≡ [])
        × (tables.new.items ≡ tables.old.items ++ tables_among file (row ∷ [])))) }
    ensures refused { IfErr result (λ e. ForSome (S.known source.old) (λ file.
        OrShiftFault e (IsFirstRefusal (sibling_refusals file row) e))) }
    ensures apart { OnOk result ((low : ℕ) → StandApart 0 low tables.old.items
        → low ≤ row.start → StandApart 0 (row.start + row.length) tables.new.items) }
    ensures reads { ReadsSource S.len S.known S.faults (IsTablesCause (S.len source.old))
        source.old source.new result }
{
    if row.kind == SAIO {
        return Err(ShiftError::OffsetTable(row.start));
    }
    if !is_table_kind(row.kind) {
        return Ok(());
    }
    match table_in(source, row) {
        Ok(Some(table)) => {
            tables.push(table)?;
            Ok(())
        }
        Ok(None) => Err(ShiftError::BadTable(row.start)),
        Err(Failed) => Err(ShiftError::ReadFault),
    }
}

/// Adds the tables in the boxes of these rows, in order; refuses other offsets, and a table that hasn't its form.
pub(crate) fn add_tables<S: Source>(
    source: &mut S,
    rows: &[RootBox],
    tables: &mut Vec<ChunkTable>,
) -> Result<(), ShiftError>
    requires inside { LieIn (S.len source.old) rows.now }
    ensures passed { OnOk result (ForSome (S.known source.old) (λ file.
        (flat_map (sibling_refusals file) rows.now ≡ [])
        × (tables.new.items ≡ tables.old.items ++ tables_among file rows.now))) }
    ensures refused { IfErr result (λ e. ForSome (S.known source.old) (λ file.
        OrShiftFault e (IsFirstRefusal (flat_map (sibling_refusals file) rows.now) e))) }
    ensures apart { OnOk result (StaysApart rows.now tables.old.items tables.new.items) }
    ensures reads { ReadsSource S.len S.known S.faults (IsTablesCause (S.len source.old))
        source.old source.new result }
{
    let mut rest = rows;
    'rows: while rest.len() > 0 {
        // Matched and not handed up by `?`, here and below: each way out has clauses of its own.
        match add_table(source, rest[0], tables) {
            Ok(()) => {}
            Err(error) => return Err(error),
        }
        rest = &rest[1..];
    }
    Ok(())
}
