// The chunk tables of a file.
ghost use Rattle.std.specs.Prelude.{◌≡◌, ◌+◌, ◌<◌, [], ◌++◌, ℕ, All, IfOk, IfErr, OnOk, Some, None};
ghost use Rattle.std.specs.Option.{ForSome};
ghost use Rattle.c2_base.specs.Source.{ReadsSource};
ghost use Rattle.c2_bmff_rows.specs.Rows.{IsBoxWithin, IsRowWithin};
ghost use Rattle.c2_bmff_boxes.specs.Causes.{IsBmffCaused, OrBmffFault};
ghost use Rattle.c2_bmff_boxes.specs.Roots.{FillSource};
ghost use Rattle.c2_bmff_chunks.specs.Refusals.{IsFirstRefusal, is_other_table, refusals_below};
ghost use Rattle.c2_bmff_chunks.specs.Refusals.{root_refusals, shift_refusals};
ghost use Rattle.c2_bmff_chunks.specs.Tables.{StandApart, chunk_tables, inner, tables_below};
ghost use Rattle.c2_bmff_chunks.specs.declared.table.ShiftError.TheVariants.{BadTree};
ghost use Rattle.c2_shift.specs.Causes.{IsTablesCause, OrShiftFault};
ghost use Rattle.c2_shift.specs.Walking.{IsFirstKind, LieIn, Skips, StaysApart};

use crate::reading::add_tables;
use crate::types::Tables;
use c2_base::{MediaError, Source};
use c2_bmff_boxes::types::Roots;
use c2_bmff_boxes::{RootBox, boxes_between};
use c2_bmff_chunks::{ChunkTable, ShiftError};
use std::alloc::Global;

// The types of the boxes on the path to tables, each inside one before it.
const PATH: [[u8; 4]; 5] = [*b"moov", *b"trak", *b"mdia", *b"minf", *b"stbl"];

// The type of the box of a fragment.
const MOOF: [u8; 4] = *b"moof";

// The type of the box that tells where fragments are.
const MFRA: [u8; 4] = *b"mfra";

// The type of the box of items.
const META: [u8; 4] = *b"meta";

// Whether a root box of this type holds offsets that aren't known.
fn is_other_table(kind: [u8; 4]) -> bool
    ensures { result ≡ is_other_table kind }
{
    kind == MOOF || kind == MFRA || kind == META
}

// Refuses the first root box that holds offsets that aren't known.
fn check_roots(rows: &[RootBox]) -> Result<(), ShiftError>
    ensures passed { OnOk result (root_refusals rows.now ≡ []) }
    ensures refused { IfErr result (IsFirstRefusal (root_refusals rows.now)) }
{
    let mut rest = rows;
    'rows: while rest.len() > 0 {
        let row = rest[0];
        if is_other_table(row.kind) {
            return Err(ShiftError::OffsetTable(row.start));
        }
        rest = &rest[1..];
    }
    Ok(())
}

// These rows from the first one of this type on.
fn skip_others<'r>(rows: &'r [RootBox], kind: [u8; 4]) -> &'r [RootBox]
    ensures skips { Skips kind rows.now result.now }
    ensures first { IsFirstKind kind result.now }
{
    let mut rest = rows;
    'rows: while rest.len() > 0 {
        let row = rest[0];
        if row.kind == kind {
            return rest;
        }
        rest = &rest[1..];
    }
    rest
}

// The error of a list of boxes as one of a shift: that the source failed, or that memory ran out.
fn list_error(error: MediaError) -> ShiftError
    requires { OrBmffFault error ⊥ }
    ensures outside { OrShiftFault result ⊥ }
    ensures cause { (len before now : ℕ) → IsBmffCaused before now error
        → IsTablesCause len before now result }
{
    match error {
        MediaError::ReadFault => ShiftError::ReadFault,
        MediaError::NoMemory => ShiftError::NoMemory,
        // No other error comes.
        MediaError::NotMedia
        | MediaError::FileTooLarge(_)
        | MediaError::Truncated(_)
        | MediaError::BadMarker(_)
        | MediaError::BadSegment(_)
        | MediaError::BadPacket(_)
        | MediaError::TwoStores(_)
        | MediaError::BadBox(_)
        | MediaError::BadProvenanceBox(_)
        | MediaError::StoreTooLarge(_)
        | MediaError::TooManyBoxes => unreachable!(),
    }
}

// The list of boxes inside the one of this row; refuses a box that no such list fills.
fn inner_boxes<S: Source>(alloc: Global, source: &mut S, row: RootBox) -> Result<Roots, ShiftError>
    requires inside { IsRowWithin (S.len source.old) row }
    ensures found { IfOk result
        (λ l. ForSome (S.known source.old) (λ file. inner file row ≡ Some l)) }
    ensures refused { IfErr result (λ e. ForSome (S.known source.old) (λ file.
        OrShiftFault e ((inner file row ≡ None) × (e ≡ BadTree row.start)))) }
    ensures fill { IfOk result
        (FillSource (row.start + row.length) (row.start + row.header)) }
    ensures reads { ReadsSource S.len S.known S.faults (IsTablesCause (S.len source.old))
        source.old source.new result }
{
    let start = row.start + row.header;
    let end = row.start + row.length;
    match boxes_between(alloc, source, start, end) {
        Ok(Some(list)) => Ok(list),
        Ok(None) => Err(ShiftError::BadTree(row.start)),
        Err(error) => Err(list_error(error)),
    }
}

// Adds the tables below these rows on a path of boxes of these types, each inside one before it. What is refused comes in the order of
// boxes, a box before those inside it.
fn visit<S: Source>(
    alloc: Global,
    source: &mut S,
    kinds: &[[u8; 4]],
    rows: &[RootBox],
    tables: &mut Vec<ChunkTable>,
) -> Result<(), ShiftError>
    requires inside { LieIn (S.len source.old) rows.now }
    ensures passed { OnOk result (ForSome (S.known source.old) (λ file.
        (refusals_below file kinds.now rows.now ≡ [])
        × (tables.new.items ≡ tables.old.items ++ tables_below file kinds.now rows.now))) }
    ensures refused { IfErr result (λ e. ForSome (S.known source.old) (λ file.
        OrShiftFault e (IsFirstRefusal (refusals_below file kinds.now rows.now) e))) }
    ensures apart { OnOk result (StaysApart rows.now tables.old.items tables.new.items) }
    ensures reads { ReadsSource S.len S.known S.faults (IsTablesCause (S.len source.old))
        source.old source.new result }
{
    if kinds.is_empty() {
        return add_tables(source, rows, tables);
    }
    let kind = kinds[0];
    let mut rest = skip_others(rows, kind);
    'rows: while rest.len() > 0 {
        let list = match inner_boxes(alloc, source, rest[0]) {
            Ok(list) => list,
            Err(error) => return Err(error),
        };
        match visit(alloc, source, &kinds[1..], list.as_slice(), tables) {
            Ok(()) => {}
            Err(error) => return Err(error),
        }
        rest = skip_others(&rest[1..], kind);
    }
    Ok(())
}

/// The chunk tables of a BMFF file with these root boxes, which lie in the source.
///
/// The errors come in this order: [`ShiftError::OffsetTable`] for the first root box `moof`, `mfra` or `meta`; then, a box before those
/// inside it, [`ShiftError::BadTree`] for a box on the path to tables that no list of boxes fills, and at the siblings of tables
/// `OffsetTable` for a `saio` and [`ShiftError::BadTable`] for a table that hasn't its form. [`ShiftError::ReadFault`] comes only where the
/// source failed, [`ShiftError::NoMemory`] where memory ran out, and no other error comes. Each box on the path is read once.
pub fn tables<S: Source>(alloc: Global, source: &mut S, roots: &Roots) -> Result<Tables, ShiftError>
    requires inside { All (IsBoxWithin (S.len source.old)) roots.now }
    ensures found { IfOk result (λ t. ForSome (S.known source.old) (λ file.
        (shift_refusals file roots.now ≡ []) × (t ≡ chunk_tables file roots.now))) }
    ensures refused { IfErr result (λ e. ForSome (S.known source.old) (λ file.
        OrShiftFault e (IsFirstRefusal (shift_refusals file roots.now) e))) }
    ensures inside { IfOk result (StandApart 0 (S.len source.old)) }
    ensures reads { ReadsSource S.len S.known S.faults (IsTablesCause (S.len source.old))
        source.old source.new result }
{
    let rows = roots.as_slice();
    match check_roots(rows) {
        Ok(()) => {}
        Err(error) => return Err(error),
    }
    let mut tables = Vec::new(alloc);
    match visit(alloc, source, &PATH, rows, &mut tables) {
        Ok(()) => Ok(Tables { tables }),
        Err(error) => Err(error),
    }
}
