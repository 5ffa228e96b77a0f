// Whether all moved places fit into their fields.
ghost use Rattle.std.specs.Prelude.{◌≡◌, ◌+◌, ◌<◌, ◌≤◌, ◌^◌, ℕ, List, [], length, OnOk, IfErr};
ghost use Rattle.std.specs.Prelude.{IfNone, IfSome};
ghost use Rattle.std.specs.Option.{ForSome};
ghost use Rattle.c2_base.specs.Source.{ReadsSource};
ghost use Rattle.c2_bmff_chunks.specs.Fields.{fields_from, fields_of, overflow_places, places_of};
ghost use Rattle.c2_bmff_chunks.specs.Tables.{StandApart, fields_len, table_len};
ghost use Rattle.c2_shift.specs.Causes.{IsCheckCause, IsFirstOverflow, IsFirstPlace};
ghost use Rattle.c2_shift.specs.Parts.{IsAsRead};

use crate::fields::{field_len, fields_len, number_among};
use crate::moving::Shift;
use crate::types::Tables;
use c2_base::{Source, fill_at};
use c2_bmff_chunks::{ChunkTable, ShiftError};

// How many fields are read at once.
const PIECE_FIELDS: u32 = 8_192;

// How many bytes these have.
const PIECE_LEN: usize = 8 * PIECE_FIELDS as usize;

// Where the first of so many fields begins whose moved place doesn't fit. The fields are these bytes, which stand at `pos` of a file.
fn first_overflow(bytes: &[u8], pos: u64, wide: bool, count: u32, shift: &Shift) -> Option<u64>
    requires whole { fields_len wide count ≡ length bytes.now }
    requires inside { pos + length bytes.now < 2 ^ 64 }
    ensures fits { IfNone result ((file : List ℕ) → IsAsRead file pos pos bytes.now
        → places_of shift.now.from shift.now.by file (fields_from wide pos count) ≡ []) }
    ensures first { IfSome result (λ at. (file : List ℕ) → IsAsRead file pos pos bytes.now
        → IsFirstPlace
        (places_of shift.now.from shift.now.by file (fields_from wide pos count)) at) }
    ensures within { IfSome result (λ at. at < pos + length bytes.now) }
{
    let len = field_len(wide);
    let mut done = 0;
    let mut left = count;
    'fields: while left > 0 {
        let number = number_among(bytes, done as usize, wide);
        if shift.overflows(wide, number) {
            return Some(pos + done);
        }
        done += len;
        left -= 1;
    }
    None
}

// Whether the moved places of one table fit. Its fields are read into a buffer, many at once.
fn check_table<S: Source>(
    source: &mut S,
    table: ChunkTable,
    shift: &Shift,
    buf: &mut [u8; PIECE_LEN],
) -> Result<(), ShiftError>
    requires inside { table.first + table_len table ≤ S.len source.old }
    ensures fits { OnOk result (ForSome (S.known source.old) (λ file.
        places_of shift.now.from shift.now.by file (fields_of table) ≡ [])) }
    ensures overflow { IfErr result (λ e. ForSome (S.known source.old) (λ file.
        IsFirstOverflow (places_of shift.now.from shift.now.by file (fields_of table)) e)) }
    ensures reads { ReadsSource S.len S.known S.faults (IsCheckCause (S.len source.old))
        source.old source.new result }
{
    let mut at = table.first;
    let mut left = table.count;
    'pieces: while left > 0 {
        let count = left.min(PIECE_FIELDS);
        let len = fields_len(table.wide, count);
        let piece = &mut buf[..len as usize];
        fill_at(source, at, piece)?;
        if let Some(place) = first_overflow(piece, at, table.wide, count, shift) {
            return Err(ShiftError::Overflow(place));
        }
        at += len;
        left -= count;
    }
    Ok(())
}

/// Refuses the first field of these tables whose place, where it is `from` or greater, doesn't fit into the field once it is greater by
/// `by`: [`ShiftError::Overflow`] names the place where the field begins. [`ShiftError::ReadFault`] comes only where the source failed, and
/// no other error comes. The fields lie in the source, and up to 8,192 of a table are read at once. Takes no memory.
pub fn check_shift<S: Source>(
    source: &mut S,
    tables: &Tables,
    from: u64,
    by: u64,
) -> Result<(), ShiftError>
    requires inside { StandApart 0 (S.len source.old) tables.now }
    ensures fits { OnOk result (ForSome (S.known source.old) (λ file.
        overflow_places from by file tables.now ≡ [])) }
    ensures overflow { IfErr result (λ e. ForSome (S.known source.old) (λ file.
        IsFirstOverflow (overflow_places from by file tables.now) e)) }
    ensures reads { ReadsSource S.len S.known S.faults (IsCheckCause (S.len source.old))
        source.old source.new result }
{
    let shift = Shift { from, by };
    let mut buf = [0; PIECE_LEN];
    let mut rest = tables.as_slice();
    'tables: while rest.len() > 0 {
        // Matched and not handed up by `?`: each way out has clauses of its own.
        match check_table(source, rest[0], &shift, &mut buf) {
            Ok(()) => {}
            Err(error) => return Err(error),
        }
        rest = &rest[1..];
    }
    Ok(())
}
