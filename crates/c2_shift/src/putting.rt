// Fields with moved places, put over bytes of a file.
ghost use Rattle.std.specs.Prelude.{◌≡◌, ◌+◌, ◌-◌, ◌<◌, ◌≤◌, ◌^◌, length, min, OnOk};
ghost use Rattle.std.specs.Option.{ForSome};
ghost use Rattle.c2_base.specs.Causes.{HasCause};
ghost use Rattle.c2_base.specs.Source.{StaysSource};
ghost use Rattle.c2_bmff_chunks.specs.Fields.{field_limit, number_bytes};
ghost use Rattle.c2_bmff_chunks.specs.Shifted.{moved_bytes, put_over_from};
ghost use Rattle.c2_bmff_chunks.specs.Tables.{field_len};
ghost use Rattle.c2_shift.specs.Parts.{IsAsRead};

use crate::fields::number_of;
use crate::moving::Shift;
use c2_base::{Failed, Source};
use c2_bmff_chunks::Field;

// How far from the first of so many bytes, which stand at `pos`, a place is: 0 for one before them, and at most their number.
fn within(count: usize, pos: u64, place: u64) -> usize
    ensures { result ≡ min (place - pos) count }
{
    place.saturating_sub(pos).min(count as u64) as usize
}

// Puts a piece that begins at `at` over those of these bytes, which stand at `pos`, that it reaches.
fn put_over(bytes: &mut [u8], pos: u64, at: u64, piece: &[u8])
    requires { at + length piece.now < 2 ^ 64 }
    ensures { bytes.new ≡ put_over_from pos at piece.now bytes.old }
{
    let first = within(bytes.len(), pos, at);
    let end = within(bytes.len(), pos, at + piece.len() as u64);
    let skipped = within(piece.len(), at, pos);
    let count = end - first;
    bytes[first..end].copy_from_slice(&piece[skipped..skipped + count]);
}

// Puts a number over those of these bytes, which stand at `pos`, that its field reaches.
fn put_number(bytes: &mut [u8], pos: u64, field: Field, number: u64)
    requires inside { field.at + field_len field.wide < 2 ^ 64 }
    requires small { number < field_limit field.wide }
    ensures { bytes.new ≡ put_over_from pos field.at (number_bytes field.wide number) bytes.old }
{
    if field.wide {
        put_over(bytes, pos, field.at, &number.to_be_bytes());
    } else {
        put_over(bytes, pos, field.at, &(number as u32).to_be_bytes());
    }
}

/// Puts what a field has once its place is moved over those of these bytes, which stand at `pos`, that it reaches. From the field on these
/// are as they were read.
pub fn put_field<S: Source>(
    source: &mut S,
    field: Field,
    shift: &Shift,
    pos: u64,
    bytes: &mut [u8],
) -> Result<(), Failed>
    requires inside { field.at + field_len field.wide ≤ S.len source.old }
    requires part { pos + length bytes.old ≤ S.len source.old }
    requires raw { ForSome (S.known source.old) (λ file. IsAsRead file pos field.at bytes.old) }
    ensures put { OnOk result (ForSome (S.known source.old) (λ file. bytes.new
        ≡ put_over_from pos field.at (moved_bytes shift.now.from shift.now.by file field)
        bytes.old)) }
    ensures stays { StaysSource S.len S.known S.faults source.old source.new }
    ensures cause { HasCause (S.faults source.old) (S.faults source.new) result }
{
    let number = number_of(source, field, pos, bytes)?;
    put_number(bytes, pos, field, shift.moved(field.wide, number));
    Ok(())
}
