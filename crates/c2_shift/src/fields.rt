// Fields of chunk tables, in a source and among bytes of it.
ghost use Rattle.std.specs.Prelude.{◌≡◌, ◌+◌, ◌<◌, ◌≤◌, take, drop, length, IfOk};
ghost use Rattle.std.specs.Int.{w32, w64, from_be_bytes};
ghost use Rattle.std.specs.Option.{ForSome};
ghost use Rattle.c2_base.specs.Causes.{HasCause};
ghost use Rattle.c2_base.specs.Source.{StaysSource};
ghost use Rattle.c2_bmff_chunks.specs.Fields.{field_limit, number_at};
ghost use Rattle.c2_bmff_chunks.specs.Tables.{field_len, fields_len};
ghost use Rattle.c2_shift.specs.Parts.{IsAsRead};

use c2_base::{Failed, Source, fill_at};
use c2_bmff_chunks::Field;

/// How many bytes a field has.
pub fn field_len(wide: bool) -> u64
    ensures { result ≡ field_len wide }
{
    if wide { 8 } else { 4 }
}

/// How many bytes so many fields have.
pub fn fields_len(wide: bool, count: u32) -> u64
    ensures { result ≡ fields_len wide count }
{
    if wide {
        count as u64 * 8
    } else {
        count as u64 * 4
    }
}

// The number in the four bytes from `at` on.
fn u32_at(bytes: &[u8], at: usize) -> u32
    requires { at + 4 ≤ length bytes.now }
    ensures { result ≡ from_be_bytes w32 (take 4 (drop at bytes.now)) }
{
    u32::from_be_bytes([bytes[at], bytes[at + 1], bytes[at + 2], bytes[at + 3]])
}

// The number in the eight bytes from `at` on.
fn u64_at(bytes: &[u8], at: usize) -> u64
    requires { at + 8 ≤ length bytes.now }
    ensures { result ≡ from_be_bytes w64 (take 8 (drop at bytes.now)) }
{
    u64::from_be_bytes([
        bytes[at],
        bytes[at + 1],
        bytes[at + 2],
        bytes[at + 3],
        bytes[at + 4],
        bytes[at + 5],
        bytes[at + 6],
        bytes[at + 7],
    ])
}

/// The number in the field that begins at a place of these bytes.
pub fn number_among(bytes: &[u8], at: usize, wide: bool) -> u64
    requires inside { at + field_len wide ≤ length bytes.now }
    ensures number { result ≡ number_at wide bytes.now at }
    ensures small { result < field_limit wide }
{
    if wide {
        return u64_at(bytes, at);
    }
    u32_at(bytes, at) as u64
}

/// The number in a field of a source.
pub fn number_in<S: Source>(source: &mut S, field: Field) -> Result<u64, Failed>
    requires inside { field.at + field_len field.wide ≤ S.len source.old }
    ensures number { IfOk result
        (λ n. ForSome (S.known source.old) (λ file. n ≡ number_at field.wide file field.at)) }
    ensures small { IfOk result (λ n. n < field_limit field.wide) }
    ensures stays { StaysSource S.len S.known S.faults source.old source.new }
    ensures cause { HasCause (S.faults source.old) (S.faults source.new) result }
{
    if field.wide {
        let mut bytes = [0; 8];
        fill_at(source, field.at, &mut bytes)?;
        return Ok(u64::from_be_bytes(bytes));
    }
    let mut bytes = [0; 4];
    fill_at(source, field.at, &mut bytes)?;
    Ok(u32::from_be_bytes(bytes) as u64)
}

/// The number in a field of a source: taken from these bytes, which stand at `pos` of it and from the field on are as they were read,
/// where the field lies in them; else read.
pub fn number_of<S: Source>(
    source: &mut S,
    field: Field,
    pos: u64,
    bytes: &[u8],
) -> Result<u64, Failed>
    requires inside { field.at + field_len field.wide ≤ S.len source.old }
    requires part { pos + length bytes.now ≤ S.len source.old }
    requires raw { ForSome (S.known source.old) (λ file. IsAsRead file pos field.at bytes.now) }
    ensures number { IfOk result
        (λ n. ForSome (S.known source.old) (λ file. n ≡ number_at field.wide file field.at)) }
    ensures small { IfOk result (λ n. n < field_limit field.wide) }
    ensures stays { StaysSource S.len S.known S.faults source.old source.new }
    ensures cause { HasCause (S.faults source.old) (S.faults source.new) result }
{
    let end = pos + bytes.len() as u64;
    if pos <= field.at && field.at + field_len(field.wide) <= end {
        let first = (field.at - pos) as usize;
        return Ok(number_among(bytes, first, field.wide));
    }
    let number = number_in(source, field)?;
    Ok(number)
}
