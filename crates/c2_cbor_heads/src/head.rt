//! The head of an item.

ghost use Rattle.std.specs.Int.{w16, w32, w64};
ghost use Rattle.c2_cbor_spec.specs.Reading.{Gives, number_at, byte_at, argument_at, count_at};
ghost use Rattle.c2_cbor_spec.specs.Reading.{major_7, head_of, head_at};

use c2_cbor_spec::{Count, Fault, Head, ReadError};

fn u8_at(bytes: &[u8]) -> Result<(u8, &[u8]), ReadError>
    ensures { Gives (λ x. (x.0, x.1.now)) result (byte_at bytes.now) }
{
    match bytes {
        [] => Err(ReadError::Fault(Fault::Short)),
        [byte, rest @ ..] => Ok((*byte, rest)),
    }
}

fn u16_at(bytes: &[u8]) -> Result<(u16, &[u8]), ReadError>
    ensures { Gives (λ x. (x.0, x.1.now)) result (number_at w16 bytes.now) }
{
    if bytes.len() < 2 {
        return Err(ReadError::Fault(Fault::Short));
    }
    let (front, rest) = bytes.split_at(2);
    let number = u16::from_be_bytes([front[0], front[1]]);
    Ok((number, rest))
}

fn u32_at(bytes: &[u8]) -> Result<(u32, &[u8]), ReadError>
    ensures { Gives (λ x. (x.0, x.1.now)) result (number_at w32 bytes.now) }
{
    if bytes.len() < 4 {
        return Err(ReadError::Fault(Fault::Short));
    }
    let (front, rest) = bytes.split_at(4);
    let number = u32::from_be_bytes([front[0], front[1], front[2], front[3]]);
    Ok((number, rest))
}

fn u64_at(bytes: &[u8]) -> Result<(u64, &[u8]), ReadError>
    ensures { Gives (λ x. (x.0, x.1.now)) result (number_at w64 bytes.now) }
{
    if bytes.len() < 8 {
        return Err(ReadError::Fault(Fault::Short));
    }
    let (front, rest) = bytes.split_at(8);
    let number = u64::from_be_bytes([
        front[0], front[1], front[2], front[3], front[4], front[5], front[6], front[7],
    ]);
    Ok((number, rest))
}

/// The argument of a head at `at` with additional information `info`.
#[tactic(auto, unfolding(c2_cbor_spec::specs::Reading::argument_at))]
pub fn argument(at: usize, info: u8, bytes: &[u8]) -> Result<(u64, &[u8]), ReadError>
    ensures { Gives (λ x. (x.0, x.1.now)) result (argument_at at info bytes.now) }
{
    if info < 24 {
        Ok((u64::from(info), bytes))
    } else if info == 24 {
        let (n, rest) = u8_at(bytes)?;
        Ok((u64::from(n), rest))
    } else if info == 25 {
        let (n, rest) = u16_at(bytes)?;
        Ok((u64::from(n), rest))
    } else if info == 26 {
        let (n, rest) = u32_at(bytes)?;
        Ok((u64::from(n), rest))
    } else if info == 27 {
        u64_at(bytes)
    } else {
        Err(ReadError::Fault(Fault::Reserved(at)))
    }
}

#[tactic(auto, unfolding(c2_cbor_spec::specs::Reading::count_at))]
fn read_count(at: usize, info: u8, bytes: &[u8]) -> Result<(Count, &[u8]), ReadError>
    ensures { Gives (λ x. (x.0, x.1.now)) result (count_at at info bytes.now) }
{
    if info == 31 {
        return Ok((Count::Open, bytes));
    }
    let (n, rest) = argument(at, info, bytes)?;
    Ok((Count::Left(n), rest))
}

#[tactic(auto, unfolding(c2_cbor_spec::specs::Reading::major_7))]
fn simple_or_float(at: usize, info: u8, bytes: &[u8]) -> Result<(Head, &[u8]), ReadError>
    ensures { Gives (λ x. (x.0, x.1.now)) result (major_7 at info bytes.now) }
{
    if info < 24 {
        Ok((Head::Simple(info), bytes))
    } else if info == 24 {
        let (n, rest) = u8_at(bytes)?;
        if n < 32 {
            return Err(ReadError::Fault(Fault::Reserved(at)));
        }
        Ok((Head::Simple(n), rest))
    } else if info == 25 {
        let (n, rest) = u16_at(bytes)?;
        Ok((Head::Half(n), rest))
    } else if info == 26 {
        let (n, rest) = u32_at(bytes)?;
        Ok((Head::Single(n), rest))
    } else if info == 27 {
        let (n, rest) = u64_at(bytes)?;
        Ok((Head::Double(n), rest))
    } else {
        Err(ReadError::Fault(Fault::Reserved(at)))
    }
}

#[tactic(auto, unfolding(c2_cbor_spec::specs::Reading::head_of))]
fn head_by_major(at: usize, major: u8, info: u8, bytes: &[u8]) -> Result<(Head, &[u8]), ReadError>
    ensures { Gives (λ x. (x.0, x.1.now)) result (head_of at major info bytes.now) }
{
    if major == 7 {
        return simple_or_float(at, info, bytes);
    }
    if major == 2 && info == 31 {
        return Ok((Head::ByteChunks, bytes));
    }
    if major == 3 && info == 31 {
        return Ok((Head::TextChunks, bytes));
    }
    if major == 4 {
        let (count, rest) = read_count(at, info, bytes)?;
        return Ok((Head::List(count), rest));
    }
    if major == 5 {
        let (count, rest) = read_count(at, info, bytes)?;
        return Ok((Head::Map(count), rest));
    }
    let (n, rest) = argument(at, info, bytes)?;
    if major == 0 {
        Ok((Head::Uint(n), rest))
    } else if major == 1 {
        Ok((Head::Nint(n), rest))
    } else if major == 2 {
        Ok((Head::Bytes(n), rest))
    } else if major == 3 {
        Ok((Head::Text(n), rest))
    } else {
        Ok((Head::Tag(n), rest))
    }
}

/// The head that the bytes begin with.
#[tactic(auto, unfolding(c2_cbor_spec::specs::Reading::head_at))]
pub fn read_head(bytes: &[u8]) -> Result<(Head, &[u8]), ReadError>
    ensures { Gives (λ x. (x.0, x.1.now)) result (head_at bytes.now) }
{
    match bytes {
        [] => Err(ReadError::Fault(Fault::Short)),
        [first, rest @ ..] => head_by_major(bytes.len(), *first / 32, *first % 32, rest),
    }
}
