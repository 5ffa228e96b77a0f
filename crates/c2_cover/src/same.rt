// Two covered texts side by side.
ghost use Rattle.std.specs.Prelude.{◌≡◌, ◌+◌, take, drop, ◌<◌, ◌≤◌, length, bytes_eq, IfOk};
ghost use Rattle.c2_base.specs.Causes.{HasCause};
ghost use Rattle.c2_base.specs.Source.{ReadsSource, StaysSource};
ghost use Rattle.c2_cover.specs.Causes.{IsOneOfTwo};
ghost use Rattle.c2_cover.specs.Covers.{HaveOneLength, IsSameText};
ghost use Rattle.c2_cover.specs.Unread.{Lies, Refills};

use crate::cover::Cover;
use crate::reader::CoveredReader;
use c2_base::{Failed, Source};

// The bytes of a buffer from `from` up to `to`, which were read and not compared yet.
#[derive(Clone, Copy)]
struct Pending {
    from: usize,
    to: usize,
}

// Reads the next piece, where all bytes are compared.
fn refill<S: Source>(
    reader: &mut CoveredReader<'_>,
    source: &mut S,
    buf: &mut [u8],
    pending: Pending,
) -> Result<Pending, Failed>
    requires room { 0 < length buf.old }
    requires size { S.len source.old ≡ reader.old.size }
    requires lies { Lies pending (length buf.old) }
    ensures filled { IfOk result
        (Refills (S.known source.old) reader.old pending buf.old reader.new buf.new) }
    ensures same_size { reader.new.size ≡ reader.old.size }
    ensures stays { StaysSource S.len S.known S.faults source.old source.new }
    ensures cause { HasCause (S.faults source.old) (S.faults source.new) result }
{
    if pending.from < pending.to {
        return Ok(pending);
    }
    let count = reader.next(source, buf)?;
    Ok(Pending { from: 0, to: count })
}

// Whether the `count` bytes from `from` on of one list are those from `at` on of the other.
fn same_slices(left: &[u8], from: usize, right: &[u8], at: usize, count: usize) -> bool
    requires left { from + count ≤ length left.now }
    requires right { at + count ≤ length right.now }
    ensures { result ≡ bytes_eq (take count (drop from left.now)) (take count (drop at right.now)) }
{
    left[from..from + count] == right[at..at + count]
}

/// Whether two covered texts are equal, read side by side through two buffers that aren't empty.
///
/// Each source has the size of its cover; the buffers may differ in length. Reading stops at the first difference. [`Failed`] comes
/// only where one of the two sources failed. Takes no memory.
pub fn same_text<A: Source, B: Source>(
    first: &mut A,
    cover: &Cover,
    second: &mut B,
    other: &Cover,
    left: &mut [u8],
    right: &mut [u8],
) -> Result<bool, Failed>
    requires left { 0 < length left.old }
    requires right { 0 < length right.old }
    requires size { A.len first.old ≡ cover.now.size }
    requires other_size { B.len second.old ≡ other.now.size }
    ensures same { IfOk result
        (IsSameText cover.now (A.known first.old) other.now (B.known second.old)) }
    ensures lengths { IfOk result (HaveOneLength cover.now other.now) }
    ensures first { ReadsSource A.len A.known A.faults
        (IsOneOfTwo (B.faults second.old) (B.faults second.new)) first.old first.new result }
    ensures second { ReadsSource B.len B.known B.faults
        (IsOneOfTwo (A.faults first.old) (A.faults first.new)) second.old second.new result }
{
    let mut one = CoveredReader::new(cover);
    let mut two = CoveredReader::new(other);
    let mut mine = Pending { from: 0, to: 0 };
    let mut theirs = Pending { from: 0, to: 0 };
    'pieces: loop {
        mine = refill(&mut one, first, left, mine)?;
        theirs = refill(&mut two, second, right, theirs)?;
        let count = (mine.to - mine.from).min(theirs.to - theirs.from);
        if count == 0 {
            return Ok(mine.to - mine.from == theirs.to - theirs.from);
        }
        if !same_slices(left, mine.from, right, theirs.from, count) {
            return Ok(false);
        }
        mine.from += count;
        theirs.from += count;
    }
}
