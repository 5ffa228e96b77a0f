// How often a source is called.
use crate::pairs::{Pair, approving, compared, pair_of, row_of};
use c2_base::{Blob, MemSink, MemSource};
use c2_hash::Sha;
use c2_validate::validate;
use std::alloc::Global;
use std::test::Fail;

// The most calls of one source here.
const MOST_CALLS: u64 = 10_000;

// How many bytes a call gives at most.
const PIECE: usize = 1_000;

// The first call of a file's source that its check doesn't make: one that fails at any before it fails the check.
fn first_unmade_by_check(alloc: Global, file: &[u8]) -> Result<u64, Fail> {
    for n in 1..MOST_CALLS {
        let mut source = MemSource::new(Blob::copied(alloc, file)?, PIECE, n);
        let mut judges = approving(alloc, 0)?;
        if validate(alloc, &Sha, &mut source, &mut judges).is_ok() {
            return Ok(n);
        }
    }
    Ok(0)
}

// The first call of the first file's source that a comparison doesn't make, or of the second's.
fn first_unmade(alloc: Global, pair: &Pair, of_first: bool) -> Result<u64, Fail> {
    for n in 1..MOST_CALLS {
        let (at, other_at) = if of_first { (n, 0) } else { (0, n) };
        let first = Blob::copied(alloc, pair.first.as_slice())?;
        let second = Blob::copied(alloc, pair.second.as_slice())?;
        let mut first = MemSource::new(first, PIECE, at);
        let mut second = MemSource::new(second, PIECE, other_at);
        let mut report = MemSink::with_room(alloc, 10_000, 0)?;
        let mut judges = approving(alloc, 0)?;
        let came = compared(
            alloc,
            pair.hash,
            &mut first,
            &mut second,
            &mut judges,
            &mut report,
        );
        if came.is_ok() {
            return Ok(n);
        }
    }
    Ok(0)
}

#[test]
fn files_with_other_claims_are_read_as_often_as_their_checks_read_them(
    rt: HostRuntime,
) -> Result<(), Fail> {
    let alloc = rt.alloc();
    let pair = pair_of(alloc, row_of("# other claims"))?;
    let by_check = first_unmade_by_check(alloc, pair.first.as_slice())?;
    let other_by_check = first_unmade_by_check(alloc, pair.second.as_slice())?;
    assert!(rt; 1 < by_check);
    assert!(rt; 1 < other_by_check);
    assert_eq!(rt; first_unmade(alloc, &pair, true)?, by_check);
    assert_eq!(rt; first_unmade(alloc, &pair, false)?, other_by_check);
    Ok(())
}
