// What is read of a file, and texts that are compared. What is expected was worked out by hand: the files' bytes say their places.
ghost use Rattle.std.specs.Prelude.{◌+◌, ◌≤◌};

use c2_base::{Blob, Failed, MemSource, Range, VastSource};
use c2_cover::{CoveredReader, cover_without, covered_count, data_cover, digest_cover, same_text};
use c2_hash::{Alg, Sha, digest_of};
use std::alloc::Global;
use std::test::Fail;

// Bytes that say their places.
const PLACES: [u8; 20] = [
    0, 1, 2, 3, 4, 5, 6, 7, 8, 9, 10, 11, 12, 13, 14, 15, 16, 17, 18, 19,
];

fn range(start: u64, length: u64) -> Range {
    Range { start, length }
}

// All of 2^61 bytes are excluded but the first and the last: two reads.
#[test]
fn excluded_bytes_are_not_read(rt: HostRuntime) -> Result<(), Fail> {
    let alloc = rt.alloc();
    let mut vast = VastSource::new(Blob::copied(alloc, &[7])?, 1 << 61);
    let Ok(cover) = data_cover(alloc, &[range(1, (1 << 61) - 2)], 1 << 61) else {
        assert!(rt; false);
        return Ok(());
    };
    assert_eq!(rt; covered_count(&cover), 2);
    let mut buf = [0; 64];
    let found = digest_cover(&Sha, &mut vast, &cover, Alg::Sha256, &mut buf);
    assert!(rt; found == Ok(digest_of(&Sha, Alg::Sha256, &[7, 0])));
    Ok(())
}

// A source that fails at its second read: the reader stays where it was, and the text goes on without a gap.
#[test]
fn a_failed_read_changes_nothing(rt: HostRuntime) -> Result<(), Fail> {
    let alloc = rt.alloc();
    let mut source = MemSource::new(Blob::copied(alloc, &PLACES)?, 4, 2);
    let Ok(cover) = data_cover(alloc, &[range(4, 12)], 20) else {
        assert!(rt; false);
        return Ok(());
    };
    let mut reader = CoveredReader::new(&cover);
    let mut buf = [99; 4];
    assert!(rt; reader.next(&mut source, &mut buf) == Ok(4));
    assert!(rt; buf == [0, 1, 2, 3]);
    assert!(rt; reader.next(&mut source, &mut buf) == Err(Failed));
    assert!(rt; reader.next(&mut source, &mut buf) == Ok(4));
    assert!(rt; buf == [16, 17, 18, 19]);
    assert!(rt; reader.next(&mut source, &mut buf) == Ok(0));
    Ok(())
}

// Whether what one range leaves of `PLACES` is what others leave of a file with these bytes.
fn same(
    alloc: Global,
    once: Range,
    others: [Range; 3],
    copy: [u8; 20],
) -> Result<Option<bool>, Fail> {
    let mut one = MemSource::new(Blob::copied(alloc, &PLACES)?, 1, 0);
    let mut two = MemSource::new(Blob::copied(alloc, &copy)?, 65_536, 0);
    let Ok(cover) = data_cover(alloc, &[once], 20) else {
        return Ok(None);
    };
    let mut inside = [clamped(others[0]), clamped(others[1]), clamped(others[2])];
    let Ok(other) = cover_without(alloc, &mut inside, 20) else {
        return Ok(None);
    };
    let mut left = [0; 1];
    let mut right = [0; 4];
    Ok(same_text(&mut one, &cover, &mut two, &other, &mut left, &mut right).ok())
}

// The part of a range that lies before position 20.
fn clamped(range: Range) -> Range
    ensures { result.start + result.length ≤ 20 }
{
    let start = range.start.min(20);
    Range {
        start,
        length: range.length.min(20 - start),
    }
}

#[test]
fn texts_are_compared_to_their_ends(rt: HostRuntime) -> Result<(), Fail> {
    let alloc = rt.alloc();
    let once = range(7, 10);
    let none = range(0, 0);
    // Ranges that aren't sorted, overlap and touch.
    let jumbled = [range(12, 5), range(7, 3), range(9, 4)];
    assert!(rt; same(alloc, once, jumbled, PLACES)? == Some(true));
    // The second text is a byte longer, and a byte shorter.
    assert!(rt; same(alloc, once, [range(7, 9), none, none], PLACES)? == Some(false));
    assert!(rt; same(alloc, once, [once, range(19, 1), none], PLACES)? == Some(false));
    // The last byte differs, and an excluded one.
    let mut copy = PLACES;
    copy[19] = 0;
    assert!(rt; same(alloc, once, [once, none, none], copy)? == Some(false));
    copy[19] = 19;
    copy[8] = 0;
    assert!(rt; same(alloc, once, [once, none, none], copy)? == Some(true));
    Ok(())
}

// What is found of `PLACES` and of a file with these bytes, read a byte and 20 bytes a call, where the call of this number fails.
fn found(
    alloc: Global,
    copy: [u8; 20],
    fail: u64,
    other: u64,
) -> Result<Option<Result<bool, Failed>>, Fail> {
    let mut one = MemSource::new(Blob::copied(alloc, &PLACES)?, 1, fail);
    let mut two = MemSource::new(Blob::copied(alloc, &copy)?, 65_536, other);
    let Ok(cover) = data_cover(alloc, &[], 20) else {
        return Ok(None);
    };
    let mut left = [0; 1];
    let mut right = [0; 64];
    Ok(Some(same_text(&mut one, &cover, &mut two, &cover, &mut left, &mut right)))
}

// Each byte is read once, and none after the first that differs.
#[test]
fn no_byte_is_read_twice_or_after_a_difference(rt: HostRuntime) -> Result<(), Fail> {
    let alloc = rt.alloc();
    let mut copy = PLACES;
    copy[1] = 0;
    assert!(rt; found(alloc, PLACES, 21, 2)? == Some(Ok(true)));
    assert!(rt; found(alloc, PLACES, 20, 0)? == Some(Err(Failed)));
    assert!(rt; found(alloc, PLACES, 0, 1)? == Some(Err(Failed)));
    assert!(rt; found(alloc, copy, 3, 2)? == Some(Ok(false)));
    assert!(rt; found(alloc, copy, 2, 0)? == Some(Err(Failed)));
    Ok(())
}
