// How often the check of a file reads each byte of it.
use crate::counted::CountedSource;
use crate::files::{FILM, PICTURE};
use crate::judges::approving;
use c2_hash::Sha;
use c2_validate::{Answer, find_store, validate};
use std::alloc::Global;
use std::test::Fail;

/// Where the store's packets begin in the picture.
pub const PACKETS: usize = 20;

/// Where the bytes behind them do.
pub const PICTURE_END: usize = 1161;

/// Where the box of the film's media data begins.
pub const MEDIA_DATA: usize = 16;

/// Where that of its store does.
pub const STORE_BOX: usize = 25;

// How many bytes of a box the exclusion of the store's box asks for: its header and its user type.
const ASKED: usize = 24;

/// How often each byte is read where a file's container and its store are found.
pub fn by_search(alloc: Global, file: &[u8]) -> Result<CountedSource, Fail> {
    let mut source = CountedSource::new(alloc, file)?;
    let _found = find_store(alloc, &mut source);
    Ok(source)
}

/// How often each byte is read where a file is checked, and whether it is valid.
pub fn by_check(alloc: Global, file: &[u8]) -> Result<(CountedSource, bool), Fail> {
    let mut source = CountedSource::new(alloc, file)?;
    let mut judges = approving(alloc)?;
    let valid = match validate(alloc, &Sha, &mut source, &mut judges) {
        Ok(Answer::Valid(_)) => true,
        _ => false,
    };
    Ok((source, valid))
}

/// Whether each byte from `start` to `end` is read `more` times more often by one source than by another.
pub fn are_more(one: &[u32], other: &[u32], start: usize, end: usize, more: u32) -> bool {
    for i in start..end {
        if one.get(i).copied() != other.get(i).map(|count| count.saturating_add(more)) {
            return false;
        }
    }
    true
}

// Whether each byte from `start` to `end` is read once.
fn are_once(reads: &[u32], start: usize, end: usize) -> bool {
    for i in start..end {
        if reads.get(i).copied() != Some(1) {
            return false;
        }
    }
    true
}

#[test]
fn a_picture_is_opened_once_and_what_its_binding_covers_read_once_more(
    rt: HostRuntime,
) -> Result<(), Fail> {
    let alloc = rt.alloc();
    let file = hex::decode(alloc, PICTURE)?;
    let len = file.len();
    let found = by_search(alloc, file.as_slice())?;
    let (checked, valid) = by_check(alloc, file.as_slice())?;
    assert!(rt; valid);
    // Each segment's header, and each byte of the store.
    assert!(rt; are_once(found.reads(), PACKETS, len));
    assert!(rt; are_once(checked.reads(), PACKETS, PICTURE_END));
    assert!(rt; are_more(checked.reads(), found.reads(), 0, PACKETS, 1));
    assert!(rt; are_more(checked.reads(), found.reads(), PICTURE_END, len, 1));
    Ok(())
}

#[test]
fn a_film_is_opened_once_and_what_its_binding_covers_read_once_more(
    rt: HostRuntime,
) -> Result<(), Fail> {
    let alloc = rt.alloc();
    let file = hex::decode(alloc, FILM)?;
    let len = file.len();
    let found = by_search(alloc, file.as_slice())?;
    let (checked, valid) = by_check(alloc, file.as_slice())?;
    assert!(rt; valid);
    assert!(rt; are_once(found.reads(), MEDIA_DATA, STORE_BOX));
    // The first box is excluded by its path alone, and of the store's box the test of its user type is made.
    assert!(rt; are_more(checked.reads(), found.reads(), 0, MEDIA_DATA, 0));
    assert!(rt;
        are_more(
            checked.reads(),
            found.reads(),
            MEDIA_DATA,
            STORE_BOX + ASKED,
            1
        )
    );
    assert!(rt; are_more(checked.reads(), found.reads(), STORE_BOX + ASKED, len, 0));
    Ok(())
}
