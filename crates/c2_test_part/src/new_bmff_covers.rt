// What is read of a film, and texts that are compared. What is expected was worked out by hand.
ghost use Rattle.std.specs.Prelude.{◌<◌};

use c2_base::{Blob, Failed, MemSource};
use c2_bmff::{ByteTests, Exclusion, read_path, roots};
use c2_cover::{CoverError, CoveredReader, bmff_cover, data_cover, same_text};
use std::alloc::Global;
use std::test::Fail;

// A box `ftyp` of 16 bytes and a box `mdat` with one byte.
const TWO: [u8; 25] = [
    0, 0, 0, 0x10, 0x66, 0x74, 0x79, 0x70, 0x69, 0x73, 0x6F, 0x6D, 0, 0, 0, 0, 0, 0, 0, 9, 0x6D,
    0x64, 0x61, 0x74, 0x41,
];

// The places of the two boxes in 8 bytes each, before their bytes.
const WHOLE: [u8; 41] = [
    0, 0, 0, 0, 0, 0, 0, 0, 0, 0, 0, 0x10, 0x66, 0x74, 0x79, 0x70, 0x69, 0x73, 0x6F, 0x6D, 0, 0, 0,
    0, 0, 0, 0, 0, 0, 0, 0, 0x10, 0, 0, 0, 9, 0x6D, 0x64, 0x61, 0x74, 0x41,
];

// The exclusion of the whole first box.
fn first_excluded(alloc: Global) -> Result<Vec<Exclusion>, Fail> {
    let mut entries = Vec::new(alloc);
    if let Some(path) = read_path(alloc, "/ftyp")? {
        entries.push(Exclusion {
            path,
            length: None,
            tests: ByteTests::from_list(Vec::new(alloc)),
            subset: None,
        })?;
    }
    Ok(entries)
}

// The fifth call of the source, the first after the root boxes, fails.
#[test]
fn a_failed_source_is_told(rt: HostRuntime) -> Result<(), Fail> {
    let alloc = rt.alloc();
    let mut source = MemSource::new(Blob::copied(alloc, &TWO)?, 65_536, 5);
    let entries = first_excluded(alloc)?;
    let Ok(boxes) = roots(alloc, &mut source) else {
        return Ok(assert!(rt; false));
    };
    let found = bmff_cover(alloc, &mut source, &boxes, &entries);
    assert!(rt; found.err() == Some(CoverError::ReadFault));
    Ok(())
}

// A box's place is given in pieces, and takes no read; the read after it fails, and the text goes on without a gap.
#[test]
fn a_failed_read_after_a_place_changes_nothing(rt: HostRuntime) -> Result<(), Fail> {
    let alloc = rt.alloc();
    let mut source = MemSource::new(Blob::copied(alloc, &TWO)?, 65_536, 6);
    let entries = first_excluded(alloc)?;
    let Ok(boxes) = roots(alloc, &mut source) else {
        return Ok(assert!(rt; false));
    };
    let Ok(cover) = bmff_cover(alloc, &mut source, &boxes, &entries) else {
        return Ok(assert!(rt; false));
    };
    let mut reader = CoveredReader::new(&cover);
    let mut buf = [99; 5];
    assert!(rt; reader.next(&mut source, &mut buf) == Ok(5));
    assert!(rt; buf == [0, 0, 0, 0, 0]);
    assert!(rt; reader.next(&mut source, &mut buf) == Ok(3));
    assert!(rt; buf == [0, 0, 0x10, 0, 0]);
    assert!(rt; reader.next(&mut source, &mut buf) == Err(Failed));
    assert!(rt; reader.next(&mut source, &mut buf) == Ok(5));
    assert!(rt; buf == [0, 0, 0, 9, 0x6D]);
    assert!(rt; reader.next(&mut source, &mut buf) == Ok(4));
    assert!(rt; buf == [0x64, 0x61, 0x74, 0x41, 0x6D]);
    assert!(rt; reader.next(&mut source, &mut buf) == Ok(0));
    Ok(())
}

// Whether the text of `TWO` is this one, which is that of a file without exclusions; `None` where it depends on which is the first.
// The film gives `most` bytes a call, the other file `other`, and the buffers are as long.
fn is_text(alloc: Global, text: &[u8], most: usize, other: usize) -> Result<Option<bool>, Fail>
    requires most { 0 < most }
    requires other { 0 < other }
{
    let mut film = MemSource::new(Blob::copied(alloc, &TWO)?, most, 0);
    let mut plain = MemSource::new(Blob::copied(alloc, text)?, other, 0);
    let Ok(boxes) = roots(alloc, &mut film) else {
        return Ok(None);
    };
    let Ok(cover) = bmff_cover(alloc, &mut film, &boxes, &[]) else {
        return Ok(None);
    };
    let Ok(whole) = data_cover(alloc, &[], text.len() as u64) else {
        return Ok(None);
    };
    let mut left = vec![in alloc; 0; most]?;
    let mut right = vec![in alloc; 0; other]?;
    let there = same_text(&mut film, &cover, &mut plain, &whole, &mut left, &mut right);
    let back = same_text(&mut plain, &whole, &mut film, &cover, &mut right, &mut left);
    if there != back {
        return Ok(None);
    }
    Ok(there.ok())
}

#[test]
fn texts_are_equal_with_their_places_and_ends(rt: HostRuntime) -> Result<(), Fail> {
    let alloc = rt.alloc();
    let mut first = WHOLE;
    first[8] = 1;
    let mut place = WHOLE;
    place[31] = 0x11;
    let mut last = WHOLE;
    last[40] = 0x42;
    let mut longer = [0; 42];
    longer[..41].copy_from_slice(&WHOLE);
    for (most, other) in [(1, 65_536), (65_536, 1), (1, 1), (7, 5)] {
        let most = usize::max(1, most);
        let other = usize::max(1, other);
        assert!(rt; is_text(alloc, &WHOLE, most, other)? == Some(true));
        assert!(rt; is_text(alloc, &first, most, other)? == Some(false));
        assert!(rt; is_text(alloc, &place, most, other)? == Some(false));
        assert!(rt; is_text(alloc, &last, most, other)? == Some(false));
        assert!(rt; is_text(alloc, &WHOLE[..40], most, other)? == Some(false));
        assert!(rt; is_text(alloc, &longer, most, other)? == Some(false));
    }
    Ok(())
}
