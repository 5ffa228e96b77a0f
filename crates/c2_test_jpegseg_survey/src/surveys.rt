// Surveys of small files.
use c2_base::{Blob, MemSource};
use c2_jpegseg_survey::{PacketPoint, survey};
use std::alloc::{AllocError, Global};
use std::test::Fail;

// The most calls of one source here.
const MOST_CALLS: u64 = 1_000;

// How many bytes a source gives at once.
const PIECE: usize = 7;

// The start of an image and the APP0 segment of JFIF.
const FRONT: &[u8] = b"\xff\xd8\xff\xe0\x00\x10JFIF\x00\x01\x02\x00\x00\x01\x00\x01\x00\x00";

// One packet under the least number with a whole store of 38 bytes.
const STORE: &[u8] =
    b"\xff\xeb\x00\x30JP\x02\x11\x00\x00\x00\x01\x00\x00\x00\x26jumb\x00\x00\x00\x1ejumdc2pa\x00\x11\x00\x10\x80\x00\x00\xaa\x00\x38\x9b\x71\x03c2pa\x00";

// One packet of another box under the same number.
const OTHER: &[u8] = b"\xff\xeb\x00\x12JP\x02\x11\x00\x00\x00\x01\x00\x00\x00\x08free";

// The end of the image.
const END: &[u8] = b"\xff\xd9";

// A file of these two parts between its front and its end.
fn file(alloc: Global, one: &[u8], two: &[u8]) -> Result<Vec<u8>, AllocError> {
    let mut bytes = Vec::from_slice(alloc, FRONT)?;
    bytes.extend_from_slice(one)?;
    bytes.extend_from_slice(two)?;
    bytes.extend_from_slice(END)?;
    Ok(bytes)
}

// A source of these bytes, read in pieces.
fn source(alloc: Global, bytes: &[u8], fail_at: u64) -> Result<MemSource, Fail> {
    Ok(MemSource::new(Blob::copied(alloc, bytes)?, PIECE, fail_at))
}

// The start and the length of the store's range, where there is a store, and where other packets go.
fn surveyed(alloc: Global, bytes: &[u8]) -> Result<(Option<(u64, u64)>, PacketPoint), Fail> {
    let mut source = source(alloc, bytes, 0)?;
    let surveyed = survey(alloc, &mut source)?;
    let range = surveyed
        .found
        .as_ref()
        .map(|found| (found.start, found.length));
    Ok((range, surveyed.point))
}

// Packets go behind the APP0 segments, under a number that no packet outside the store has.
#[test]
fn packets_go_where_the_store_was(rt: HostRuntime) -> Result<(), Fail> {
    let alloc = rt.alloc();
    let point = |number, size| PacketPoint {
        start: 20,
        number: Some(number),
        size,
    };
    let (range, place) = surveyed(alloc, &file(alloc, &[], &[])?)?;
    assert!(rt; range.is_none());
    assert!(rt; place == point(0x0211, 22));
    let (range, place) = surveyed(alloc, &file(alloc, STORE, &[])?)?;
    assert!(rt; range == Some((20, 50)));
    assert!(rt; place == point(0x0211, 22));
    let (range, place) = surveyed(alloc, &file(alloc, STORE, OTHER)?)?;
    assert!(rt; range == Some((20, 50)));
    assert!(rt; place == point(0x0212, 42));
    Ok(())
}

// The first call of a source that a survey doesn't make.
fn first_unmade(alloc: Global, bytes: &[u8]) -> Result<u64, Fail> {
    for n in 1..MOST_CALLS {
        let mut source = source(alloc, bytes, n)?;
        if survey(alloc, &mut source).is_ok() {
            return Ok(n);
        }
    }
    Ok(0)
}

// A survey asks for the length of a file once, and for each piece of its bytes once.
#[test]
fn a_survey_reads_a_file_once(rt: HostRuntime) -> Result<(), Fail> {
    let alloc = rt.alloc();
    let bytes = file(alloc, STORE, OTHER)?;
    let pieces = bytes.len().div_ceil(PIECE) as u64;
    assert_eq!(rt; first_unmade(alloc, &bytes)?, 1 + pieces + 1);
    Ok(())
}
