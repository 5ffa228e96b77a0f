// Headers of boxes, and vast files of them: values from ISO/IEC 14496-12 by hand.
use c2_base::{Blob, MediaError, MemSink, SureSource, VastSource};
use c2_bmff::{HeadError, RootBox, children, head, locate, roots, write_box};
use std::test::Fail;

// A box `ftyp` of 16 bytes and a box `mdat` with one byte.
const TWO: [u8; 25] = [
    0, 0, 0, 0x10, 0x66, 0x74, 0x79, 0x70, 0x69, 0x73, 0x6F, 0x6D, 0, 0, 0, 0, 0, 0, 0, 9, 0x6D,
    0x64, 0x61, 0x74, 0x41,
];

// A C2PA box after `ftyp`: user type, version and flags, purpose, offset of the first Merkle box, a bare JUMBF box, two bytes after it.
const STORE: [u8; 79] = [
    0, 0, 0, 0x10, 0x66, 0x74, 0x79, 0x70, 0x69, 0x73, 0x6F, 0x6D, 0, 0, 0, 0, 0, 0, 0, 0x3F, 0x75,
    0x75, 0x69, 0x64, 0xD8, 0xFE, 0xC3, 0xD6, 0x1B, 0x0E, 0x48, 0x3C, 0x92, 0x97, 0x58, 0x28, 0x87,
    0x7E, 0xC4, 0x81, 0, 0, 0, 0, 0x6D, 0x61, 0x6E, 0x69, 0x66, 0x65, 0x73, 0x74, 0, 0, 0, 0, 0, 0,
    0, 0, 0, 0, 0, 0, 0x10, 0x6A, 0x75, 0x6D, 0x62, 1, 2, 3, 4, 5, 6, 7, 8, 0, 0,
];

// The box of a bare JUMBF box of 16 bytes, as it is written.
const BOXED: [u8; 61] = [
    0, 0, 0, 0x3D, 0x75, 0x75, 0x69, 0x64, 0xD8, 0xFE, 0xC3, 0xD6, 0x1B, 0x0E, 0x48, 0x3C, 0x92,
    0x97, 0x58, 0x28, 0x87, 0x7E, 0xC4, 0x81, 0, 0, 0, 0, 0x6D, 0x61, 0x6E, 0x69, 0x66, 0x65, 0x73,
    0x74, 0, 0, 0, 0, 0, 0, 0, 0, 0, 0, 0, 0, 0x10, 0x6A, 0x75, 0x6D, 0x62, 1, 2, 3, 4, 5, 6, 7, 8,
];

// A box `moov` after `ftyp`, which holds two boxes `free` of 8 bytes.
const MOVIE: [u8; 40] = [
    0, 0, 0, 0x10, 0x66, 0x74, 0x79, 0x70, 0x69, 0x73, 0x6F, 0x6D, 0, 0, 0, 0, 0, 0, 0, 0x18, 0x6D,
    0x6F, 0x6F, 0x76, 0, 0, 0, 8, 0x66, 0x72, 0x65, 0x65, 0, 0, 0, 8, 0x66, 0x72, 0x65, 0x65,
];

// Two boxes of 8 bytes from place 24 on, the second of type `free`.
fn are_two(rows: &[RootBox]) -> bool {
    rows.len() == 2
        && rows[0].start == 24
        && rows[1].start == 32
        && rows[1].length == 8
        && rows[1].kind == *b"free"
}

#[test]
fn boxes_between_two_places_are_a_list_or_none(rt: HostRuntime) -> Result<(), Fail> {
    let alloc = rt.alloc();
    let mut movie = SureSource::new(Blob::copied(alloc, &MOVIE)?);
    let both = children(alloc, &mut movie, 24, 40);
    assert!(rt; both.is_ok_and(|list| list.is_some_and(|boxes| are_two(boxes.as_slice()))));
    let cut = children(alloc, &mut movie, 24, 39);
    assert!(rt; cut.is_ok_and(|list| list.is_none()));
    let nothing = children(alloc, &mut movie, 40, 40);
    assert!(rt; nothing.is_ok_and(|list| list.is_some()));
    Ok(())
}

#[test]
fn vast_files_are_refused(rt: HostRuntime) -> Result<(), Fail> {
    let alloc = rt.alloc();
    let mut vast = VastSource::new(Blob::copied(alloc, &TWO)?, 1 << 62);
    assert!(rt; roots(alloc, &mut vast).err() == Some(MediaError::FileTooLarge(1 << 62)));
    // A store of 33,554,433 bytes.
    let mut large = STORE;
    large[16] = 3;
    large[61] = 2;
    large[64] = 1;
    let mut vast = VastSource::new(Blob::copied(alloc, &large)?, 0x0300_003F + 16);
    let Ok(boxes) = roots(alloc, &mut vast) else {
        return Ok(assert!(rt; false));
    };
    assert!(rt;
        locate(alloc, &mut vast, &boxes).err() == Some(MediaError::StoreTooLarge(0x0200_0001))
    );
    Ok(())
}

#[test]
fn a_header_is_read_from_the_bytes_that_are_there(rt: HostRuntime) {
    let header = [0, 0, 0, 23, 0x75, 0x75, 0x69, 0x64];
    assert!(rt; head(&header, 40).is_ok_and(|head| head.length == 23 && head.kind == *b"uuid"));
    assert!(rt; head(&header, 22) == Err(HeadError::Short));
    assert!(rt; head(&header[..7], 40) == Err(HeadError::Short));
    let long = [
        0, 0, 0, 1, 0x6D, 0x64, 0x61, 0x74, 0, 0, 0, 0, 0, 0, 0, 0x0F,
    ];
    assert!(rt; head(&long, 40) == Err(HeadError::Bad));
    assert!(rt; head(&long, 15) == Err(HeadError::Short));
    assert!(rt; head(&long[..15], 40) == Err(HeadError::Short));
}

#[test]
fn a_store_is_written_in_its_box(rt: HostRuntime) -> Result<(), Fail> {
    let alloc = rt.alloc();
    let mut sink = MemSink::with_room(alloc, 61, 0)?;
    assert!(rt; write_box(&BOXED[45..], &mut sink).is_ok());
    assert_eq!(rt; sink.bytes(), BOXED.as_slice());
    let mut small = MemSink::with_room(alloc, 60, 0)?;
    assert!(rt; write_box(&BOXED[45..], &mut small).is_err());
    assert_eq!(rt; small.bytes(), &BOXED[..60]);
    Ok(())
}
