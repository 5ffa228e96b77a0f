// Files of two to the 61 and two to the 62 bytes, of which a few are read; and the packets that are written.
use c2_base::{Blob, MediaError, MemSink, Range, VastSource};
use c2_jpegseg::{insert_place, locate, segments_len, write_segments};
use std::test::Fail;

/// One packet with a whole store of 38 bytes: a superbox with its description alone.
const SEGMENT: [u8; 50] = [
    0xFF, 0xEB, 0x00, 0x30, 0x4A, 0x50, 0x02, 0x11, 0, 0, 0, 1, 0, 0, 0, 0x26, 0x6A, 0x75, 0x6D,
    0x62, 0, 0, 0, 0x1E, 0x6A, 0x75, 0x6D, 0x64, 0x63, 0x32, 0x70, 0x61, 0x00, 0x11, 0x00, 0x10,
    0x80, 0x00, 0x00, 0xAA, 0x00, 0x38, 0x9B, 0x71, 0x03, 0x63, 0x32, 0x70, 0x61, 0x00,
];

#[test]
fn vast_files(rt: HostRuntime) -> Result<(), Fail> {
    let alloc = rt.alloc();
    let mut vast = VastSource::new(Blob::copied(alloc, &[])?, 1 << 62);
    let too_large = Some(MediaError::FileTooLarge(1 << 62));
    assert_eq!(rt; locate(alloc, &mut vast).err(), too_large);
    let nothing = Range {
        start: 0,
        length: 0,
    };
    assert_eq!(rt; insert_place(&mut vast, nothing).err(), too_large);
    let mut file = Vec::from_slice(alloc, &[0xFF, 0xD8])?;
    file.extend_from_slice(&SEGMENT)?;
    file.extend_from_slice(&[0xFF, 0xD9])?;
    let prefix = Blob::copied(alloc, &file)?;
    assert!(rt; prefix.as_slice().len() == 54);
    let mut vast = VastSource::new(prefix, 1 << 61);
    match locate(alloc, &mut vast)? {
        Some(found) => {
            assert_eq!(rt; (found.start, found.length), (2, 50));
            assert!(rt; found.store.as_slice() == &SEGMENT[12..]);
        }
        None => assert!(rt; false),
    }
    Ok(())
}

// 20 bytes for each packet and the store less its header; 63,984 bytes of it go into a packet.
#[test]
fn packets_have_these_lengths(rt: HostRuntime) {
    for (store, packets) in [
        (38, 50),
        (1129, 1141),
        (63_992, 64_004),
        (63_993, 64_025),
        (33_554_432, 33_564_924),
    ] {
        assert_eq!(rt; segments_len(store), packets);
    }
}

#[test]
fn a_store_is_written_as_it_is_found(rt: HostRuntime) -> Result<(), Fail> {
    let alloc = rt.alloc();
    let mut sink = MemSink::with_room(alloc, 50, 0)?;
    assert!(rt; write_segments(&SEGMENT[12..], 0x0211, &mut sink).is_ok());
    assert_eq!(rt; sink.bytes(), SEGMENT.as_slice());
    let mut small = MemSink::with_room(alloc, 49, 0)?;
    assert!(rt; write_segments(&SEGMENT[12..], 0x0211, &mut small).is_err());
    assert_eq!(rt; small.bytes(), &SEGMENT[..49]);
    Ok(())
}
