// Boxes that are written: values from ISO/IEC 19566-5 by hand.
use c2_jumbf::{WriteError, write_leaf, write_super};
use std::test::Fail;

// A superbox of type c2pa with the label `c2pa`, and in it one of type c2ma with the label `m`.
const STORE: [u8; 73] = [
    0, 0, 0, 0x49, 0x6A, 0x75, 0x6D, 0x62, 0, 0, 0, 0x1E, 0x6A, 0x75, 0x6D, 0x64, 0x63, 0x32, 0x70,
    0x61, 0, 0x11, 0, 0x10, 0x80, 0, 0, 0xAA, 0, 0x38, 0x9B, 0x71, 3, 0x63, 0x32, 0x70, 0x61, 0, 0,
    0, 0, 0x23, 0x6A, 0x75, 0x6D, 0x62, 0, 0, 0, 0x1B, 0x6A, 0x75, 0x6D, 0x64, 0x63, 0x32, 0x6D,
    0x61, 0, 0x11, 0, 0x10, 0x80, 0, 0, 0xAA, 0, 0x38, 0x9B, 0x71, 3, 0x6D, 0,
];

#[test]
fn boxes_are_written(rt: HostRuntime) -> Result<(), Fail> {
    let mut store_type = [0; 16];
    store_type.copy_from_slice(&STORE[16..32]);
    let mut manifest_type = [0; 16];
    manifest_type.copy_from_slice(&STORE[54..70]);
    match write_super(rt.alloc(), manifest_type, "m", &[]) {
        Ok(manifest) => {
            assert!(rt; manifest.as_slice() == &STORE[38..]);
            match write_super(rt.alloc(), store_type, "c2pa", manifest.as_slice()) {
                Ok(store) => assert!(rt; store.as_slice() == &STORE[..]),
                Err(_) => assert!(rt; false),
            }
        }
        Err(_) => assert!(rt; false),
    }
    match write_leaf(rt.alloc(), *b"json", b"\"ab\"") {
        Ok(leaf) => assert!(rt;
            leaf.as_slice() == &[0, 0, 0, 12, 0x6A, 0x73, 0x6F, 0x6E, 0x22, 0x61, 0x62, 0x22][..]
        ),
        Err(_) => assert!(rt; false),
    }
    for label in ["", "a\u{1f}", "\u{7f}"] {
        match write_super(rt.alloc(), store_type, label, &[]) {
            Err(fault) => assert_eq!(rt; fault, WriteError::BadLabel),
            Ok(_) => assert!(rt; false),
        }
    }
    let large = vec![in rt.alloc(); 0; 33_554_425]?;
    match write_leaf(rt.alloc(), *b"free", &large) {
        Err(fault) => assert_eq!(rt; fault, WriteError::TooLarge(33_554_433)),
        Ok(_) => assert!(rt; false),
    }
    match write_super(rt.alloc(), store_type, "m", &large) {
        Err(fault) => assert_eq!(rt; fault, WriteError::TooLarge(33_554_460)),
        Ok(_) => assert!(rt; false),
    }
    Ok(())
}
