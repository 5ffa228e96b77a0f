// The digests of a film of two boxes and the bindings by them. All were reckoned by a program of its own.
use c2_base::{Blob, MemSource};
use c2_bmff_binding::new_bmff_binding;
use c2_bmff_binding_hash::{BmffError, bmff_digest};
use c2_bmff_boxes::roots;
use c2_definition::Payload;
use c2_hash::{Alg, Sha};
use std::test::Fail;

// A box `ftyp` of 16 bytes and a box `mdat` with one byte.
const FILM: &[u8] = b"\x00\x00\x00\x10ftypisom\x00\x00\x00\x00\x00\x00\x00\x09mdatA";

// By each algorithm: the digest of the place of the second box in 8 bytes, and the box; and the item that binds a film by this digest.
const BOUND: [(Alg, &str, &str); 3] = [
    (
        Alg::Sha256,
        "85a5da1ae93716efd70e0786acb03fa44217dbbe5f4877dec8e5b774a3d7540e",
        "a363616c67667368613235366468617368582085a5da1ae93716efd70e0786acb03fa44217dbbe5f4877dec8e5b774a3d7540e6a6578636c7573696f6e7383a2646461746181a26576616c756550d8fec3d61b0e483c92975828877ec481666f666673657408657870617468652f75756964a1657870617468652f66747970a1657870617468652f6d667261",
    ),
    (
        Alg::Sha384,
        "1bdf9e8864f759f8c82f61e450c7c85afee85891e2244f9df3e0f6f2b764ff7aaad879c806f7d182b243c1624ad7cb42",
        "a363616c6766736861333834646861736858301bdf9e8864f759f8c82f61e450c7c85afee85891e2244f9df3e0f6f2b764ff7aaad879c806f7d182b243c1624ad7cb426a6578636c7573696f6e7383a2646461746181a26576616c756550d8fec3d61b0e483c92975828877ec481666f666673657408657870617468652f75756964a1657870617468652f66747970a1657870617468652f6d667261",
    ),
    (
        Alg::Sha512,
        "1e236f136594935abac5c9dda78a0ff748718d5ba38de062987eb16dbfafea88e77cd94ba0d1b9dbbac3e545fca3e3d625db16b4ddc6aa444067583ba6d97397",
        "a363616c6766736861353132646861736858401e236f136594935abac5c9dda78a0ff748718d5ba38de062987eb16dbfafea88e77cd94ba0d1b9dbbac3e545fca3e3d625db16b4ddc6aa444067583ba6d973976a6578636c7573696f6e7383a2646461746181a26576616c756550d8fec3d61b0e483c92975828877ec481666f666673657408657870617468652f75756964a1657870617468652f66747970a1657870617468652f6d667261",
    ),
];

#[test]
fn a_bmff_has_these_bindings(rt: HostRuntime) -> Result<(), Fail> {
    let alloc = rt.alloc();
    let mut buf = [0; 5];
    for (alg, digest_hex, item_hex) in BOUND {
        let mut source = MemSource::new(Blob::copied(alloc, FILM)?, 3, 0);
        let Ok(boxes) = roots(alloc, &mut source) else {
            return Ok(assert!(rt; false));
        };
        let Ok(digest) = bmff_digest(alloc, &Sha, alg, &mut source, &boxes, &mut buf) else {
            return Ok(assert!(rt; false));
        };
        assert_eq!(rt; hex::encode(alloc, digest.as_slice())?.as_str(), digest_hex);
        let binding = new_bmff_binding(alloc, alg, digest.as_slice())?;
        let item = hex::encode(alloc, binding.bytes.as_slice())?;
        assert_eq!(rt; item.as_str(), item_hex);
        assert_eq!(rt; binding.label.as_str(), "c2pa.hash.bmff.v2");
        assert_eq!(rt; binding.kind, Payload::Cbor);
    }
    Ok(())
}

// The first four calls of the source are those of the root boxes. Each of the next three fails in turn, the last in the middle of the text.
#[test]
fn each_failed_call_is_told(rt: HostRuntime) -> Result<(), Fail> {
    let alloc = rt.alloc();
    let mut buf = [0; 5];
    for fail_at in 5..8 {
        let mut source = MemSource::new(Blob::copied(alloc, FILM)?, 65_536, fail_at);
        let Ok(boxes) = roots(alloc, &mut source) else {
            return Ok(assert!(rt; false));
        };
        let found = bmff_digest(alloc, &Sha, Alg::Sha256, &mut source, &boxes, &mut buf);
        assert!(rt; found.err() == Some(BmffError::ReadFault));
    }
    Ok(())
}
