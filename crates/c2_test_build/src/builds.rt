// A worked build: what is signed, what is written, and that the file is accepted.
use crate::inputs::{MEDIA, NONE, built, changed, judged, once_built, planned, worked};
use c2_base::{Blob, MemSink, MemSource};
use c2_build::Embedded;
use c2_hash::Sha;
use c2_judge::{FixedJudge, Judge, Verdict};
use c2_rules::Answer;
use c2_validate::validate;
use std::alloc::Global;
use std::test::Fail;

// What stands before the claim in what is signed.
const SIGNED_FRONT: &[u8] = b"\x84\x6aSignature1\x43\xa1\x01\x26\x40\x59\x01\x60";

#[test]
fn the_claim_is_signed(rt: HostRuntime) -> Result<(), Fail> {
    let alloc = rt.alloc();
    let inputs = worked(alloc)?;
    match planned(alloc, &inputs, NONE)? {
        Ok(tbs) => {
            assert_eq!(rt; tbs.as_slice().len(), 372);
            assert!(rt; tbs.as_slice().starts_with(SIGNED_FRONT));
        }
        Err(error) => assert!(rt; false, "{error:?}"),
    }
    Ok(())
}

/// What the whole check of a file answers where a judge approves all.
pub fn checked(alloc: Global, bytes: &[u8]) -> Result<String, Fail> {
    let mut source = MemSource::new(Blob::copied(alloc, bytes)?, 100, 0);
    let mut judges: Vec<Box<dyn Judge>> = Vec::new(alloc);
    judges.push(Box::new(alloc, FixedJudge::new(Verdict::Approved, 0))?)?;
    match validate(alloc, &Sha, &mut source, &mut judges) {
        Ok(Answer::Valid(s)) => Ok(format!(in alloc;
            "{} {} {} {}",
            s.manifests, s.assertions, s.covered, s.outside
        )?),
        Ok(Answer::Failing(failing)) => Ok(format!(in alloc; "{:?}", failing.code)?),
        Ok(_) => Ok(format!(in alloc; "no store")?),
        Err(_) => Ok(format!(in alloc; "no answer")?),
    }
}

#[test]
fn a_picture_gets_a_store(rt: HostRuntime) -> Result<(), Fail> {
    let alloc = rt.alloc();
    let inputs = worked(alloc)?;
    let mut out = MemSink::with_room(alloc, 2_000, 0)?;
    let came = built(alloc, &inputs, NONE, &mut out)?;
    let range = Embedded {
        start: 20,
        length: 1_141,
    };
    assert!(rt; came.is_ok_and(|e| e == range));
    assert!(rt; out.finished());
    assert_eq!(rt; out.bytes().len(), 1_163);
    assert_eq!(rt; &out.bytes()[..20], &MEDIA[..20]);
    assert_eq!(rt; &out.bytes()[1_161..], &MEDIA[20..]);
    assert_eq!(rt; checked(alloc, out.bytes())?.as_str(), "1 2 22 0");

    // Another byte of the picture is another file, and a byte of the assertion is no longer what the claim names.
    let mut other = Vec::from_slice(alloc, out.bytes())?;
    other[19] = 1;
    let other = checked(alloc, other.as_slice())?;
    assert_eq!(rt; other.as_str(), "AssertionDataHashMismatch");
    Ok(())
}

#[test]
fn a_picture_with_a_store_gets_a_longer_one(rt: HostRuntime) -> Result<(), Fail> {
    let alloc = rt.alloc();
    let mut inputs = once_built(alloc)?;
    inputs.definition = changed(alloc, "8000-000000000000", "8000-000000000001")?;
    let mut out = MemSink::with_room(alloc, 6_000, 0)?;
    let came = judged(alloc, &inputs, Verdict::Approved, &mut out)?;

    // The picture stands as it was, without the older packets.
    let all = out.bytes();
    assert!(rt; 1_163 < all.len());
    let range = Embedded {
        start: 20,
        length: (all.len() - 22) as u64,
    };
    assert!(rt; came.is_ok_and(|e| e == range));
    assert_eq!(rt; &all[..20], &MEDIA[..20]);
    assert_eq!(rt; &all[all.len() - 2..], &MEDIA[20..]);

    // The older manifest is the parent of the new one, which has a binding, the definition's assertion and the ingredient.
    assert_eq!(rt; checked(alloc, out.bytes())?.as_str(), "2 5 22 0");
    Ok(())
}
