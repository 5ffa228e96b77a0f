// How often the media of a build is read.
use crate::inputs::{Fails, Inputs, NONE, built_under, changed, once_built, source, worked};
use c2_base::MemSink;
use c2_hash::Sha;
use c2_judge::{FixedJudge, Judge, Verdict};
use c2_validate::{find_store, validate};
use std::alloc::Global;
use std::test::Fail;

// The most calls of one source here.
const MOST_CALLS: u64 = 10_000;

// A judge that approves all.
fn approving(alloc: Global) -> Result<Vec<Box<dyn Judge>>, Fail> {
    let mut judges: Vec<Box<dyn Judge>> = Vec::new(alloc);
    judges.push(Box::new(alloc, FixedJudge::new(Verdict::Approved, 0))?)?;
    Ok(judges)
}

// The first call of the media that a build doesn't make: one that fails at any before it fails the build.
fn first_unmade(alloc: Global, inputs: &Inputs) -> Result<u64, Fail> {
    for n in 1..MOST_CALLS {
        let fails = Fails { media: n, ..NONE };
        let mut out = MemSink::with_room(alloc, 6_000, 0)?;
        let mut judges = approving(alloc)?;
        if built_under(alloc, inputs, fails, &mut judges, &mut out)?.is_ok() {
            return Ok(n);
        }
    }
    Ok(0)
}

// The first call that the check of a file doesn't make.
fn first_unmade_by_check(alloc: Global, file: &Vec<u8>) -> Result<u64, Fail> {
    for n in 1..MOST_CALLS {
        let mut source = source(alloc, file, n)?;
        let mut judges = approving(alloc)?;
        if validate(alloc, &Sha, &mut source, &mut judges).is_ok() {
            return Ok(n);
        }
    }
    Ok(0)
}

// The first call that isn't made where a file's container and its store are found.
fn first_unmade_by_opening(alloc: Global, file: &Vec<u8>) -> Result<u64, Fail> {
    for n in 1..MOST_CALLS {
        let mut source = source(alloc, file, n)?;
        if find_store(alloc, &mut source).is_ok() {
            return Ok(n);
        }
    }
    Ok(0)
}

// A picture with a store is opened and checked once; what is left of it is then read as a picture without one is, but for its opening.
#[test]
fn a_picture_with_a_store_is_opened_once(rt: HostRuntime) -> Result<(), Fail> {
    let alloc = rt.alloc();
    let plain = worked(alloc)?;
    let mut signed = once_built(alloc)?;
    signed.definition = changed(alloc, "8000-000000000000", "8000-000000000001")?;
    let build = first_unmade(alloc, &signed)?;
    let check = first_unmade_by_check(alloc, &signed.media)?;
    let fresh = first_unmade(alloc, &plain)?;
    let opening = first_unmade_by_opening(alloc, &plain.media)?;
    assert!(rt; 1 < opening);
    assert_eq!(rt; build.saturating_add(opening), check.saturating_add(fresh));
    Ok(())
}
