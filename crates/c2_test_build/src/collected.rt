// Builds whose new store collects from another file: what is signed, what is written, that the file is accepted, and what is refused first.
use crate::builds::checked;
use crate::inputs::{
    Inputs, MEDIA, NONE, built as plainly_built, changed, once_built, source, worked,
};
use c2_base::{Blob, MemSink};
use c2_build::{BuildError, Embedded, embed_collect, plan_collect};
use c2_hash::Sha;
use c2_judge::{FixedJudge, Judge, Verdict};
use c2_rules::Answer;
use std::alloc::Global;
use std::process::Abort;
use std::test::Fail;

// What stands before the claim in what is signed.
const SIGNED_FRONT: &[u8] = b"\x84\x6aSignature1\x43\xa1\x01\x26\x40\x59\x01\xbb";

// A judge that approves all.
fn approving(alloc: Global) -> Result<Vec<Box<dyn Judge>>, Fail> {
    let mut judges: Vec<Box<dyn Judge>> = Vec::new(alloc);
    judges.push(Box::new(alloc, FixedJudge::new(Verdict::Approved, 0))?)?;
    Ok(judges)
}

// What is to be signed, where another file is collected.
fn planned(
    alloc: Global,
    inputs: &Inputs,
    other: &Vec<u8>,
) -> Result<Result<Blob, BuildError>, Fail> {
    let mut media = source(alloc, &inputs.media, 0)?;
    let mut definition = source(alloc, &inputs.definition, 0)?;
    let mut other = source(alloc, other, 0)?;
    let mut judges = approving(alloc)?;
    Ok(plan_collect(
        alloc,
        &Sha,
        &mut media,
        &mut definition,
        &mut other,
        &mut judges,
    ))
}

// Writes the new file, whose store collects from another file.
fn built(
    alloc: Global,
    inputs: &Inputs,
    other: &Vec<u8>,
    out: &mut MemSink,
) -> Result<Result<Embedded, BuildError>, Fail> {
    let mut media = source(alloc, &inputs.media, 0)?;
    let mut definition = source(alloc, &inputs.definition, 0)?;
    let mut message = source(alloc, &inputs.message, 0)?;
    let mut other = source(alloc, other, 0)?;
    let mut judges = approving(alloc)?;
    Ok(embed_collect(
        alloc,
        &Sha,
        &mut media,
        &mut definition,
        &mut message,
        &mut other,
        &mut judges,
        out,
    ))
}

// The worked inputs under another label.
fn relabelled(alloc: Global) -> Result<Inputs, Fail> {
    let mut inputs = worked(alloc)?;
    inputs.definition = changed(alloc, "8000-000000000000", "8000-000000000001")?;
    Ok(inputs)
}

// A build writes a file with so many bytes in its new range, behind the first 20, which is accepted so.
fn writes(
    rt: &impl Abort,
    alloc: Global,
    inputs: &Inputs,
    other: &Vec<u8>,
    length: u64,
    want: &str,
) -> Result<(), Fail> {
    let mut out = MemSink::with_room(alloc, 6_000, 0)?;
    let came = built(alloc, inputs, other, &mut out)?;
    let range = Embedded { start: 20, length };
    assert!(rt; came.is_ok_and(|e| e == range));
    assert!(rt; out.finished());
    assert_eq!(rt; out.bytes().len() as u64, length.saturating_add(22));
    assert!(rt; out.bytes().starts_with(&MEDIA[..20]));
    assert!(rt; out.bytes().ends_with(&MEDIA[20..]));
    assert_eq!(rt; checked(alloc, out.bytes())?.as_str(), want);
    Ok(())
}

// What an error says.
fn told(alloc: Global, error: BuildError) -> Result<String, Fail> {
    match error {
        BuildError::LabelClash(label) => Ok(format!(in alloc; "clash: {}", label.as_str())?),
        BuildError::LabelTaken(label) => Ok(format!(in alloc; "taken: {}", label.as_str())?),
        BuildError::OtherRefused(Answer::NoStore) => Ok(format!(in alloc; "no store")?),
        error => Ok(format!(in alloc; "{error:?}")?),
    }
}

// A build and its plan are refused so, and nothing is written.
fn refuses(
    rt: &impl Abort,
    alloc: Global,
    inputs: &Inputs,
    other: &Vec<u8>,
    want: &str,
) -> Result<(), Fail> {
    let mut out = MemSink::with_room(alloc, 6_000, 0)?;
    match built(alloc, inputs, other, &mut out)? {
        Ok(_) => assert_eq!(rt; "written", want),
        Err(error) => assert_eq!(rt; told(alloc, error)?.as_str(), want),
    }
    assert!(rt; out.bytes().is_empty());
    assert!(rt; !out.finished());
    match planned(alloc, inputs, other)? {
        Ok(_) => assert_eq!(rt; "planned", want),
        Err(error) => assert_eq!(rt; told(alloc, error)?.as_str(), want),
    }
    Ok(())
}

#[test]
fn the_claim_with_a_component_is_signed(rt: HostRuntime) -> Result<(), Fail> {
    let alloc = rt.alloc();
    let inputs = relabelled(alloc)?;
    let other = once_built(alloc)?.media;
    match planned(alloc, &inputs, &other)? {
        Ok(tbs) => {
            assert_eq!(rt; tbs.as_slice().len(), 463);
            assert!(rt; tbs.as_slice().starts_with(SIGNED_FRONT));
        }
        Err(error) => assert!(rt; false, "{error:?}"),
    }
    Ok(())
}

#[test]
fn a_picture_without_a_store_collects_one(rt: HostRuntime) -> Result<(), Fail> {
    let alloc = rt.alloc();
    let inputs = relabelled(alloc)?;
    let other = once_built(alloc)?.media;
    writes(&rt, alloc, &inputs, &other, 2_670, "2 5 22 0")
}

#[test]
fn a_picture_collects_itself(rt: HostRuntime) -> Result<(), Fail> {
    let alloc = rt.alloc();
    let mut inputs = relabelled(alloc)?;
    inputs.media = once_built(alloc)?.media;
    let other = once_built(alloc)?.media;
    writes(&rt, alloc, &inputs, &other, 3_111, "2 6 22 0")
}

#[test]
fn stores_that_clash_are_refused(rt: HostRuntime) -> Result<(), Fail> {
    let alloc = rt.alloc();
    let mut inputs = relabelled(alloc)?;
    inputs.media = once_built(alloc)?.media;

    // Another picture is built with the same definition and message.
    let mut media = Vec::from_slice(alloc, MEDIA)?;
    assert!(rt; 19 < media.len());
    media[19] = 1;
    let mut second = worked(alloc)?;
    second.media = media;
    let mut out = MemSink::with_room(alloc, 2_000, 0)?;
    let came = plainly_built(alloc, &second, NONE, &mut out)?;
    assert!(rt; came.is_ok());
    let other = Vec::from_slice(alloc, out.bytes())?;
    let want = "clash: urn:c2pa:00000000-0000-4000-8000-000000000000";
    refuses(&rt, alloc, &inputs, &other, want)
}

#[test]
fn another_file_without_a_store_is_refused(rt: HostRuntime) -> Result<(), Fail> {
    let alloc = rt.alloc();
    let inputs = relabelled(alloc)?;
    let other = Vec::from_slice(alloc, MEDIA)?;
    refuses(&rt, alloc, &inputs, &other, "no store")
}

#[test]
fn a_label_of_what_is_collected_is_taken(rt: HostRuntime) -> Result<(), Fail> {
    let alloc = rt.alloc();
    let inputs = worked(alloc)?;
    let other = once_built(alloc)?.media;
    let want = "taken: urn:c2pa:00000000-0000-4000-8000-000000000000";
    refuses(&rt, alloc, &inputs, &other, want)
}
