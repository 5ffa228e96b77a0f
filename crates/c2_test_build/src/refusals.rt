// What is refused first.
use crate::inputs::{Inputs, NONE, built, changed, judged, once_built, planned, signed, worked};
use c2_base::MemSink;
use c2_build::BuildError;
use c2_judge::Verdict;
use std::alloc::Global;
use std::process::Abort;
use std::test::Fail;

// A build answers this, and so does the plan of it unless the message is what is refused.
fn comes_to(
    rt: &impl Abort,
    alloc: Global,
    inputs: &Inputs,
    is_message: bool,
    want: &str,
) -> Result<(), Fail> {
    let mut out = MemSink::with_room(alloc, 2_000, 0)?;
    match built(alloc, inputs, NONE, &mut out)? {
        Ok(_) => assert_eq!(rt; want, "written"),
        Err(error) => {
            let text = format!(in alloc; "{error:?}")?;
            assert_eq!(rt; text.as_str(), want);
            assert!(rt; out.bytes().is_empty());
            assert!(rt; !out.finished());
        }
    }
    match planned(alloc, inputs, NONE)? {
        Ok(_) => assert!(rt; is_message || want == "written", "{want}"),
        Err(error) => {
            let text = format!(in alloc; "{error:?}")?;
            assert_eq!(rt; text.as_str(), want);
        }
    }
    Ok(())
}

#[test]
fn a_reserve_holds_a_message_or_more(rt: HostRuntime) -> Result<(), Fail> {
    let alloc = rt.alloc();
    for row in [
        "78 => ReserveTooSmall(79)",
        "73 => ReserveTooSmall(74)",
        "79 => written",
        "74 => written",
    ] {
        let (reserve, want) = row.split_once(" => ").unwrap_or(("", ""));
        let mut inputs = worked(alloc)?;
        inputs.definition = changed(alloc, "256", reserve)?;
        comes_to(&rt, alloc, &inputs, true, want)?;
    }
    Ok(())
}

#[test]
fn a_definition_is_refused(rt: HostRuntime) -> Result<(), Fail> {
    let alloc = rt.alloc();
    let mut inputs = worked(alloc)?;
    inputs.definition = Vec::from_slice(alloc, b"{}")?;
    comes_to(&rt, alloc, &inputs, false, "BadDefinition(Label)")?;

    // A message that is no message comes behind it.
    inputs.message = Vec::new(alloc);
    comes_to(&rt, alloc, &inputs, false, "BadDefinition(Label)")?;

    // Media that is none is refused before a definition is.
    inputs.media = Vec::new(alloc);
    comes_to(&rt, alloc, &inputs, false, "MediaRefused(NotMedia, 0)")
}

#[test]
fn a_message_is_refused(rt: HostRuntime) -> Result<(), Fail> {
    let alloc = rt.alloc();
    let mut inputs = worked(alloc)?;
    inputs.message = signed(alloc, b"\xd2\x84\x41\xa0\xa0\xf6\x58\x40")?;
    comes_to(&rt, alloc, &inputs, true, "BadSignature(Protected)")?;
    inputs.message = signed(
        alloc,
        b"\xd2\x84\x43\xa1\x01\x26\xa2\xa2\x00\x01\x01\x02\x00\xa2\x01\x02\x00\x01\x00\xf6\x58\x40",
    )?;
    comes_to(&rt, alloc, &inputs, true, "BadSignature(Plain)")
}

#[test]
fn a_redaction_is_refused(rt: HostRuntime) -> Result<(), Fail> {
    let alloc = rt.alloc();
    let mut inputs = worked(alloc)?;
    inputs.definition = changed(
        alloc,
        "\"reserve\":256",
        "\"reserve\":256,\"redact\":[\"self#jumbf=/c2pa/m/c2pa.assertions/a\"]",
    )?;
    let mut out = MemSink::with_room(alloc, 2_000, 0)?;
    let text = match built(alloc, &inputs, NONE, &mut out)? {
        Ok(_) => format!(in alloc; "written")?,
        Err(BuildError::RedactionRefused(text, code)) => {
            format!(in alloc; "{} {code:?}", text.as_str())?
        }
        Err(error) => format!(in alloc; "{error:?}")?,
    };
    let want = "self#jumbf=/c2pa/m/c2pa.assertions/a ProfileRedactionTarget";
    assert_eq!(rt; text.as_str(), want);
    Ok(())
}

// What a build over a file with a store answers, where a judge says this of each question.
fn answered(alloc: Global, inputs: &Inputs, verdict: Verdict) -> Result<String, Fail> {
    let mut out = MemSink::with_room(alloc, 6_000, 0)?;
    match judged(alloc, inputs, verdict, &mut out)? {
        Ok(_) => Ok(format!(in alloc; "written")?),
        Err(BuildError::ParentFails(code, _)) => Ok(format!(in alloc; "{code:?}")?),
        Err(BuildError::LabelTaken(label)) => Ok(format!(in alloc; "taken: {}", label.as_str())?),
        Err(error) => Ok(format!(in alloc; "{error:?}")?),
    }
}

#[test]
fn an_older_store_is_checked_first(rt: HostRuntime) -> Result<(), Fail> {
    let alloc = rt.alloc();
    let mut inputs = once_built(alloc)?;
    let text = answered(alloc, &inputs, Verdict::Silent)?;
    assert_eq!(rt; text.as_str(), "ProfileVerdictMissing");
    let text = answered(alloc, &inputs, Verdict::Untrusted)?;
    assert_eq!(rt; text.as_str(), "SigningCredentialUntrusted");

    // Where it is valid, its labels can't be taken.
    let text = answered(alloc, &inputs, Verdict::Approved)?;
    let want = "taken: urn:c2pa:00000000-0000-4000-8000-000000000000";
    assert_eq!(rt; text.as_str(), want);

    // Another byte of the picture is another file.
    inputs.definition = changed(alloc, "8000-000000000000", "8000-000000000001")?;
    let text = answered(alloc, &inputs, Verdict::Approved)?;
    assert_eq!(rt; text.as_str(), "written");
    let mut media = Vec::from_slice(alloc, inputs.media.as_slice())?;
    assert!(rt; 19 < media.len());
    media[19] = 1;
    inputs.media = media;
    let text = answered(alloc, &inputs, Verdict::Approved)?;
    assert_eq!(rt; text.as_str(), "AssertionDataHashMismatch");
    Ok(())
}

#[test]
fn an_open_box_is_told(rt: HostRuntime) -> Result<(), Fail> {
    let alloc = rt.alloc();
    let mut inputs = worked(alloc)?;
    inputs.media = Vec::from_slice(alloc, b"\x00\x00\x00\x10ftypisom\x00\x00\x00\x00")?;
    comes_to(&rt, alloc, &inputs, false, "written")?;

    // Nothing can stand behind a box that runs to the end of the file.
    let open = b"\x00\x00\x00\x10ftypisom\x00\x00\x00\x00\x00\x00\x00\x00mdatA";
    inputs.media = Vec::from_slice(alloc, open)?;
    comes_to(&rt, alloc, &inputs, false, "OpenBox(16)")
}
