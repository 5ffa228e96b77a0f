// The bytes of claims that are written, as another encoder makes them.
use c2_base::{Blob, NoMemory, Text, Texts};
use c2_claim::{ClaimParts, write};
use c2_spec::{Ref, Refs};
use std::alloc::Global;
use std::test::Fail;

// The algorithm, a title, a redaction, each of the two `-` where there is none, and the bytes in hex.
const WRITTEN: &str =
    r#"sha256 - - a563616c6766736861323536697369676e6174757265782173656c66236a756d62663d2f633270612f6d2f633270612e7369676e61747572656a696e7374616e63654944616972637265617465645f617373657274696f6e7382a26375726c627531646861736841aaa363616c67667368613531326375726c62753264686173684074636c61696d5f67656e657261746f725f696e666fa1646e616d656167
sha256  x a763616c67667368613235366864633a7469746c6560697369676e6174757265782173656c66236a756d62663d2f633270612f6d2f633270612e7369676e61747572656a696e7374616e63654944616972637265617465645f617373657274696f6e7382a26375726c627531646861736841aaa363616c67667368613531326375726c6275326468617368407372656461637465645f617373657274696f6e7381617874636c61696d5f67656e657261746f725f696e666fa1646e616d656167
sha512 - - a563616c6766736861353132697369676e6174757265782173656c66236a756d62663d2f633270612f6d2f633270612e7369676e61747572656a696e7374616e63654944616972637265617465645f617373657274696f6e7382a26375726c627531646861736841aaa363616c67667368613531326375726c62753264686173684074636c61696d5f67656e657261746f725f696e666fa1646e616d656167"#;

fn entry(alloc: Global, url: &str, hash: &[u8], alg: Option<&str>) -> Result<Ref, NoMemory> {
    let alg = match alg {
        Some(alg) => Some(Text::copied(alloc, alg)?),
        None => None,
    };
    Ok(Ref {
        url: Text::copied(alloc, url)?,
        hash: Blob::copied(alloc, hash)?,
        alg,
    })
}

// Parts of a claim; the names are its manifest's label, its instance, its maker and its algorithm.
fn parts(
    alloc: Global,
    names: [&str; 4],
    title: &str,
    entries: Vec<Ref>,
    redacted: &str,
) -> Result<ClaimParts, NoMemory> {
    let mut texts = Vec::new(alloc);
    if redacted != "-" {
        texts.push(Text::copied(alloc, redacted)?)?;
    }
    Ok(ClaimParts {
        label: Text::copied(alloc, names[0])?,
        instance: Text::copied(alloc, names[1])?,
        generator: Text::copied(alloc, names[2])?,
        title: if title == "-" {
            None
        } else {
            Some(Text::copied(alloc, title)?)
        },
        alg: Text::copied(alloc, names[3])?,
        entries: Refs::from_list(entries),
        redacted: Texts::from_list(texts),
    })
}

// What stands before the first space, and what behind it.
fn cut(row: &str) -> (&str, &str) {
    match row.split_once(" ") {
        Some(parts) => parts,
        None => (row, ""),
    }
}

#[test]
fn claims_are_written(rt: HostRuntime) -> Result<(), Fail> {
    let alloc = rt.alloc();
    for row in WRITTEN.lines() {
        let (alg, rest) = cut(row);
        let (title, rest) = cut(rest);
        let (redacted, want) = cut(rest);
        let mut entries = Vec::new(alloc);
        entries.push(entry(alloc, "u1", &[0xAA], None)?)?;
        entries.push(entry(alloc, "u2", &[], Some("sha512"))?)?;
        let made = parts(alloc, ["m", "i", "g", alg], title, entries, redacted)?;
        let want = hex::decode(alloc, want)?;
        assert_eq!(rt; write(alloc, &made)?.as_slice(), want.as_slice(), "{row}");
    }
    Ok(())
}

#[test]
fn a_claim_of_two_entries_has_352_bytes(rt: HostRuntime) -> Result<(), Fail> {
    let alloc = rt.alloc();
    let mut entries = Vec::new(alloc);
    for url in [
        "self#jumbf=c2pa.assertions/c2pa.actions.v2",
        "self#jumbf=c2pa.assertions/c2pa.hash.data",
    ] {
        entries.push(entry(alloc, url, &[0; 32], None)?)?;
    }
    let names = [
        "urn:c2pa:00000000-0000-4000-8000-000000000000",
        "xmp:iid:sample",
        "c2",
        "sha256",
    ];
    let bytes = write(alloc, &parts(alloc, names, "-", entries, "-")?)?;
    assert_eq!(rt; bytes.as_slice().len(), 352);
    Ok(())
}
