// How often a build reads each byte of its media.
use crate::counted::CountedSource;
use crate::files::{FILM, PICTURE};
use crate::judges::approving;
use crate::reads::{MEDIA_DATA, PACKETS, PICTURE_END, STORE_BOX, are_more, by_check, by_search};
use c2_base::{Blob, MemSink, MemSource};
use c2_build::embed;
use c2_hash::Sha;
use std::alloc::Global;
use std::test::Fail;

// A definition with one assertion, of another label than those of the files.
const DEFINITION: &str =
    r#"{"label":"urn:c2pa:00000000-0000-4000-8000-000000000001","instance_id":"xmp:iid:sample","generator":"c2","protected":"a10126","reserve":256,"assertions":[{"label":"c2pa.actions.v2","kind":"cbor","hex":"a167616374696f6e7381a166616374696f6e6c633270612e63726561746564"}]}"#;

// What a message of that protected header has before its signature.
const MESSAGE: &[u8] = b"\xd2\x84\x43\xa1\x01\x26\xa0\xf6\x58\x40";

// How often each byte of a file is read where a new store is built into it, and whether it is.
fn by_build(alloc: Global, file: &[u8]) -> Result<(CountedSource, bool), Fail> {
    let mut media = CountedSource::new(alloc, file)?;
    let definition = Blob::copied(alloc, DEFINITION.as_bytes())?;
    let mut definition = MemSource::new(definition, 4_096, 0);
    let mut message = Vec::from_slice(alloc, MESSAGE)?;
    message.extend_from_slice(&[0; 64])?;
    let mut message = MemSource::new(Blob::from_vec(message), 4_096, 0);
    let mut judges = approving(alloc)?;
    let mut out = MemSink::with_room(alloc, 10_000, 0)?;
    let came = embed(
        alloc,
        &Sha,
        &mut media,
        &mut definition,
        &mut message,
        &mut judges,
        &mut out,
    );
    Ok((media, came.is_ok()))
}

#[test]
fn a_picture_is_opened_once_and_what_is_left_of_it_read_twice_more(
    rt: HostRuntime,
) -> Result<(), Fail> {
    let alloc = rt.alloc();
    let file = hex::decode(alloc, PICTURE)?;
    let len = file.len();
    let (checked, valid) = by_check(alloc, file.as_slice())?;
    let (built, came) = by_build(alloc, file.as_slice())?;
    assert!(rt; valid);
    assert!(rt; came);
    // What is left is digested and written; the store is read where the file is opened.
    assert!(rt; are_more(built.reads(), checked.reads(), 0, PACKETS, 2));
    assert!(rt; are_more(built.reads(), checked.reads(), PACKETS, PICTURE_END, 0));
    assert!(rt; are_more(built.reads(), checked.reads(), PICTURE_END, len, 2));
    Ok(())
}

#[test]
fn a_picture_without_a_store_is_opened_once(rt: HostRuntime) -> Result<(), Fail> {
    let alloc = rt.alloc();
    let file = hex::decode(alloc, PICTURE)?;
    let file = file.as_slice();
    assert!(rt; PICTURE_END <= file.len());
    let mut plain = Vec::from_slice(alloc, &file[..PACKETS])?;
    plain.extend_from_slice(&file[PICTURE_END..])?;
    let found = by_search(alloc, plain.as_slice())?;
    let (built, came) = by_build(alloc, plain.as_slice())?;
    assert!(rt; came);
    assert!(rt; are_more(built.reads(), found.reads(), 0, plain.len(), 2));
    Ok(())
}

#[test]
fn a_film_is_opened_once_and_what_is_left_of_it_read_twice_more(
    rt: HostRuntime,
) -> Result<(), Fail> {
    let alloc = rt.alloc();
    let file = hex::decode(alloc, FILM)?;
    let (checked, valid) = by_check(alloc, file.as_slice())?;
    let (built, came) = by_build(alloc, file.as_slice())?;
    assert!(rt; valid);
    assert!(rt; came);
    // The first box is excluded by its path alone, so that it is written and not digested.
    assert!(rt; are_more(built.reads(), checked.reads(), 0, MEDIA_DATA, 1));
    assert!(rt; are_more(built.reads(), checked.reads(), MEDIA_DATA, STORE_BOX, 2));
    assert!(rt; are_more(built.reads(), checked.reads(), STORE_BOX, file.len(), 0));
    Ok(())
}
