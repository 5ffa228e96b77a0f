// Boxes of assertions, and the binding. What they are was reckoned by a program of its own.
use c2_base::{Blob, NoMemory, Range, Text};
use c2_definition::{NewAssertion, Payload};
use c2_hash::{Alg, Digest};
use c2_layout::{ManifestRefs, data_binding, ingredient, own_ref, write_assertion};
use c2_spec::{Relationship, WriteError};
use std::alloc::{AllocError, Global};
use std::test::Fail;

// One action: the asset was created.
const ACTIONS: &str = "a167616374696f6e7381a166616374696f6e6c633270612e63726561746564";

// The box of these actions.
const ACTIONS_BOX: &str =
    "000000586a756d62000000296a756d6463626f7200110010800000aa00389b7103633270612e616374696f6e732e7632000000002763626f72a167616374696f6e7381a166616374696f6e6c633270612e63726561746564";

// The box of a text in JSON.
const NOTE_BOX: &str =
    "000000376a756d62000000236a756d646a736f6e00110010800000aa00389b7103746573742e6e6f7465000000000c6a736f6e22616222";

// The item that binds a file outside 1,141 bytes from place 20 on, by a digest of 32 bytes 07.
const BINDING: &str =
    "a463616c6766736861323536637061644e00000000000000000000000000006468617368582007070707070707070707070707070707070707070707070707070707070707076a6578636c7573696f6e7381a265737461727414666c656e677468190475";

// The item that binds a file outside 1,189 bytes from place 20 on, by a digest of 48 bytes 07.
const BINDING_BY_SHA384: &str =
    "a463616c6766736861333834637061644e0000000000000000000000000000646861736858300707070707070707070707070707070707070707070707070707070707070707070707070707070707070707070707076a6578636c7573696f6e7381a265737461727414666c656e6774681904a5";

// The item that binds a file outside 1,237 bytes from place 20 on, by a digest of 64 bytes 07.
const BINDING_BY_SHA512: &str =
    "a463616c6766736861353132637061644e000000000000000000000000000064686173685840070707070707070707070707070707070707070707070707070707070707070707070707070707070707070707070707070707070707070707070707070707076a6578636c7573696f6e7381a265737461727414666c656e6774681904d5";

// The item of a component, the manifest `urn:c2pa:a`, whose contents have a digest of 32 bytes 07, and those of its signature box one of
// 32 bytes 09.
const COMPONENT: &str =
    "a36c72656c6174696f6e736869706b636f6d706f6e656e744f666e6163746976654d616e6966657374a26375726c781b73656c66236a756d62663d2f633270612f75726e3a633270613a616468617368582007070707070707070707070707070707070707070707070707070707070707076e636c61696d5369676e6174757265a26375726c782a73656c66236a756d62663d2f633270612f75726e3a633270613a612f633270612e7369676e6174757265646861736858200909090909090909090909090909090909090909090909090909090909090909";

// A digest of 32 bytes 07.
const DIGEST: &str = "0707070707070707070707070707070707070707070707070707070707070707";

// A new assertion.
fn new_assertion(
    alloc: Global,
    label: &str,
    kind: Payload,
    bytes: &[u8],
) -> Result<NewAssertion, NoMemory> {
    Ok(NewAssertion {
        label: Text::copied(alloc, label)?,
        kind,
        bytes: Blob::copied(alloc, bytes)?,
    })
}

// The box of an assertion in hex, or why it isn't written.
fn written(alloc: Global, assertion: &NewAssertion) -> Result<String, AllocError> {
    match write_assertion(alloc, assertion) {
        Ok(bytes) => hex::encode(alloc, bytes.as_slice()),
        Err(WriteError::BadLabel) => String::from_str(alloc, "BadLabel"),
        Err(WriteError::TooLarge(_)) => String::from_str(alloc, "TooLarge"),
        Err(WriteError::NoMemory) => Err(AllocError),
    }
}

#[test]
fn assertions_have_these_boxes(rt: HostRuntime) -> Result<(), Fail> {
    let alloc = rt.alloc();
    let Ok(item) = hex::decode(alloc, ACTIONS) else {
        assert!(rt; false);
        return Ok(());
    };
    let made = new_assertion(alloc, "c2pa.actions.v2", Payload::Cbor, item.as_slice());
    if let Ok(actions) = made {
        assert_eq!(rt; written(alloc, &actions)?.as_str(), ACTIONS_BOX);
    }
    if let Ok(note) = new_assertion(alloc, "test.note", Payload::Json, br#""ab""#) {
        assert_eq!(rt; written(alloc, &note)?.as_str(), NOTE_BOX);
    }
    if let Ok(unnamed) = new_assertion(alloc, "", Payload::Json, b"") {
        assert_eq!(rt; written(alloc, &unnamed)?.as_str(), "BadLabel");
    }
    Ok(())
}

#[test]
fn a_binding_holds_its_range_and_digest(rt: HostRuntime) -> Result<(), Fail> {
    let alloc = rt.alloc();
    let range = Range {
        start: 20,
        length: 1141,
    };
    match data_binding(alloc, Alg::Sha256, range, &[7; 32]) {
        Ok(binding) => {
            let item = hex::encode(alloc, binding.bytes.as_slice())?;
            assert_eq!(rt; item.as_str(), BINDING);
            assert_eq!(rt; binding.label.as_str(), "c2pa.hash.data");
            assert_eq!(rt; binding.kind, Payload::Cbor);
        }
        Err(NoMemory) => assert!(rt; false),
    }
    Ok(())
}

// The item in hex that binds a file outside so many bytes from place 20 on.
fn bound(alloc: Global, alg: Alg, length: u64, digest: &[u8]) -> Result<String, AllocError> {
    match data_binding(alloc, alg, Range { start: 20, length }, digest) {
        Ok(binding) => hex::encode(alloc, binding.bytes.as_slice()),
        Err(NoMemory) => Err(AllocError),
    }
}

#[test]
fn a_binding_is_as_long_as_its_digest_asks(rt: HostRuntime) -> Result<(), Fail> {
    let alloc = rt.alloc();
    let item = bound(alloc, Alg::Sha384, 1_189, &[7; 48])?;
    assert_eq!(rt; item.as_str(), BINDING_BY_SHA384);
    let item = bound(alloc, Alg::Sha512, 1_237, &[7; 64])?;
    assert_eq!(rt; item.as_str(), BINDING_BY_SHA512);
    Ok(())
}

#[test]
fn an_entry_names_a_box_of_its_own_manifest(rt: HostRuntime) -> Result<(), Fail> {
    let alloc = rt.alloc();
    match own_ref(alloc, "c2pa.actions.v2", &[7; 32]) {
        Ok(entry) => {
            assert_eq!(rt;
                entry.url.as_str(),
                "self#jumbf=c2pa.assertions/c2pa.actions.v2"
            );
            let digest = hex::encode(alloc, entry.hash.as_slice())?;
            assert_eq!(rt; digest.as_str(), DIGEST);
            assert!(rt; entry.alg.is_none());
        }
        Err(NoMemory) => assert!(rt; false),
    }
    Ok(())
}

// A component of a manifest that has a parent, too.
fn component(alloc: Global) -> Result<NewAssertion, NoMemory> {
    let refs = ManifestRefs {
        label: Text::copied(alloc, "urn:c2pa:a")?,
        contents: Digest::from_slice(&[7; 32]),
        signed: Digest::from_slice(&[9; 32]),
    };
    ingredient(
        alloc,
        "c2pa.ingredient.v3__1",
        Relationship::ComponentOf,
        &refs,
    )
}

#[test]
fn an_ingredient_names_a_manifest_and_its_signature(rt: HostRuntime) -> Result<(), Fail> {
    let alloc = rt.alloc();
    match component(alloc) {
        Ok(component) => {
            let item = hex::encode(alloc, component.bytes.as_slice())?;
            assert_eq!(rt; item.as_str(), COMPONENT);
            assert_eq!(rt; component.label.as_str(), "c2pa.ingredient.v3__1");
            assert_eq!(rt; component.kind, Payload::Cbor);
        }
        Err(NoMemory) => assert!(rt; false),
    }
    Ok(())
}
