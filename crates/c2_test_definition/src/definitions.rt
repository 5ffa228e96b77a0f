// Definition files, field by field.
use c2_definition::{
    Definition, DefinitionError, DefinitionField, NewAssertion, Payload, read_definition,
};
use std::alloc::{AllocError, Global};
use std::test::Fail;

// Files, and what they are: the label, the instance, the generator, the title in brackets (or `-`), the protected header in
// hex, the reserve, the algorithm, each new assertion as its label, box and bytes, and the redactions; or what is refused first.
const FILES: &str =
    r#"{"label":"urn:c2pa:00000000-0000-4000-8000-000000000000","instance_id":"xmp:iid:sample","generator":"c2","protected":"a10126","reserve":256,"assertions":[{"label":"c2pa.actions.v2","kind":"cbor","hex":"a167616374696f6e7381a166616374696f6e6c633270612e63726561746564"}]} => urn:c2pa:00000000-0000-4000-8000-000000000000 xmp:iid:sample c2 - a10126 256 Sha256 (c2pa.actions.v2 cbor a167616374696f6e7381a166616374696f6e6c633270612e63726561746564)
{"label":"urn:c2pa:00000000-0000-4000-8000-00000000000a","instance_id":"i","generator":"g","protected":"","reserve":64} => urn:c2pa:00000000-0000-4000-8000-00000000000a i g -  64 Sha256
 { "redact" : [ ] , "assertions" : [ ] , "reserve" : 1048576 , "protected" : "A10126" , "title" : "" , "generator" : " " , "instance_id" : "\u00fc" , "label" : "urn:c2pa:ffffffff-ffff-ffff-ffff-ffffffffffff" } => urn:c2pa:ffffffff-ffff-ffff-ffff-ffffffffffff ü   [] a10126 1048576 Sha256
{"label":"urn:c2pa:00000000-0000-4000-8000-00000000000a","instance_id":"i","generator":"g","title":"t","protected":"","reserve":64,"redact":["u","","u"]} => urn:c2pa:00000000-0000-4000-8000-00000000000a i g [t]  64 Sha256 <u> <> <u>
{"label":"x","label":"urn:c2pa:00000000-0000-4000-8000-00000000000a","instance_id":"i","generator":"g","protected":"","reserve":64} => urn:c2pa:00000000-0000-4000-8000-00000000000a i g -  64 Sha256
{"label":"urn:c2pa:00000000-0000-4000-8000-00000000000a","\u006cabel":"x","instance_id":"i","generator":"g","protected":"","reserve":64} => Label
{"label":"urn:c2pa:00000000-0000-4000-8000-00000000000a","instance_id":"i","generator":"g","protected":"","reserve":64,"assertions":[{"label":"a","kind":"json","hex":""},{"label":"b","kind":"cbor","hex":"1805"},{"label":"c2pa.actions__1","kind":"json","hex":"7B7d"},{"label":"a__1","kind":"json","hex":"00"},{"label":" ~ü","kind":"cbor","hex":"A0"}]} => urn:c2pa:00000000-0000-4000-8000-00000000000a i g -  64 Sha256 (a json ) (b cbor 1805) (c2pa.actions__1 json 7b7d) (a__1 json 00) ( ~ü cbor a0)
{"label":"urn:c2pa:00000000-0000-4000-8000-00000000000a","instance_id":"i","generator":"g","protected":"","reserve":64,"alg":"sha384"} => urn:c2pa:00000000-0000-4000-8000-00000000000a i g -  64 Sha384
{"label":"urn:c2pa:00000000-0000-4000-8000-00000000000a","instance_id":"i","generator":"g","protected":"","reserve":64,"alg":"sha512"} => urn:c2pa:00000000-0000-4000-8000-00000000000a i g -  64 Sha512
{"label":"urn:c2pa:00000000-0000-4000-8000-00000000000a","instance_id":"i","generator":"g","protected":"","reserve":64,"alg":"sha256"} => urn:c2pa:00000000-0000-4000-8000-00000000000a i g -  64 Sha256
 => Json
[] => Json
null => Json
"x" => Json
{ => Json
{} x => Json
{"label":"urn:c2pa:00000000-0000-4000-8000-00000000000a","instance_id":"i","generator":"g","protected":"","reserve":1e999} => Json
{"label":1,"Label":1} => Other
{"label":1,"":1} => Other
{} => Label
{"label":null} => Label
{"label":"urn:uuid:00000000-0000-4000-8000-00000000000a"} => Label
{"label":"urn:c2pa:00000000-0000-4000-8000-00000000000A"} => Label
{"label":"urn:c2pa:0000000000004000800000000000000a"} => Label
{"label":"urn:c2pa:{00000000-0000-4000-8000-00000000000a}"} => Label
{"label":"urn:c2pa:urn:uuid:00000000-0000-4000-8000-00000000000a"} => Label
{"label":"urn:c2pa:00000000-0000-4000-8000-00000000000a "} => Label
{"label":"URN:C2PA:00000000-0000-4000-8000-00000000000a"} => Label
{"label":"00000000-0000-4000-8000-00000000000a"} => Label
{"label":"urn:c2pa:00000000-0000-4000-8000-00000000000a"} => InstanceId
{"label":"urn:c2pa:00000000-0000-4000-8000-00000000000a","instance_id":"","generator":""} => InstanceId
{"label":"urn:c2pa:00000000-0000-4000-8000-00000000000a","instance_id":null} => InstanceId
{"label":"urn:c2pa:00000000-0000-4000-8000-00000000000a","instance_id":"i"} => Generator
{"label":"urn:c2pa:00000000-0000-4000-8000-00000000000a","instance_id":"i","generator":"","title":1} => Generator
{"label":"urn:c2pa:00000000-0000-4000-8000-00000000000a","instance_id":"i","generator":["g"]} => Generator
{"label":"urn:c2pa:00000000-0000-4000-8000-00000000000a","instance_id":"i","generator":"g","title":null} => Title
{"label":"urn:c2pa:00000000-0000-4000-8000-00000000000a","instance_id":"i","generator":"g","title":1,"protected":1} => Title
{"label":"urn:c2pa:00000000-0000-4000-8000-00000000000a","instance_id":"i","generator":"g"} => Protected
{"label":"urn:c2pa:00000000-0000-4000-8000-00000000000a","instance_id":"i","generator":"g","protected":null,"reserve":1} => Protected
{"label":"urn:c2pa:00000000-0000-4000-8000-00000000000a","instance_id":"i","generator":"g","protected":"a1012"} => Protected
{"label":"urn:c2pa:00000000-0000-4000-8000-00000000000a","instance_id":"i","generator":"g","protected":"0x"} => Protected
{"label":"urn:c2pa:00000000-0000-4000-8000-00000000000a","instance_id":"i","generator":"g","protected":""} => Reserve
{"label":"urn:c2pa:00000000-0000-4000-8000-00000000000a","instance_id":"i","generator":"g","protected":"","reserve":63,"assertions":1} => Reserve
{"label":"urn:c2pa:00000000-0000-4000-8000-00000000000a","instance_id":"i","generator":"g","protected":"","reserve":1048577} => Reserve
{"label":"urn:c2pa:00000000-0000-4000-8000-00000000000a","instance_id":"i","generator":"g","protected":"","reserve":18446744073709551616} => Reserve
{"label":"urn:c2pa:00000000-0000-4000-8000-00000000000a","instance_id":"i","generator":"g","protected":"","reserve":64.0} => Reserve
{"label":"urn:c2pa:00000000-0000-4000-8000-00000000000a","instance_id":"i","generator":"g","protected":"","reserve":64e0} => Reserve
{"label":"urn:c2pa:00000000-0000-4000-8000-00000000000a","instance_id":"i","generator":"g","protected":"","reserve":-64} => Reserve
{"label":"urn:c2pa:00000000-0000-4000-8000-00000000000a","instance_id":"i","generator":"g","protected":"","reserve":"64"} => Reserve
{"label":"urn:c2pa:00000000-0000-4000-8000-00000000000a","instance_id":"i","generator":"g","protected":"","reserve":null} => Reserve
{"label":"urn:c2pa:00000000-0000-4000-8000-00000000000a","instance_id":"i","generator":"g","protected":"","reserve":64,"redact":null} => Redact
{"label":"urn:c2pa:00000000-0000-4000-8000-00000000000a","instance_id":"i","generator":"g","protected":"","reserve":64,"redact":"u"} => Redact
{"label":"urn:c2pa:00000000-0000-4000-8000-00000000000a","instance_id":"i","generator":"g","protected":"","reserve":64,"redact":["u",null]} => Redact
{"label":"urn:c2pa:00000000-0000-4000-8000-00000000000a","instance_id":"i","generator":"g","protected":"","reserve":64,"alg":"md5"} => Alg
{"label":"urn:c2pa:00000000-0000-4000-8000-00000000000a","instance_id":"i","generator":"g","protected":"","reserve":64,"alg":"SHA256"} => Alg
{"label":"urn:c2pa:00000000-0000-4000-8000-00000000000a","instance_id":"i","generator":"g","protected":"","reserve":64,"alg":"sha-256"} => Alg
{"label":"urn:c2pa:00000000-0000-4000-8000-00000000000a","instance_id":"i","generator":"g","protected":"","reserve":64,"alg":"sha512/256"} => Alg
{"label":"urn:c2pa:00000000-0000-4000-8000-00000000000a","instance_id":"i","generator":"g","protected":"","reserve":64,"alg":""} => Alg
{"label":"urn:c2pa:00000000-0000-4000-8000-00000000000a","instance_id":"i","generator":"g","protected":"","reserve":64,"alg":null} => Alg
{"label":"urn:c2pa:00000000-0000-4000-8000-00000000000a","instance_id":"i","generator":"g","protected":"","reserve":64,"alg":256} => Alg
{"label":"urn:c2pa:00000000-0000-4000-8000-00000000000a","instance_id":"i","generator":"g","protected":"","reserve":64,"alg":["sha256"]} => Alg
{"alg":"md5","label":"urn:c2pa:00000000-0000-4000-8000-00000000000a","instance_id":"i","generator":"g","protected":"","reserve":64,"redact":null} => Redact
{"label":"urn:c2pa:00000000-0000-4000-8000-00000000000a","instance_id":"i","generator":"g","protected":"","reserve":64,"algorithm":"sha256"} => Other"#;

// A file up to the value of its field `assertions`, a wrong `redact` behind it.
const BEFORE: &str =
    r#"{"label":"urn:c2pa:00000000-0000-4000-8000-00000000000a","instance_id":"i","generator":"g","protected":"","reserve":64,"assertions":"#;

const AFTER: &str = r#","redact":1}"#;

// Values of `assertions` that are refused, before the wrong `redact` is.
const REFUSED: &str = r#"null
{}
"a"
[1]
[null]
[[]]
[{}]
[{"kind":"json","hex":""}]
[{"label":"a","hex":""}]
[{"label":"a","kind":"json"}]
[{"label":"a","kind":"json","hex":"","x":1}]
[{"label":null,"kind":"json","hex":""}]
[{"label":"","kind":"json","hex":""}]
[{"label":"a/b","kind":"json","hex":""}]
[{"label":"/","kind":"json","hex":""}]
[{"label":"a\u0000","kind":"json","hex":""}]
[{"label":"a\u001f","kind":"json","hex":""}]
[{"label":"a\u007f","kind":"json","hex":""}]
[{"label":"c2pa.hash.data","kind":"json","hex":""}]
[{"label":"c2pa.hash.data__1","kind":"json","hex":""}]
[{"label":"c2pa.hash.bmff.v2","kind":"json","hex":""}]
[{"label":"c2pa.hash.boxes","kind":"json","hex":""}]
[{"label":"c2pa.ingredient.v3","kind":"json","hex":""}]
[{"label":"c2pa.ingredient","kind":"json","hex":""}]
[{"label":"c2pa.cloud-data","kind":"json","hex":""}]
[{"label":"a","kind":"cbor","hex":""}]
[{"label":"a","kind":"cbor","hex":"0000"}]
[{"label":"a","kind":"cbor","hex":"1c"}]
[{"label":"a","kind":"cbor","hex":"a201000100"}]
[{"label":"a","kind":"CBOR","hex":"00"}]
[{"label":"a","kind":"","hex":"00"}]
[{"label":"a","kind":1,"hex":"00"}]
[{"label":"a","kind":"json","hex":"0"}]
[{"label":"a","kind":"json","hex":"0g"}]
[{"label":"a","kind":"json","hex":null}]
[{"label":"a","kind":"json","hex":""},{"label":"a","kind":"json","hex":""}]
[{"label":"a","kind":"json","hex":""},{"label":"b","kind":"json","hex":""},{"label":"\u0061","kind":"cbor","hex":"00"}]
[{"label":"a","kind":"json","hex":""},{"label":"b","kind":"cbor","hex":""}]"#;

// Adds an assertion to a shown definition.
fn show_assertion(alloc: Global, out: &mut String, new: &NewAssertion) -> Result<(), AllocError> {
    let bytes = hex::encode(alloc, new.bytes.as_slice())?;
    out.push_str(" (")?;
    out.push_str(new.label.as_str())?;
    match new.kind {
        Payload::Cbor => out.push_str(" cbor ")?,
        Payload::Json => out.push_str(" json ")?,
    }
    out.push_str(bytes.as_str())?;
    out.push_str(")")?;
    Ok(())
}

// A definition in words, its assertions and redactions left out.
fn show_fields(alloc: Global, d: &Definition) -> Result<String, AllocError> {
    let mut out = String::new(alloc);
    out.push_str(d.label.as_str())?;
    out.push_str(" ")?;
    out.push_str(d.instance_id.as_str())?;
    out.push_str(" ")?;
    out.push_str(d.generator.as_str())?;
    match &d.title {
        Some(title) => {
            out.push_str(" [")?;
            out.push_str(title.as_str())?;
            out.push_str("] ")?;
        }
        None => out.push_str(" - ")?,
    }
    let protected = hex::encode(alloc, d.protected.as_slice())?;
    out.push_str(protected.as_str())?;
    let reserve = format!(in alloc; " {}", d.reserve)?;
    out.push_str(reserve.as_str())?;
    let alg = format!(in alloc; " {:?}", d.alg)?;
    out.push_str(alg.as_str())?;
    Ok(out)
}

// A definition in words.
fn show(alloc: Global, d: &Definition) -> Result<String, AllocError> {
    let mut out = show_fields(alloc, d)?;
    for new in d.assertions.as_slice() {
        show_assertion(alloc, &mut out, new)?;
    }
    for uri in d.redact.as_slice() {
        out.push_str(" <")?;
        out.push_str(uri.as_str())?;
        out.push_str(">")?;
    }
    Ok(out)
}

#[test]
fn files_are_these_definitions(rt: HostRuntime) -> Result<(), Fail> {
    let alloc = rt.alloc();
    for row in FILES.lines() {
        if let Some((file, want)) = row.split_once(" => ") {
            match read_definition(alloc, file.as_bytes()) {
                Ok(d) => {
                    let got = show(alloc, &d)?;
                    assert_eq!(rt; got.as_str(), want, "{file}");
                }
                Err(DefinitionError::BadDefinition(field)) => {
                    let got = format!(in alloc; "{:?}", field)?;
                    assert_eq!(rt; got.as_str(), want, "{file}");
                }
                Err(DefinitionError::NoMemory) => assert!(rt; false, "{file}"),
            }
        }
    }
    Ok(())
}

// What a file comes to, apart from the definition itself.
fn refusal(alloc: Global, file: &[u8]) -> Result<(), DefinitionError> {
    let _ = read_definition(alloc, file)?;
    Ok(())
}

#[test]
fn assertions_are_refused_before_redactions(rt: HostRuntime) -> Result<(), Fail> {
    let alloc = rt.alloc();
    for value in REFUSED.lines() {
        let file = format!(in alloc; "{}{}{}", BEFORE, value, AFTER)?;
        assert_eq!(rt;
            refusal(alloc, file.as_bytes()),
            Err(DefinitionError::BadDefinition(DefinitionField::Assertions)),
            "{value}"
        );
    }
    let file = format!(in alloc; "{}[]{}", BEFORE, AFTER)?;
    assert_eq!(rt;
        refusal(alloc, file.as_bytes()),
        Err(DefinitionError::BadDefinition(DefinitionField::Redact))
    );
    Ok(())
}

#[test]
fn a_file_of_the_limit_is_read(rt: HostRuntime) -> Result<(), Fail> {
    let alloc = rt.alloc();
    let file = format!(in alloc; "{}[]}}", BEFORE)?;
    let mut bytes = Vec::from_slice(alloc, file.as_bytes())?;
    bytes.resize(1_048_576, b' ')?;
    assert_eq!(rt; refusal(alloc, &bytes), Ok(()));
    bytes.push(b' ')?;
    assert_eq!(rt;
        refusal(alloc, &bytes),
        Err(DefinitionError::BadDefinition(DefinitionField::Size))
    );
    Ok(())
}

// A file whose protected header has this many bytes.
fn with_protected(alloc: Global, bytes: usize) -> Result<String, AllocError> {
    let header = vec![in alloc; 0u8; bytes]?;
    let digits = hex::encode(alloc, header.as_slice())?;
    let file = format!(in alloc;
        r#"{{"label":"urn:c2pa:00000000-0000-4000-8000-00000000000a","instance_id":"i","generator":"g","protected":"{}","reserve":64}}"#,
        digits.as_str()
    )?;
    Ok(file)
}

#[test]
fn a_protected_header_has_65536_bytes_at_most(rt: HostRuntime) -> Result<(), Fail> {
    let alloc = rt.alloc();
    let file = with_protected(alloc, 65_536)?;
    assert_eq!(rt; refusal(alloc, file.as_bytes()), Ok(()));
    let file = with_protected(alloc, 65_537)?;
    assert_eq!(rt;
        refusal(alloc, file.as_bytes()),
        Err(DefinitionError::BadDefinition(DefinitionField::Protected))
    );
    Ok(())
}

// A file whose first field is a list of lists, so many of them inside one another.
fn nested(alloc: Global, lists: usize) -> Result<String, AllocError> {
    let mut file = String::new(alloc);
    file.push_str(r#"{"label":"#)?;
    for _ in 0..lists {
        file.push_str("[")?;
    }
    for _ in 0..lists {
        file.push_str("]")?;
    }
    file.push_str("}")?;
    Ok(file)
}

#[test]
fn json_is_utf8_and_nests_127_deep(rt: HostRuntime) -> Result<(), Fail> {
    let alloc = rt.alloc();
    let file = nested(alloc, 126)?;
    assert_eq!(rt;
        refusal(alloc, file.as_bytes()),
        Err(DefinitionError::BadDefinition(DefinitionField::Label))
    );
    let file = nested(alloc, 127)?;
    assert_eq!(rt;
        refusal(alloc, file.as_bytes()),
        Err(DefinitionError::BadDefinition(DefinitionField::Json))
    );
    assert_eq!(rt;
        refusal(alloc, b"{\"label\":\"\xff\"}"),
        Err(DefinitionError::BadDefinition(DefinitionField::Json))
    );
    Ok(())
}
