// URIs that are written.
use c2_uri::{Target, Uri, text};
use std::test::Fail;

#[test]
fn a_uri_is_written(rt: HostRuntime) -> Result<(), Fail> {
    let alloc = rt.alloc();
    let manifest = Some("m");
    for (manifest, target, want) in [
        (manifest, Target::Whole, "self#jumbf=/c2pa/m"),
        (
            manifest,
            Target::Signature,
            "self#jumbf=/c2pa/m/c2pa.signature",
        ),
        (
            manifest,
            Target::Assertion("a"),
            "self#jumbf=/c2pa/m/c2pa.assertions/a",
        ),
        (None, Target::Assertion("a"), "self#jumbf=c2pa.assertions/a"),
    ] {
        let written = text(alloc, &Uri { manifest, target })?;
        assert_eq!(rt; written.as_str(), want);
    }
    Ok(())
}
