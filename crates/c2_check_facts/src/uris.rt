// The URIs of boxes, and what fails at them.
ghost use Rattle.std.specs.Prelude.{◌≡◌, IfOk, Some, None, unwrap_or, option_map};
ghost use Rattle.c2_rules.specs.Ingredients as form;
ghost use Rattle.c2_rules.specs.Rules as rules;

use c2_base::{NoMemory, Text};
use c2_read_manifests::{ReadManifest, label};
use c2_rules::{Code, Failing};
use std::alloc::Global;

/// The first claim box's label.
pub fn claim_label<'c>(own: &'c ReadManifest<'_>) -> Option<&'c str>
    ensures { option_map (λ x. x.now) result ≡ rules.claim_label own.now.manifest.claims }
{
    match own.claims.as_slice() {
        [first, ..] => first.label,
        [] => None,
    }
}

/// This fails at the manifest.
#[tactic(auto, using(c2_lemmas::proofs::Lists::nothing_after))]
pub fn at_manifest(
    alloc: Global,
    own: &ReadManifest<'_>,
    code: Code,
) -> Result<Option<Failing>, NoMemory>
    ensures { IfOk result (λ found. found ≡ Some
        (record { code = code; uri = rules.manifest_uri own.now })) }
{
    let name = label(own);
    let uri = format!(in alloc; "self#jumbf=/c2pa/{name}")?;
    Ok(Some(Failing {
        code,
        uri: Text::from_string(alloc, uri)?,
    }))
}

/// This fails at the signature.
pub fn at_signature(
    alloc: Global,
    own: &ReadManifest<'_>,
    code: Code,
) -> Result<Option<Failing>, NoMemory>
    ensures { IfOk result (λ found. found ≡ Some
        (record { code = code; uri = rules.signature_uri own.now })) }
{
    let name = label(own);
    let uri = format!(in alloc; "self#jumbf=/c2pa/{name}/c2pa.signature")?;
    Ok(Some(Failing {
        code,
        uri: Text::from_string(alloc, uri)?,
    }))
}

/// This fails at the claim box.
pub fn at_claim(
    alloc: Global,
    own: &ReadManifest<'_>,
    code: Code,
) -> Result<Option<Failing>, NoMemory>
    ensures { IfOk result
        (λ found. found ≡ Some (record { code = code; uri = rules.claim_uri own.now })) }
{
    let name = label(own);
    let claim = claim_label(own).unwrap_or("");
    let uri = format!(in alloc; "self#jumbf=/c2pa/{name}/{claim}")?;
    Ok(Some(Failing {
        code,
        uri: Text::from_string(alloc, uri)?,
    }))
}

/// This fails at the assertion with this label in the manifest with this label.
pub fn at_assertion(
    alloc: Global,
    manifest: &str,
    label: &str,
    code: Code,
) -> Result<Option<Failing>, NoMemory>
    ensures { IfOk result
        (λ found. found ≡ Some
        (record { code = code; uri = form.assertion_uri manifest.now label.now })) }
{
    let uri = format!(in alloc; "self#jumbf=/c2pa/{manifest}/c2pa.assertions/{label}")?;
    Ok(Some(Failing {
        code,
        uri: Text::from_string(alloc, uri)?,
    }))
}

/// This fails at an assertion box: at the assertion store where the box has no label.
pub fn at_box(
    alloc: Global,
    own: &ReadManifest<'_>,
    name: Option<&str>,
    code: Code,
) -> Result<Option<Failing>, NoMemory>
    ensures { IfOk result (λ found. found ≡ Some (record {
      code = code;
      uri = rules.assertion_box_uri own.now (option_map (λ x. x.now) name.entry);
    })) }
{
    match name {
        Some(name) => at_assertion(alloc, label(own), name, code),
        None => at_store(alloc, label(own), code),
    }
}

/// This fails at the assertion store of the manifest with this label.
fn at_store(alloc: Global, manifest: &str, code: Code) -> Result<Option<Failing>, NoMemory>
    ensures { IfOk result
        (λ found. found ≡ Some
        (record {
          code = code;
          uri = rules.box_uri manifest.now (rules.assertion_target None);
        })) }
{
    let uri = format!(in alloc; "self#jumbf=/c2pa/{manifest}/c2pa.assertions")?;
    Ok(Some(Failing {
        code,
        uri: Text::from_string(alloc, uri)?,
    }))
}
