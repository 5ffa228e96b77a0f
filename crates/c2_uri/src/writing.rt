// Writing the URI of a box.
ghost use Rattle.std.specs.Prelude.{◌≡◌, ◌++◌, Some, OnOk, IfOk, string_bytes};
ghost use Rattle.c2_spec.specs.C2pa.Uri.{target_path, behind_manifest, target_view, uri_view};
ghost use Rattle.c2_spec.specs.C2pa.Uri.{uri_of, uri_text};
ghost use Rattle.c2_uri.specs.Writing.{IsWritable};

use crate::parsing::{ASSERTIONS, SCHEME, SIGNATURE, STORE};
use c2_base::{NoMemory, Text};
use c2_spec::{Target, Uri};
use std::alloc::{AllocError, Global};

// Appends the labels that lead to what is named.
fn push_path(out: &mut String, target: Target<'_>) -> Result<(), AllocError>
    ensures { OnOk result
        (string_bytes out.new ≡ string_bytes out.old ++ target_path (target_view target.entry)) }
{
    match target {
        Target::Whole => {}
        Target::Assertion(label) => {
            out.push_str(ASSERTIONS)?;
            out.push_str(label)?;
        }
        Target::Signature => out.push_str(SIGNATURE)?,
        Target::Other(path) => out.push_str(path)?,
    }
    Ok(())
}

// Appends what follows the label of a manifest.
fn push_behind(out: &mut String, target: Target<'_>) -> Result<(), AllocError>
    ensures { OnOk result
        (string_bytes out.new
        ≡ string_bytes out.old ++ behind_manifest (target_view target.entry)) }
{
    if matches!(target, Target::Whole) {
        return Ok(());
    }
    out.push_str("/")?;
    push_path(out, target)?;
    Ok(())
}

// The text of a URI.
fn spell(alloc: Global, uri: &Uri<'_>) -> Result<Text, NoMemory>
    ensures { IfOk result (λ t. t ≡ uri_text (uri_view uri.now)) }
{
    let mut text = String::new(alloc);
    text.push_str(SCHEME)?;
    match uri.manifest {
        Some(manifest) => {
            text.push_str(STORE)?;
            text.push_str(manifest)?;
            push_behind(&mut text, uri.target)?;
        }
        None => push_path(&mut text, uri.target)?,
    }
    Text::from_string(alloc, text)
}

/// The text of a URI.
///
/// `parse` reads it as this URI again where that isn't relative and whole, its labels aren't empty and have no `/`, and a path that it
/// names is neither a signature's nor an assertion's. The error is out of memory.
pub fn text(alloc: Global, uri: &Uri<'_>) -> Result<Text, NoMemory>
    ensures spelled { IfOk result (λ t. t ≡ uri_text (uri_view uri.now)) }
    ensures read_back { IsWritable (uri_view uri.now)
        → IfOk result (λ t. uri_of t ≡ Some (uri_view uri.now)) }
{
    spell(alloc, uri)
}
