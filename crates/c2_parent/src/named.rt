// The assertions that redactions name, looked up in order and not by going through a list.
ghost use Rattle.std.specs.Prelude.{◌≡◌, ◌||◌, ℕ, List, OnOk, false};
ghost use Rattle.c2_spec.specs.C2pa.Uri.{uri_of};
ghost use Rattle.c2_rules.specs.Chains.{names_assertion};
ghost use Rattle.c2_parent.specs.Named.{is_among};

use c2_base::NoMemory;
use c2_uri::{Target, parse};
use std::alloc::Global;
use std::collections::BTreeSet;

/// Assertions: the label of the manifest, and their own.
#[derive(Drop)]
pub struct Named<'u> {
    pub pairs: BTreeSet<(&'u str, &'u str)>,
}

/// No names.
pub fn no_names<'u>(alloc: Global) -> Named<'u>
    ensures { (manifest label : List ℕ) → is_among result manifest label ≡ false }
{
    Named {
        pairs: BTreeSet::new(alloc),
    }
}

/// Whether the assertion with this label in the manifest with that one is among them. Takes no memory.
pub fn has_named<'u>(named: &Named<'u>, manifest: &'u str, label: &'u str) -> bool
    ensures { result ≡ is_among named.now manifest.now label.now }
{
    named.pairs.contains(&(manifest, label))
}

/// Adds the assertion that a text names, where it is the URI of one that names its manifest.
pub fn add_named<'u>(named: &mut Named<'u>, text: &'u str) -> Result<(), NoMemory>
    ensures { OnOk result ((manifest label : List ℕ) → is_among named.new manifest label
        ≡ (is_among named.old manifest label || names_assertion manifest label (uri_of text.now))) }
{
    let Some(uri) = parse(text) else {
        return Ok(());
    };
    let Some(manifest) = uri.manifest else {
        return Ok(());
    };
    if let Target::Assertion(label) = uri.target {
        named.pairs.insert((manifest, label))?;
    }
    Ok(())
}
