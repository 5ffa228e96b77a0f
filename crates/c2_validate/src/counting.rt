// What is counted of a valid store.
ghost use Rattle.std.specs.Prelude.{◌≡◌, ◌<◌, ◌+◌, IfOk, OnOk, filter, length, if◌then◌else◌};
ghost use Rattle.c2_rules.specs.CheckList as form;
ghost use Rattle.c2_rules.specs.Chains.{is_redacted};
ghost use Rattle.c2_validate.specs.Counts.{keeps, kept_in, label_count, summary_by};

use c2_base::{NoMemory, Range};
use c2_chain::{Chain, manifest_count, reached, readings, redacted};
use c2_cover::{Cover, covered_count, outside_count};
use c2_hard_binding::{claim_read, created, gathered};
use c2_read_manifests::{ReadManifest, entry_label, manifests};
use c2_rules::{Parsed, Summary};
use c2_spec::Ref;
use std::alloc::Global;

/// One, or none.
fn one_if(wanted: bool) -> u64
    ensures { result ≡ (if wanted then 1 else 0) }
{
    if wanted { 1 } else { 0 }
}

/// The number of reached manifests.
fn reached_count(chain: &Chain<'_>) -> u64
    ensures { result ≡ length (form.reached_places chain.now.readings) }
{
    let mut found = 0;
    for i in 0..manifest_count(chain) {
        let one = one_if(reached(chain, i));
        found += one;
    }
    found
}

/// Whether an entry of manifest `i` lists a label that isn't redacted.
fn is_kept(chain: &Chain<'_>, i: usize, own: &ReadManifest<'_>, entry: &Ref) -> bool
    requires { i < length chain.now.readings }
    ensures { result ≡ keeps (is_redacted chain.now.readings i) own.now.manifest entry.now }
{
    match entry_label(own, entry) {
        Some(name) => !redacted(chain, i, name),
        None => false,
    }
}

/// Adds an entry, where it is wanted.
fn push_if<'c>(found: &mut Vec<&'c Ref>, entry: &'c Ref, wanted: bool) -> Result<(), NoMemory>
    ensures { OnOk result
        (length found.new.items ≡ length found.old.items + (if wanted then 1 else 0)) }
{
    if wanted {
        found.push(entry)?;
    }
    Ok(())
}

/// Adds those of these entries of manifest `i` that list a label that isn't redacted.
fn push_kept<'c>(
    found: &mut Vec<&'c Ref>,
    chain: &Chain<'_>,
    i: usize,
    own: &ReadManifest<'_>,
    entries: &'c [Ref],
) -> Result<(), NoMemory>
    requires { i < length chain.now.readings }
    ensures { OnOk result (length found.new.items ≡ length found.old.items
        + length (filter (keeps (is_redacted chain.now.readings i) own.now.manifest) entries.now)) }
{
    for k in 0..entries.len() {
        let wanted = is_kept(chain, i, own, &entries[k]);
        push_if(found, &entries[k], wanted)?;
    }
    Ok(())
}

/// Adds the entries of manifest `i` that list a label that isn't redacted.
fn push_unredacted<'c>(
    found: &mut Vec<&'c Ref>,
    chain: &Chain<'_>,
    i: usize,
    own: &'c ReadManifest<'_>,
) -> Result<(), NoMemory>
    requires { i < length chain.now.readings }
    ensures { OnOk result (length found.new.items ≡ length found.old.items
        + length (kept_in (is_redacted chain.now.readings i) own.now)) }
{
    if let Parsed::Value(claim) = claim_read(own) {
        push_kept(found, chain, i, own, created(claim))?;
        push_kept(found, chain, i, own, gathered(claim))?;
    }
    Ok(())
}

/// Adds the entries of manifest `i` that list a label that isn't redacted, where the manifest is reached.
fn push_reached<'c>(
    found: &mut Vec<&'c Ref>,
    chain: &'c Chain<'_>,
    i: usize,
) -> Result<(), NoMemory>
    requires { i < length chain.now.readings }
    ensures { OnOk result (length found.new.items ≡ length found.old.items
        + length (form.kept_labels chain.now.readings i)) }
{
    if reached(chain, i) {
        push_unredacted(found, chain, i, &manifests(readings(chain))[i])?;
    }
    Ok(())
}

/// How many entries of reached manifests list a label that isn't redacted.
///
/// They are listed and then counted: a list that is in memory has a length that fits into 64 bits.
fn assertion_count(alloc: Global, chain: &Chain<'_>) -> Result<u64, NoMemory>
    ensures { IfOk result (λ n. n ≡ label_count chain.now.readings) }
{
    let mut found = Vec::new(alloc);
    for i in 0..manifest_count(chain) {
        push_reached(&mut found, chain, i)?;
    }
    Ok(found.len() as u64)
}

/// What is counted of a valid store in this range of its file, whose binding covers this.
pub fn summary(
    alloc: Global,
    chain: &Chain<'_>,
    cover: &Cover,
    range: Range,
) -> Result<Summary, NoMemory>
    ensures { IfOk result
        (λ s. s ≡ summary_by chain.now.readings cover.now range.start range.length) }
{
    let assertions = assertion_count(alloc, chain)?;
    Ok(Summary {
        manifests: reached_count(chain),
        assertions,
        covered: covered_count(cover),
        outside: outside_count(cover, range.start, range.length),
    })
}
