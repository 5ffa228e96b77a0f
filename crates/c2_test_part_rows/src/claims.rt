// Claims, field by field.
use crate::line::Line;
use crate::settings::Settings;
use c2_claim::{Claim, ClaimVersion, claim_version, read};
use c2_spec::Ref;
use c2_test_tables::Trouble;
use std::alloc::Global;

/// A reference: its URI, its digest and its algorithm.
pub fn show_ref(out: &mut Line, found: &Ref) {
    out.text(found.url.as_str());
    out.text(" ");
    out.hex(found.hash.as_slice());
    out.text(" ");
    out.name(&found.alg);
}

fn show_refs(out: &mut Line, refs: &[Ref]) {
    out.text(" [");
    let mut gap = "";
    for found in refs {
        out.text(gap);
        gap = ",";
        show_ref(out, found);
    }
    out.text("]");
}

fn show_redactions(out: &mut Line, claim: &Claim) {
    out.text(" [");
    let mut gap = "";
    for text in claim.redacted.as_slice() {
        out.text(gap);
        gap = " ";
        out.text(text.as_str());
    }
    out.text("]");
}

fn show_claim(out: &mut Line, claim: &Claim) {
    out.name(&claim.instance);
    out.text(" ");
    out.text(claim.signature.as_str());
    out.text(" ");
    out.name(&claim.alg);
    show_refs(out, claim.created.as_slice());
    show_refs(out, claim.gathered.as_slice());
    show_redactions(out, claim);
}

// A claim of this version that is read, or the refusal.
fn show_read(alloc: Global, out: &mut Line, version: ClaimVersion, bytes: &[u8]) {
    match read(alloc, version, bytes) {
        Ok(claim) => {
            out.debug(&claim.version);
            out.text(" ");
            show_claim(out, &claim);
        }
        Err(error) => out.debug(&error),
    }
}

/// Version, instance, signature, algorithm, created and gathered references, and redactions of a claim whose box has the label that is
/// set; or the refusal.
pub fn shown(alloc: Global, settings: &Settings, bytes: &[u8]) -> Result<String, Trouble> {
    let mut out = Line::new(alloc);
    match claim_version(settings.text("label")) {
        Some(version) => show_read(alloc, &mut out, version, bytes),
        None => out.text("no version"),
    }
    out.whole()
}
