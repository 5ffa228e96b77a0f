// What two accepted files come to.
ghost use Rattle.std.specs.Prelude.{◌≡◌, ◌++◌, ℕ, List, false, true, IfErr, IfOk, option_map};
ghost use Rattle.std.specs.Option.{ForSome};
ghost use Rattle.c2_base.specs.Sink.{WritesSink};
ghost use Rattle.c2_base.specs.Source.{ReadsSource};
ghost use Rattle.c2_base.specs.declared.values.Question.{Question as AnyQuestion};
ghost use Rattle.c2_compare_spec.specs.Accepted.{AreSame};
ghost use Rattle.c2_compare_spec.specs.ChainContent as content;
ghost use Rattle.c2_compare_spec.specs.Differences as form;
ghost use Rattle.c2_spec.specs.declared.digest.Alg.{Alg as AnyAlg};
ghost use Rattle.c2_spec.specs.declared.panel.Verdict.{Verdict as AnyVerdict};
ghost use Rattle.c2_compare_evidence.specs.Causes.{IsOfReading, IsReadCauseBeside, IsUnjudged};
ghost use Rattle.c2_compare_evidence.specs.Causes.{IsReportCause};
ghost use Rattle.c2_compare_evidence.specs.Differing.{IsFirstOf, binder_view};
ghost use Rattle.c2_compare_opened.specs.Settled.{IsSettled, shown_kind};
ghost use Rattle.c2_compare_opened.specs.Sides.{IsSided};

use crate::sides::Sided;
use c2_base::{Failed, NoMemory, Sink, Source};
use c2_compare_difference::{active, chain_difference};
use c2_compare_evidence::{
    Binder, CompareError, CoveredTexts, same_covered, write_covered, write_evidence,
};
use c2_compare_sameness::has_same_content;
use c2_compare_spec::EvidenceKind;
use c2_read_manifests::{ReadManifests, claim_bytes};
use std::alloc::Global;

/// What two accepted files come to.
#[derive(Clone, Copy, Debug)]
pub enum Settled {
    /// The active claims of the files differ.
    DifferentClaims,

    /// Evidence of this kind was written.
    Evidence(EvidenceKind),

    /// The active claims, the chain contents and the covered texts are equal.
    Same,
}

/// The bytes of the active claim of a store.
fn active_claim<'a>(all: &'a ReadManifests<'_>) -> Option<&'a [u8]>
    ensures { option_map (λ b. b.now) result ≡ content.active_claim all.now }
{
    match active(all) {
        Some(own) => claim_bytes(own),
        None => None,
    }
}

/// The kind of evidence, by what binds the lists.
fn kind_of(bound_by: Binder<'_>) -> EvidenceKind
    ensures { result ≡ shown_kind (binder_view bound_by.entry) }
{
    match bound_by {
        Binder::Digest(_) => EvidenceKind::Digest,
        Binder::Signature(_) => EvidenceKind::Signature,
    }
}

/// Whether the chain contents and the covered texts of two accepted files are equal.
fn are_same<A: Source, B: Source>(
    alloc: Global,
    first: &mut A,
    one: &Sided<'_, '_>,
    second: &mut B,
    two: &Sided<'_, '_>,
) -> Result<bool, CompareError>
    requires size { A.len first.old ≡ one.now.text.now.cover.size }
    requires other_size { B.len second.old ≡ two.now.text.now.cover.size }
    ensures same { ForSome (A.known first.old) (λ a. ForSome (B.known second.old) (λ b.
        (hash : AnyAlg → List ℕ → List ℕ) (said : AnyQuestion → AnyVerdict)
        (h : IsSided hash said a one.now) (k : IsSided hash said b two.now)
        → IfOk result (λ same. (same ≡ true → AreSame h.store k.store)
        × (same ≡ false → AreSame h.store k.store → ⊥)))) }
    ensures errors { IfErr result IsOfReading }
    ensures first { ReadsSource A.len A.known A.faults
        (IsReadCauseBeside (B.faults second.old) (B.faults second.new)) first.old first.new result }
    ensures second { ReadsSource B.len B.known B.faults
        (IsReadCauseBeside (A.faults first.old) (A.faults first.new)) second.old second.new result }
{
    let content = match has_same_content(alloc, one.readings, two.readings) {
        Ok(content) => content,
        Err(NoMemory) => return Err(CompareError::NoMemory),
    };
    if !content {
        return Ok(false);
    }
    same_covered(alloc, first, &one.text.cover, second, &two.text.cover)
}

/// What two files with one active claim come to, where no list of their chain contents differs.
fn settle_covered<A: Source, B: Source, W: Sink>(
    alloc: Global,
    first: &mut A,
    one: &Sided<'_, '_>,
    second: &mut B,
    two: &Sided<'_, '_>,
    report: &mut W,
) -> Result<Settled, CompareError>
    requires size { A.len first.old ≡ one.now.text.now.cover.size }
    requires other_size { B.len second.old ≡ two.now.text.now.cover.size }
    requires none { let pairs = form.all_ingredients one.now.readings.now two.now.readings.now
        ++ form.all_unredacted one.now.readings.now two.now.readings.now in
        IsFirstOf pairs None }
    requires claims { content.active_claim one.now.readings.now
        ≡ content.active_claim two.now.readings.now }
    ensures settled { ForSome (A.known first.old) (λ a. ForSome (B.known second.old) (λ b.
        (hash : AnyAlg → List ℕ → List ℕ) (said : AnyQuestion → AnyVerdict)
        (h : IsSided hash said a one.now) (k : IsSided hash said b two.now)
        → IsSettled h.store k.store (W.written report.old) (W.written report.new) result)) }
    ensures errors { IfErr result IsUnjudged }
    ensures first { ReadsSource A.len A.known A.faults
        (IsReadCauseBeside (B.faults second.old) (B.faults second.new)) first.old first.new result }
    ensures second { ReadsSource B.len B.known B.faults
        (IsReadCauseBeside (A.faults first.old) (A.faults first.new)) second.old second.new result }
    ensures report { WritesSink W.written W.finished W.faults IsReportCause report.old report.new
        result }
{
    // Matched and not handed up by `?`, here and below: each way out has clauses of its own.
    let same = match same_covered(alloc, first, &one.text.cover, second, &two.text.cover) {
        Ok(same) => same,
        Err(error) => return Err(error),
    };
    if same {
        return Ok(Settled::Same);
    }
    let texts = CoveredTexts {
        alg: one.text.alg.as_str(),
        left: &one.text.cover,
        right: &two.text.cover,
    };
    match write_covered(alloc, first, second, &texts, report) {
        Ok(()) => Ok(Settled::Evidence(EvidenceKind::Digest)),
        Err(error) => Err(error),
    }
}

/// What two accepted files come to: their active claims are compared, then the lists of their chain contents, and then their
/// covered texts. Evidence is written; nothing else is.
pub fn settle<A: Source, B: Source, W: Sink>(
    alloc: Global,
    first: &mut A,
    one: &Sided<'_, '_>,
    second: &mut B,
    two: &Sided<'_, '_>,
    report: &mut W,
) -> Result<Settled, CompareError>
    requires size { A.len first.old ≡ one.now.text.now.cover.size }
    requires other_size { B.len second.old ≡ two.now.text.now.cover.size }
    ensures settled { ForSome (A.known first.old) (λ a. ForSome (B.known second.old) (λ b.
        (hash : AnyAlg → List ℕ → List ℕ) (said : AnyQuestion → AnyVerdict)
        (h : IsSided hash said a one.now) (k : IsSided hash said b two.now)
        → IsSettled h.store k.store (W.written report.old) (W.written report.new) result)) }
    ensures errors { IfErr result IsUnjudged }
    ensures first { ReadsSource A.len A.known A.faults
        (IsReadCauseBeside (B.faults second.old) (B.faults second.new)) first.old first.new result }
    ensures second { ReadsSource B.len B.known B.faults
        (IsReadCauseBeside (A.faults first.old) (A.faults first.new)) second.old second.new result }
    ensures report { WritesSink W.written W.finished W.faults IsReportCause report.old report.new
        result }
{
    let equal = equal_claims(one.readings, two.readings);
    if !equal {
        return Ok(Settled::DifferentClaims);
    }
    let first_found = match chain_difference(alloc, one.readings, two.readings) {
        Ok(first_found) => first_found,
        Err(NoMemory) => return Err(CompareError::NoMemory),
    };
    let found = match first_found {
        Some(found) => found,
        None => return settle_covered(alloc, first, one, second, two, report),
    };
    // Pairs that lead to ingredients may differ where chain contents and covered texts are equal: that is no evidence.
    let same = match are_same(alloc, first, one, second, two) {
        Ok(same) => same,
        Err(error) => return Err(error),
    };
    if same {
        return Ok(Settled::Same);
    }
    match write_evidence(report, &found) {
        Ok(()) => Ok(Settled::Evidence(kind_of(found.bound_by))),
        Err(Failed) => Err(CompareError::WriteFault),
    }
}

/// Whether the active claims of two stores are equal, or neither is there.
fn equal_claims(one: &ReadManifests<'_>, two: &ReadManifests<'_>) -> bool
    ensures yes { result ≡ true → content.active_claim one.now ≡ content.active_claim two.now }
    ensures no { result ≡ false → content.active_claim one.now ≡ content.active_claim two.now → ⊥ }
{
    match active_claim(one) {
        Some(left) => match active_claim(two) {
            Some(right) => left == right,
            None => false,
        },
        None => active_claim(two).is_none(),
    }
}
