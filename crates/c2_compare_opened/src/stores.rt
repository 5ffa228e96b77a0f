// What two accepted files come to, by their stores.
ghost use Rattle.std.specs.Prelude.{◌≡◌, List, ℕ, IfErr};
ghost use Rattle.std.specs.Option.{ForSome};
ghost use Rattle.c2_base.specs.Sink.{WritesSink};
ghost use Rattle.c2_base.specs.Source.{ReadsSource};
ghost use Rattle.c2_base.specs.declared.values.Question.{Question as AnyQuestion};
ghost use Rattle.c2_spec.specs.declared.digest.Alg.{Alg as AnyAlg};
ghost use Rattle.c2_spec.specs.declared.panel.Verdict.{Verdict as AnyVerdict};
ghost use Rattle.c2_compare_evidence.specs.Causes.{IsReadCauseBeside, IsUnjudged, IsReportCause};
ghost use Rattle.c2_compare_opened.specs.Comparing.{IsComparedAs};
ghost use Rattle.c2_compare_opened.specs.Settled.{compared_of};
ghost use Rattle.c2_compare_opened.specs.Sides.{IsSided};

use crate::settling::{Settled, settle};
use crate::sides::Sided;
use c2_base::{Sink, Source};
use c2_compare_evidence::CompareError;
use c2_compare_spec::Compared;
use c2_rules::Summary;
use std::alloc::Global;

/// What two accepted files come to, by what was read of their manifests and by what their bindings cover. Evidence is written to the
/// report, and nothing else is.
///
/// `ReadFault` comes only where one of the two sources failed in this call, `WriteFault` only where the report did. After an error a prefix
/// of the text is written. `JudgeFault` never comes.
pub fn compare_stores<A: Source, B: Source, W: Sink>(
    alloc: Global,
    first: &mut A,
    one: &Sided<'_, '_>,
    second: &mut B,
    two: &Sided<'_, '_>,
    report: &mut W,
) -> Result<Compared, CompareError>
    requires size { A.len first.old ≡ one.now.text.now.cover.size }
    requires other_size { B.len second.old ≡ two.now.text.now.cover.size }
    // Where the bytes are known.
    ensures compared { ForSome (A.known first.old) (λ a. ForSome (B.known second.old) (λ b.
        (hash : AnyAlg → List ℕ → List ℕ) (said : AnyQuestion → AnyVerdict)
        → IsSided hash said a one.now → IsSided hash said b two.now
        → IsComparedAs hash said a b (W.written report.old) (W.written report.new) result)) }

    // These hold of every source and every report.
    ensures errors { IfErr result IsUnjudged }
    ensures first { ReadsSource A.len A.known A.faults
        (IsReadCauseBeside (B.faults second.old) (B.faults second.new)) first.old first.new result }
    ensures second { ReadsSource B.len B.known B.faults
        (IsReadCauseBeside (A.faults first.old) (A.faults first.new)) second.old second.new result }
    ensures report { WritesSink W.written W.finished W.faults IsReportCause report.old report.new
        result }
{
    match settle(alloc, first, one, second, two, report) {
        Ok(settled) => Ok(compared(settled, one.summary)),
        Err(error) => Err(error),
    }
}

// What two accepted files come to, where the first has this summary.
fn compared(settled: Settled, summary: Summary) -> Compared
    ensures { result ≡ compared_of settled summary }
{
    match settled {
        Settled::DifferentClaims => Compared::DifferentClaims,
        Settled::Evidence(kind) => Compared::Evidence(kind),
        Settled::Same => Compared::Same(summary),
    }
}
