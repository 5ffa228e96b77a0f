// The comparison of two media files.
ghost use Rattle.std.specs.Prelude.{◌≡◌, ℕ, List, map, IfErr};
ghost use Rattle.std.specs.Option.{ForSome};
ghost use Rattle.c2_base.specs.Sink.{WritesSink};
ghost use Rattle.c2_base.specs.Source.{IsKnownWhereDue, ReadsSource};
ghost use Rattle.c2_spec.specs.Judges.Panel.{panel_says};
ghost use Rattle.c2_rules.specs.Asking.{HearsPanel};
ghost use Rattle.c2_container.specs.Contained.{HasRootsInside};
ghost use Rattle.c2_opening.specs.Opened.{IsFound};
ghost use Rattle.c2_opening.specs.declared.types.Opened.TheVariants as opened;
ghost use Rattle.c2_validate.specs.Checked.{IsOpenedFrom};
ghost use Rattle.c2_compare_evidence.specs.Causes.{IsReadCauseBeside, IsReportCause};
ghost use Rattle.c2_compare_opened.specs.Comparing.{IsComparedAs};
ghost use Rattle.c2_compare_opened.specs.Sides.{IsSided};
ghost use Rattle.c2_compare.specs.Accepting.{AsksChecked, LeavesFiles};
ghost use Rattle.c2_compare.specs.Comparing.{AsksCompared, IsCompared, IsNotAccepted};
ghost use Rattle.c2_compare.specs.Comparing.{compare_heard};

use crate::accepting::{accept, find, read};
use c2_base::{NoMemory, Range, Sink, Source};
use c2_chain::{Chain, of_store, readings};
use c2_compare_evidence::CompareError;
use c2_compare_opened::{Sided, compare_stores};
use c2_compare_spec::{Compared, Side};
use c2_hash::Hashing;
use c2_judge::Judge;
use c2_opening::types::Media;
use c2_validate::OpenedStore;
use std::alloc::Global;

/// What files are checked with.
#[derive(Drop)]
struct Checker<'h, H> {
    alloc: Global,
    hashing: &'h H,
}

/// What a file is compared with: an accepted one.
#[derive(Drop)]
struct Beside<'h, 's, 't, H> {
    alloc: Global,
    hashing: &'h H,
    side: Sided<'s, 't>,
}

/// The store of a media file, as it is checked against the file.
fn opened_in<'c, 't>(media: &'c Media, chain: &'c Chain<'t>) -> OpenedStore<'c, 't>
    ensures container { result.container.now ≡ media.now.container }
    ensures start { result.range.start ≡ media.now.found.start }
    ensures count { result.range.length ≡ media.now.found.length }
    ensures chain { result.chain.now ≡ chain.now }
{
    let range = Range {
        start: media.found.start,
        length: media.found.length,
    };
    OpenedStore {
        container: &media.container,
        range,
        chain,
    }
}

/// Compares two media files that judges are asked about: whether one active claim binds both, and all else that it vouches for.
///
/// Where the first file isn't accepted, the second is neither read nor asked about, and the answer is the same for all bytes that it
/// might have. Each file is opened once. Evidence is written to the report and nothing else is; the report isn't finished. `ReadFault`
/// comes only where one of the two sources failed in this call, `WriteFault` only where the report did: each leaves a prefix of the text
/// of what the files come to. `JudgeFault` comes only where a judge failed that was due, and leaves the report as it was, since evidence
/// is looked for behind the last question. Covered texts are read in pieces, side by side, and once more where they are printed.
// The condition always holds: a function that changes boxed judges is called under a contract only where it has one.
pub fn compare<A: Source, B: Source, H: Hashing, W: Sink>(
    alloc: Global,
    hashing: &H,
    first: &mut A,
    second: &mut B,
    judges: &mut Vec<Box<dyn Judge>>,
    report: &mut W,
) -> Result<Compared, CompareError>
    requires { Unit {0} }
    // Where the bytes are known that are due: this is what the two files come to, and its text is written. A file isn't due beside a first
    // one that isn't accepted, and is then left as it was.
    ensures compared { let said = panel_says (map says judges.old.items) in
        ForSome (A.known first.old) (λ a. (b : List ℕ)
        → IsKnownWhereDue (B.known second.old) (IsNotAccepted H.digest_of said a) b
        → IsCompared H.digest_of said a b (W.written report.old) (W.written report.new) result) }
    ensures not_due { let said = panel_says (map says judges.old.items) in
        ForSome (A.known first.old)
        (λ a. IsNotAccepted H.digest_of said a → second.new ≡ second.old) }

    // These hold of every source and every report; just the questions of the comparison are asked where the bytes are known.
    ensures first { ReadsSource A.len A.known A.faults
        (IsReadCauseBeside (B.faults second.old) (B.faults second.new)) first.old first.new result }
    ensures second { ReadsSource B.len B.known B.faults
        (IsReadCauseBeside (A.faults first.old) (A.faults first.new)) second.old second.new result }
    ensures report { WritesSink W.written W.finished W.faults IsReportCause report.old report.new
        result }
    ensures panel { HearsPanel says asked_times judge_faults compare_heard
        (AsksCompared H.digest_of (A.known first.old) (B.known second.old))
        judges.old judges.new result }
    ensures judged { IfErr result (λ e. e ≡ CompareError.JudgeFault → report.new ≡ report.old) }
{
    let checker = Checker { alloc, hashing };
    checker.find_first(first, second, judges, report)
}

impl<'h, H: Hashing> Checker<'h, H> {
    /// What two files come to.
    // The condition always holds, as that of `compare`.
    fn find_first<A: Source, B: Source, W: Sink>(
        &self,
        first: &mut A,
        second: &mut B,
        judges: &mut Vec<Box<dyn Judge>>,
        report: &mut W,
    ) -> Result<Compared, CompareError>
        requires { Unit {0} }
        ensures compared { let said = panel_says (map says judges.old.items) in
            ForSome (A.known first.old) (λ a. (b : List ℕ)
            → IsKnownWhereDue (B.known second.old) (IsNotAccepted H.digest_of said a) b
            → IsComparedAs H.digest_of said a b (W.written report.old) (W.written report.new)
            result) }
        ensures not_due { let said = panel_says (map says judges.old.items) in
            ForSome (A.known first.old)
            (λ a. IsNotAccepted H.digest_of said a → second.new ≡ second.old) }
        ensures leaves { LeavesFiles A.len A.known A.faults B.len B.known B.faults
            W.written W.finished W.faults first.old first.new second.old second.new
            report.old report.new result }
        ensures panel { HearsPanel says asked_times judge_faults compare_heard
            (AsksCompared H.digest_of (A.known first.old) (B.known second.old))
            judges.old judges.new result }
    {
        match find(self.alloc, first) {
            Ok(one) => self.read_first(first, &one, second, judges, report),
            Err(unaccepted) => unaccepted.end(Side::First),
        }
    }

    /// What two files come to, where the first has this container and this store.
    fn read_first<A: Source, B: Source, W: Sink>(
        &self,
        first: &mut A,
        one: &Media,
        second: &mut B,
        judges: &mut Vec<Box<dyn Judge>>,
        report: &mut W,
    ) -> Result<Compared, CompareError>
        requires inside { HasRootsInside (A.len first.old) one.now.container }
        requires found { ForSome (A.known first.old) (λ a. IsFound a (opened.Here one.now)) }
        ensures compared { let said = panel_says (map says judges.old.items) in
            ForSome (A.known first.old) (λ a. (b : List ℕ)
            → IsKnownWhereDue (B.known second.old) (IsNotAccepted H.digest_of said a) b
            → IsComparedAs H.digest_of said a b (W.written report.old) (W.written report.new)
            result) }
        ensures not_due { let said = panel_says (map says judges.old.items) in
            ForSome (A.known first.old)
            (λ a. IsNotAccepted H.digest_of said a → second.new ≡ second.old) }
        ensures leaves { LeavesFiles A.len A.known A.faults B.len B.known B.faults
            W.written W.finished W.faults first.old first.new second.old second.new
            report.old report.new result }
        ensures panel { HearsPanel says asked_times judge_faults compare_heard
            (AsksCompared H.digest_of (A.known first.old) (B.known second.old))
            judges.old judges.new result }
    {
        let (tree, store) = match read(self.alloc, one) {
            Ok(read) => read,
            Err(unaccepted) => return unaccepted.end(Side::First),
        };
        let chain = match of_store(self.alloc, &tree, &store) {
            Ok(chain) => chain,
            Err(NoMemory) => return Err(CompareError::NoMemory),
        };
        self.check_first(first, &opened_in(one, &chain), second, judges, report)
    }

    /// What two files come to, where the first was opened so.
    fn check_first<A: Source, B: Source, W: Sink>(
        &self,
        first: &mut A,
        one: &OpenedStore<'_, '_>,
        second: &mut B,
        judges: &mut Vec<Box<dyn Judge>>,
        report: &mut W,
    ) -> Result<Compared, CompareError>
        requires inside { HasRootsInside (A.len first.old) one.now.container.now }
        requires opened { ForSome (A.known first.old) (λ a. IsOpenedFrom a one.now) }
        ensures compared { let said = panel_says (map says judges.old.items) in
            ForSome (A.known first.old) (λ a. (b : List ℕ)
            → IsKnownWhereDue (B.known second.old) (IsNotAccepted H.digest_of said a) b
            → IsComparedAs H.digest_of said a b (W.written report.old) (W.written report.new)
            result) }
        ensures not_due { let said = panel_says (map says judges.old.items) in
            ForSome (A.known first.old)
            (λ a. IsNotAccepted H.digest_of said a → second.new ≡ second.old) }
        ensures leaves { LeavesFiles A.len A.known A.faults B.len B.known B.faults
            W.written W.finished W.faults first.old first.new second.old second.new
            report.old report.new result }
        ensures panel { HearsPanel says asked_times judge_faults compare_heard
            (AsksCompared H.digest_of (A.known first.old) (B.known second.old))
            judges.old judges.new result }
    {
        let found = match accept(self.alloc, self.hashing, first, one, judges) {
            Ok(found) => found,
            Err(unaccepted) => return unaccepted.end(Side::First),
        };
        let beside = Beside {
            alloc: self.alloc,
            hashing: self.hashing,
            side: Sided {
                readings: readings(one.chain),
                text: &found.text,
                summary: found.summary,
            },
        };
        beside.find_second(first, second, judges, report)
    }
}

impl<'h, 's, 't, H: Hashing> Beside<'h, 's, 't, H> {
    /// What two files come to, where the first is accepted.
    fn find_second<A: Source, B: Source, W: Sink>(
        &self,
        first: &mut A,
        second: &mut B,
        judges: &mut Vec<Box<dyn Judge>>,
        report: &mut W,
    ) -> Result<Compared, CompareError>
        requires size { A.len first.old ≡ self.now.side.text.now.cover.size }
        requires side { let said = panel_says (map says judges.old.items) in
            ForSome (A.known first.old) (λ a. IsSided H.digest_of said a self.now.side) }
        ensures compared { let said = panel_says (map says judges.old.items) in
            ForSome (A.known first.old) (λ a. ForSome (B.known second.old) (λ b.
            IsComparedAs H.digest_of said a b (W.written report.old) (W.written report.new)
            result)) }
        ensures leaves { LeavesFiles A.len A.known A.faults B.len B.known B.faults
            W.written W.finished W.faults first.old first.new second.old second.new
            report.old report.new result }
        ensures panel { HearsPanel says asked_times judge_faults compare_heard
            (AsksChecked H.digest_of (B.known second.old)) judges.old judges.new result }
    {
        match find(self.alloc, second) {
            Ok(two) => self.read_second(first, second, &two, judges, report),
            Err(unaccepted) => unaccepted.end(Side::Second),
        }
    }

    /// What two files come to, where the second has this container and this store.
    fn read_second<A: Source, B: Source, W: Sink>(
        &self,
        first: &mut A,
        second: &mut B,
        two: &Media,
        judges: &mut Vec<Box<dyn Judge>>,
        report: &mut W,
    ) -> Result<Compared, CompareError>
        requires inside { HasRootsInside (B.len second.old) two.now.container }
        requires found { ForSome (B.known second.old) (λ b. IsFound b (opened.Here two.now)) }
        requires size { A.len first.old ≡ self.now.side.text.now.cover.size }
        requires side { let said = panel_says (map says judges.old.items) in
            ForSome (A.known first.old) (λ a. IsSided H.digest_of said a self.now.side) }
        ensures compared { let said = panel_says (map says judges.old.items) in
            ForSome (A.known first.old) (λ a. ForSome (B.known second.old) (λ b.
            IsComparedAs H.digest_of said a b (W.written report.old) (W.written report.new)
            result)) }
        ensures leaves { LeavesFiles A.len A.known A.faults B.len B.known B.faults
            W.written W.finished W.faults first.old first.new second.old second.new
            report.old report.new result }
        ensures panel { HearsPanel says asked_times judge_faults compare_heard
            (AsksChecked H.digest_of (B.known second.old)) judges.old judges.new result }
    {
        let (tree, store) = match read(self.alloc, two) {
            Ok(read) => read,
            Err(unaccepted) => return unaccepted.end(Side::Second),
        };
        let chain = match of_store(self.alloc, &tree, &store) {
            Ok(chain) => chain,
            Err(NoMemory) => return Err(CompareError::NoMemory),
        };
        self.check_second(first, second, &opened_in(two, &chain), judges, report)
    }

    /// What two files come to, where the second was opened so.
    fn check_second<A: Source, B: Source, W: Sink>(
        &self,
        first: &mut A,
        second: &mut B,
        two: &OpenedStore<'_, '_>,
        judges: &mut Vec<Box<dyn Judge>>,
        report: &mut W,
    ) -> Result<Compared, CompareError>
        requires inside { HasRootsInside (B.len second.old) two.now.container.now }
        requires opened { ForSome (B.known second.old) (λ b. IsOpenedFrom b two.now) }
        requires size { A.len first.old ≡ self.now.side.text.now.cover.size }
        requires side { let said = panel_says (map says judges.old.items) in
            ForSome (A.known first.old) (λ a. IsSided H.digest_of said a self.now.side) }
        ensures compared { let said = panel_says (map says judges.old.items) in
            ForSome (A.known first.old) (λ a. ForSome (B.known second.old) (λ b.
            IsComparedAs H.digest_of said a b (W.written report.old) (W.written report.new)
            result)) }
        ensures leaves { LeavesFiles A.len A.known A.faults B.len B.known B.faults
            W.written W.finished W.faults first.old first.new second.old second.new
            report.old report.new result }
        ensures panel { HearsPanel says asked_times judge_faults compare_heard
            (AsksChecked H.digest_of (B.known second.old)) judges.old judges.new result }
    {
        let found = match accept(self.alloc, self.hashing, second, two, judges) {
            Ok(found) => found,
            Err(unaccepted) => return unaccepted.end(Side::Second),
        };
        let side = Sided {
            readings: readings(two.chain),
            text: &found.text,
            summary: found.summary,
        };
        compare_stores(self.alloc, first, &self.side, second, &side, report)
    }
}
