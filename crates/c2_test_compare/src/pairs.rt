// Worked pairs of files.
use crate::rows::ROWS;
use c2_base::{Blob, MemSink, MemSource};
use c2_compare::{CompareError, Compared, EvidenceKind, Side, compare};
use c2_hash::{Sha, WeakSum};
use c2_judge::{FixedJudge, Judge, Verdict};
use std::alloc::Global;
use std::process::Abort;
use std::test::Fail;

/// A pair of files, the word of the hash, and what stands behind them in the row.
#[derive(Drop)]
pub struct Pair {
    pub hash: &'static str,
    pub first: Vec<u8>,
    pub second: Vec<u8>,
    pub known: &'static str,
}

/// The pair of a row: the hash, both files in hex and the rest, a bar between them.
pub fn pair_of(alloc: Global, row: &'static str) -> Result<Pair, Fail> {
    let (hash, rest) = row.split_once("|").unwrap_or(("", ""));
    let (first, rest) = rest.split_once("|").unwrap_or(("", ""));
    let (second, known) = rest.split_once("|").unwrap_or(("", ""));
    Ok(Pair {
        hash,
        first: hex::decode(alloc, first)?,
        second: hex::decode(alloc, second)?,
        known,
    })
}

/// The row behind the line that says this.
pub fn row_of(what: &str) -> &'static str {
    let mut found = false;
    for row in ROWS.lines() {
        if found {
            return row;
        }
        found = row == what;
    }
    ""
}

/// The lines of evidence of a row.
pub fn evidence_of(alloc: Global, known: &str) -> Result<String, Fail> {
    let mut text = String::new(alloc);
    if known.starts_with("evidence ") {
        for line in known.split('|') {
            text.push_str(line)?;
            text.push('\n')?;
        }
    }
    Ok(text)
}

/// Judges of whom the one approves all.
pub fn approving(alloc: Global, fail_at: u64) -> Result<Vec<Box<dyn Judge>>, Fail> {
    let mut judges: Vec<Box<dyn Judge>> = Vec::new(alloc);
    judges.push(Box::new(alloc, FixedJudge::new(Verdict::Approved, fail_at))?)?;
    Ok(judges)
}

/// Compares two files under the hash of this word.
pub fn compared(
    alloc: Global,
    hash: &str,
    first: &mut MemSource,
    second: &mut MemSource,
    judges: &mut Vec<Box<dyn Judge>>,
    report: &mut MemSink,
) -> Result<Compared, CompareError> {
    if hash == "weak" {
        return compare(alloc, &WeakSum, first, second, judges, report);
    }
    compare(alloc, &Sha, first, second, judges, report)
}

// The word of what is answered, where no evidence is.
fn word_of(what: &Compared) -> &'static str {
    match what {
        Compared::NotAccepted(Side::First, _) => "first",
        Compared::NotAccepted(Side::Second, _) => "second",
        Compared::DifferentClaims => "different",
        Compared::Evidence(EvidenceKind::Digest) => "evidence digest",
        Compared::Evidence(EvidenceKind::Signature) => "evidence signature",
        Compared::Same(_) => "same",
    }
}

// Compares the files of a pair, read in pieces of these lengths.
fn comes_to(
    rt: &impl Abort,
    alloc: Global,
    pair: &Pair,
    most: usize,
    other_most: usize,
) -> Result<(), Fail> {
    let mut first = MemSource::new(Blob::copied(alloc, pair.first.as_slice())?, most.max(1), 0);
    let second = Blob::copied(alloc, pair.second.as_slice())?;
    let mut second = MemSource::new(second, other_most.max(1), 0);
    let mut report = MemSink::with_room(alloc, 10_000, 0)?;
    let mut judges = approving(alloc, 0)?;
    let what = compared(
        alloc,
        pair.hash,
        &mut first,
        &mut second,
        &mut judges,
        &mut report,
    );
    let text = evidence_of(alloc, pair.known)?;
    assert_eq!(rt; report.bytes(), text.as_bytes());
    assert!(rt; !report.finished());
    match what {
        Ok(what) => assert!(rt; pair.known.starts_with(word_of(&what)), "{}", pair.known),
        Err(_) => assert!(rt; false, "{}", pair.known),
    }
    Ok(())
}

#[test]
fn pairs_come_to_what_they_are(rt: HostRuntime) -> Result<(), Fail> {
    let alloc = rt.alloc();
    let mut seen: usize = 0;
    for row in ROWS.lines() {
        if !row.starts_with("#") {
            let pair = pair_of(alloc, row)?;
            comes_to(&rt, alloc, &pair, 1, 65_536)?;
            comes_to(&rt, alloc, &pair, 65_536, 7)?;
            seen = seen.saturating_add(1);
        }
    }
    assert_eq!(rt; seen, 10);
    Ok(())
}
