// Judges by name.
use crate::bytes::bytes_of;
use c2_judge::{BrokenJudge, FixedJudge, ListJudge, Verdict};
use c2_test_tables::Trouble;
use std::alloc::Global;

/// A judge.
#[derive(Drop)]
pub enum Named {
    /// One that says one verdict.
    Fixed(FixedJudge),

    /// One that fails at each ask.
    Broken(BrokenJudge),

    /// One by a verdict file.
    Listed(ListJudge),
}

/// The judge of this name: `broken`, `list:` and a verdict file in hex, or a verdict, which may have `@` and the number of the ask
/// that fails behind it. Where it has none, this ask fails, or none where the number is 0.
pub fn judge_of(alloc: Global, name: &str, fail_at: u64) -> Result<Named, Trouble> {
    if name == "broken" {
        return Ok(Named::Broken(BrokenJudge::new()));
    }
    match name.strip_prefix("list:") {
        Some(digits) => listed(alloc, digits),
        None => fixed(name, fail_at),
    }
}

// The judge by the verdict file that is this hex.
fn listed(alloc: Global, digits: &str) -> Result<Named, Trouble> {
    let file = bytes_of(alloc, digits)?;
    match ListJudge::read(alloc, file.as_slice()) {
        Ok(judge) => Ok(Named::Listed(judge)),
        Err(_) => Err(Trouble::BadLine),
    }
}

// The judge that says the verdict of this name.
fn fixed(name: &str, fail_at: u64) -> Result<Named, Trouble> {
    let (word, fail_at) = match name.split_once('@') {
        Some((word, call)) => (word, call.parse::<u64>()?),
        None => (name, fail_at),
    };
    let verdict = verdict_of(word)?;
    Ok(Named::Fixed(FixedJudge::new(verdict, fail_at)))
}

// The verdict of this name.
fn verdict_of(word: &str) -> Result<Verdict, Trouble> {
    match word {
        "approved" => Ok(Verdict::Approved),
        "mismatch" => Ok(Verdict::Mismatch),
        "untrusted" => Ok(Verdict::Untrusted),
        "invalid" => Ok(Verdict::Invalid),
        "silent" => Ok(Verdict::Silent),
        _ => Err(Trouble::BadLine),
    }
}
