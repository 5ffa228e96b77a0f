// Judges of tests.
use c2_judge::{FixedJudge, Judge, Verdict};
use std::alloc::Global;
use std::test::Fail;

/// Judges of whom the one approves all.
pub fn approving(alloc: Global) -> Result<Vec<Box<dyn Judge>>, Fail> {
    let mut judges: Vec<Box<dyn Judge>> = Vec::new(alloc);
    judges.push(Box::new(alloc, FixedJudge::new(Verdict::Approved, 0))?)?;
    Ok(judges)
}
