// Judges for tests.
ghost use Rattle.std.specs.Prelude.{◌≡◌, IsErr};
ghost use Rattle.c2_spec.specs.Judges.Panel.{Counted};
ghost use Rattle.c2_judge.specs.Judges.{judge_state, fresh_judge, IsAsked, broken_asked};

use crate::{Judge, JudgeFailed, Verdict};
use c2_base::Question;

/// A judge for tests, which says one verdict of all questions, and fails at its ask number `fail_at`.
///
/// A count of asks that has reached its last value stands still, so where `fail_at` is that value, each ask from there on
/// fails.
#[derive(Debug, Drop)]
pub struct FixedJudge {
    verdict: Verdict,
    fail_at: u64,
    asked: u64,
    faults: u64,
}

impl FixedJudge {
    /// A judge that says this verdict. Its asks are counted from 1; where `fail_at` is 0, none fails.
    pub fn new(verdict: Verdict, fail_at: u64) -> FixedJudge
        ensures { judge_state result ≡ fresh_judge verdict fail_at }
    {
        FixedJudge {
            verdict,
            fail_at,
            asked: 0,
            faults: 0,
        }
    }
}

impl Judge for FixedJudge {
    ghost says = { λ j _. j.verdict };

    ghost asked_times = { λ j. j.asked };

    ghost judge_faults = { λ j. j.faults };

    fn ask(&mut self, _q: &Question) -> Result<Verdict, JudgeFailed>
        ensures { IsAsked (judge_state self.old) (judge_state self.new) result }
    {
        self.asked = self.asked.saturating_add(1);
        if self.asked == self.fail_at {
            self.faults = self.faults.saturating_add(1);
            return Err(JudgeFailed);
        }
        Ok(self.verdict)
    }

    fn asked(&self) -> u64 {
        self.asked
    }
}

/// A judge that fails at each ask, and says `Silent` of each question: one whose verdict file can't be read.
#[derive(Debug, Drop)]
pub struct BrokenJudge {
    asked: u64,
}

impl BrokenJudge {
    /// A judge that was never asked.
    pub fn new() -> BrokenJudge
        ensures { broken_asked result ≡ 0 }
    {
        BrokenJudge { asked: 0 }
    }
}

impl Judge for BrokenJudge {
    ghost use Rattle.c2_spec.specs.declared.panel.Verdict.TheVariants.{Silent};

    ghost says = { λ _ _. Silent };

    ghost asked_times = { λ j. j.asked };

    ghost judge_faults = { λ j. j.asked };

    fn ask(&mut self, _q: &Question) -> Result<Verdict, JudgeFailed>
        ensures fails { IsErr result }
        ensures counted { Counted (broken_asked self.old) (broken_asked self.new) }
    {
        self.asked = self.asked.saturating_add(1);
        Err(JudgeFailed)
    }

    fn asked(&self) -> u64 {
        self.asked
    }
}
