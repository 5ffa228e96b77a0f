// What a judge of signatures is.
ghost use Rattle.std.specs.Prelude.{◌≡◌, ℕ, IfOk};
ghost use Rattle.c2_base.specs.Causes.{HasCause};
ghost use Rattle.c2_base.specs.declared.values.Question.{Question};
ghost use Rattle.c2_spec.specs.declared.panel.Verdict.{Verdict};
ghost use Rattle.c2_spec.specs.Judges.Panel.{Counted};

use crate::Verdict;
use c2_base::Question;

/// A judge failed to answer. Its count of faults rose then, or stands at its counter's last value.
#[derive(Clone, Copy, Debug, PartialEq, Eq)]
pub struct JudgeFailed;

/// Says of each question one verdict, which never changes, and may fail to. Counts what it is asked and how often it failed.
pub trait Judge: Drop {
    // what the judge says of each question
    ghost says: { Self → Question → Verdict };

    // how often it was asked
    ghost asked_times: { Self → ℕ };

    // how often it has failed
    ghost judge_faults: { Self → ℕ };

    /// The verdict on this question.
    fn ask(&mut self, q: &Question) -> Result<Verdict, JudgeFailed>
        ensures answer { IfOk result (λ verdict. verdict ≡ says self.old q.now) }
        ensures same { says self.new ≡ says self.old }
        ensures counted { Counted (asked_times self.old) (asked_times self.new) }
        ensures cause { HasCause (judge_faults self.old) (judge_faults self.new) result };

    /// How often the judge was asked. The count stands still at its last value.
    fn asked(&self) -> u64
        ensures { result ≡ asked_times self.now };
}
