// A panel of judges.
ghost use Rattle.std.specs.Prelude.{◌≡◌, ◌<◌, IfOk, OnOk, OnErr, vec_len};
ghost use Rattle.c2_spec.specs.Judges.Panel.{AsksPanel, Counted, Failing, LeavesPanel};
ghost use Rattle.c2_judge.specs.Judges.{AsksPanelAt};

use crate::{Judge, JudgeFailed, Verdict};
use c2_base::Question;

// Asks one judge.
fn ask_one(judge: &mut Box<dyn Judge>, q: &Question) -> Result<Verdict, JudgeFailed>
    ensures answer { IfOk result (λ verdict. verdict ≡ says judge.old q.now) }
    ensures same { says judge.new ≡ says judge.old }
    ensures counted { Counted (asked_times judge.old) (asked_times judge.new) }
    ensures ok { OnOk result (judge_faults judge.new ≡ judge_faults judge.old) }
    ensures cause { OnErr result (Failing (judge_faults judge.old) (judge_faults judge.new)) }
{
    judge.ask(q)
}

// Asks the judge at place `i`.
fn ask_at(judges: &mut Vec<Box<dyn Judge>>, i: usize, q: &Question) -> Result<Verdict, JudgeFailed>
    requires { i < vec_len judges.old }
    ensures len { vec_len judges.new ≡ vec_len judges.old }
    ensures asks { AsksPanelAt says asked_times judge_faults i q.now judges.old.items
        judges.new.items result }
{
    ask_one(&mut judges[i], q)
}

/// What the panel says: the first verdict that isn't `Silent`, and `Silent` where there is none.
///
/// The judges are asked in order, once each, up to the first that says another verdict or fails. `JudgeFailed` comes only
/// where the judge that failed was due: all before it say `Silent`. Takes no memory.
// The condition always holds. A public function without one that changes boxed judges can't be called from another crate
// under a contract.
pub fn ask_panel(judges: &mut Vec<Box<dyn Judge>>, q: &Question) -> Result<Verdict, JudgeFailed>
    requires { Unit {0} }
    ensures len { vec_len judges.new ≡ vec_len judges.old }
    ensures asks { AsksPanel says asked_times judge_faults q.now judges.old.items
        judges.new.items result }
    ensures leaves { LeavesPanel says asked_times judge_faults judges.old.items
        judges.new.items result }
{
    for i in 0..judges.len() {
        match ask_at(judges, i, q)? {
            Verdict::Silent => {}
            verdict => return Ok(verdict),
        }
    }
    Ok(Verdict::Silent)
}
