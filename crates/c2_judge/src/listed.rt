// A judge by a verdict file.
ghost use Rattle.std.specs.Prelude.{◌≡◌, ℕ, ◌≤◌, ◌<◌, ◌⊎◌, List, length, Err, Ok, IfOk, IfErr};
ghost use Rattle.std.specs.Prelude.{IsErrAnd, MatchResult};
ghost use Rattle.c2_base.specs.declared.limits.TheConstants.{MAX_INPUT_LEN};
ghost use Rattle.c2_spec.specs.Judges.Panel.{Counted};
ghost use Rattle.c2_spec.specs.Judges.Question.{question_digest};
ghost use Rattle.c2_spec.specs.declared.panel.VerdictRow as row_type;
ghost use Rattle.c2_spec.specs.declared.panel.ListError.TheVariants as error;
ghost use Rattle.c2_spec.specs.Judges.VerdictFile.{HasRows, HasBadLine, SaysFile, SaysRows};
ghost use Rattle.c2_spec.specs.Judges.VerdictFile.{HasListReason};
ghost use Rattle.c2_judge.specs.Judges.{list_says, list_asked};
ghost use Rattle.c2_judge.specs.Reading.{said_at};

use crate::file::{Verdicts, read_rows};
use crate::question::question_id;
use crate::{Judge, JudgeFailed, ListError, Verdict};
use c2_base::Question;
use c2_base::limits::MAX_INPUT_LEN;
use std::alloc::Global;

/// A judge that says what a verdict file lists, and `Silent` of all other questions. It never fails.
#[derive(Drop)]
pub struct ListJudge {
    verdicts: Verdicts,
    asked: u64,
}

impl ListJudge {
    /// The judge of a verdict file.
    ///
    /// A line tells one verdict: 64 hex digits of lower case, which are a question's id, a space, and one of the words `approved`,
    /// `mismatch`, `untrusted` and `invalid`. The last line needn't be closed, and a file without bytes has no lines. Of lines on one
    /// question the first counts. `TooLarge`: the file has more than 1,048,576 bytes, which aren't looked at. `BadRow`: a line of
    /// another form, the first of them, counted from 1.
    pub fn read(alloc: Global, bytes: &[u8]) -> Result<ListJudge, ListError>
        ensures ok { IfOk result (λ judge. SaysFile bytes.now (list_says judge)) }
        ensures err { IfErr result (HasListReason bytes.now) }
        // What the file holds is answered.
        ensures only_rows { (rows : List row_type.VerdictRow) → HasRows rows bytes.now
            → length bytes.now ≤ MAX_INPUT_LEN
            → MatchResult result (λ judge. SaysRows rows (list_says judge))
            (λ e. e ≡ error.NoMemory) }
        ensures only_bad { (n : ℕ) → HasBadLine n bytes.now → length bytes.now ≤ MAX_INPUT_LEN
            → IsErrAnd result (λ e. (e ≡ error.BadRow n) ⊎ (e ≡ error.NoMemory)) }
        ensures only_large { MAX_INPUT_LEN < length bytes.now
            → result ≡ Err (error.TooLarge (length bytes.now)) }
        ensures asked { IfOk result (λ judge. list_asked judge ≡ 0) }
    {
        if bytes.len() as u64 > MAX_INPUT_LEN {
            return Err(ListError::TooLarge(bytes.len() as u64));
        }
        let verdicts = read_rows(alloc, bytes)?;
        Ok(ListJudge { verdicts, asked: 0 })
    }
}

// The verdict on a question.
fn look_up(verdicts: &Verdicts, q: &Question) -> Verdict
    ensures { result ≡ said_at verdicts.now (question_digest q.now) }
{
    let mut id = [0; 32];
    id.copy_from_slice(question_id(q).as_slice());
    match verdicts.get(&id) {
        Some(verdict) => *verdict,
        None => Verdict::Silent,
    }
}

impl Judge for ListJudge {
    ghost says = { λ j q. said_at j.verdicts (question_digest q) };

    ghost asked_times = { λ j. j.asked };

    ghost judge_faults = { λ _. 0 };

    fn ask(&mut self, q: &Question) -> Result<Verdict, JudgeFailed>
        ensures answer { result ≡ Ok (list_says self.old q.now) }
        ensures same { list_says self.new ≡ list_says self.old }
        ensures counted { Counted (list_asked self.old) (list_asked self.new) }
    {
        self.asked = self.asked.saturating_add(1);
        Ok(look_up(&self.verdicts, q))
    }

    fn asked(&self) -> u64 {
        self.asked
    }
}
