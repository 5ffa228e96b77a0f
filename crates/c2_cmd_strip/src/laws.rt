// A law of the outcomes of `strip`.
ghost use Rattle.std.specs.Prelude.{◌<◌, ◌^◌, ℕ, List, All};
ghost use Rattle.c2_cmd_outcome.specs.Outcome.{IsOneOutcome, Outcome};
ghost use Rattle.c2_cmd_strip.specs.Outcomes.{IsStripOutcome};

/// `strip` comes to one outcome at most for each file, and to one where the file is bytes.
pub fn a_strip_comes_to_one_outcome()
    ensures each { (file : List ℕ) → All (λ b. b < 2 ^ 8) file
        → (expected : Outcome) × IsStripOutcome file expected }
    ensures once { (file : List ℕ) → IsOneOutcome (IsStripOutcome file) }
{}
