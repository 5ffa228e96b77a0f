// A law of the outcomes of `extract`.
ghost use Rattle.std.specs.Prelude.{◌<◌, ◌^◌, ℕ, List, All};
ghost use Rattle.c2_cmd_outcome.specs.Outcome.{IsOneOutcome, Outcome};
ghost use Rattle.c2_cmd_extract.specs.Outcomes.{IsExtractOutcome};

/// `extract` comes to one outcome at most for each file, and to one where the file is bytes.
pub fn an_extract_comes_to_one_outcome()
    ensures each { (file : List ℕ) → All (λ b. b < 2 ^ 8) file
        → (expected : Outcome) × IsExtractOutcome file expected }
    ensures once { (file : List ℕ) → IsOneOutcome (IsExtractOutcome file) }
{}
