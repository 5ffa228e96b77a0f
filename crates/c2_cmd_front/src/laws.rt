// Laws of the outcomes of `plan-front` and `embed-front`.
ghost use Rattle.std.specs.Prelude.{◌<◌, ◌^◌, ℕ, List, All};
ghost use Rattle.c2_spec.specs.declared.digest.Alg.{Alg};
ghost use Rattle.c2_cmd_outcome.specs.Outcome.{IsOneOutcome, Outcome};
ghost use Rattle.c2_cmd_front.specs.Outcomes.{IsEmbedFrontOutcome, IsPlanFrontOutcome};

/// `plan-front` comes to one outcome at most for what it is handed, and so does `embed-front`.
pub fn one_front_outcome()
    ensures plan { (hash : Alg → List ℕ → List ℕ) (media definition : List ℕ)
        → IsOneOutcome (IsPlanFrontOutcome hash media definition) }
    ensures embed { (hash : Alg → List ℕ → List ℕ) (media definition message : List ℕ)
        → IsOneOutcome (IsEmbedFrontOutcome hash media definition message) }
{}

/// `plan-front` comes to an outcome where the media is bytes, and so does `embed-front` where the message is bytes too.
pub fn each_front_outcome()
    ensures plan { (hash : Alg → List ℕ → List ℕ) (media definition : List ℕ)
        → All (λ b. b < 2 ^ 8) media
        → (expected : Outcome) × IsPlanFrontOutcome hash media definition expected }
    ensures embed { (hash : Alg → List ℕ → List ℕ) (media definition message : List ℕ)
        → All (λ b. b < 2 ^ 8) media → All (λ b. b < 2 ^ 8) message
        → (expected : Outcome) × IsEmbedFrontOutcome hash media definition message expected }
{}
