// The laws of a manifest that a later one leaves behind.
ghost use Rattle.std.specs.Prelude.{ℕ, Bool, List};
ghost use Rattle.c2_spec.specs.declared.digest.Alg.{Alg};
ghost use Rattle.c2_rules.specs.Rules.{unjudged_tests};
ghost use Rattle.c2_rules.specs.Seen.{Seen};
ghost use Rattle.c2_rules.specs.Tests.{AllHold};
ghost use Rattle.c2_chain_spec.specs.Older.{Loses, inactive};

/// Where the rules of a manifest hold apart from the verdict, they hold once it is no longer the active one.
pub fn rules_hold_when_no_longer_active()
    ensures { (hash : Alg → List ℕ → List ℕ) (s : Seen) → AllHold (unjudged_tests hash s)
        → AllHold (unjudged_tests hash (inactive s)) }
{}

/// Where the rules of a manifest hold apart from the verdict, they hold once it has lost boxes that are redacted.
pub fn rules_hold_without_redacted_boxes()
    ensures { (hash : Alg → List ℕ → List ℕ) (out : List ℕ → Bool) (was now : Seen)
        → Loses out was now → AllHold (unjudged_tests hash was)
        → AllHold (unjudged_tests hash now) }
{}
