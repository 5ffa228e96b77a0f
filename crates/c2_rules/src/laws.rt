//! Laws over the definitions.
ghost use Rattle.std.specs.Prelude.{◌≡◌, ◌↔◌, ℕ, true, false, List, Option, Some, None, Ok, Result};
ghost use Rattle.std.specs.Prelude.{is_some, Contains};
ghost use Rattle.c2_spec.specs.C2pa.Manifest.{Manifest};
ghost use Rattle.c2_spec.specs.declared.digest.Alg.{Alg};
ghost use Rattle.c2_spec.specs.declared.panel.Verdict.{Verdict};
ghost use Rattle.c2_rules.specs.Binding.{Binding, Media, IsBinding, binding_label};
ghost use Rattle.c2_spec.specs.Cbor.Item.{Item};
ghost use Rattle.c2_spec.specs.declared.assertion.FieldError.{FieldError};
ghost use Rattle.c2_spec.specs.declared.assertion.Kind.{Kind};
ghost use Rattle.c2_rules.specs.Chains.{LabelsDiffer, IsChild, children, Reaches, reaches, Reached};
ghost use Rattle.c2_rules.specs.Chains.{is_reached, IsRedacted, is_redacted, IsTouched, is_touched};
ghost use Rattle.c2_rules.specs.Readings.{Reading, IsReading, question_in};
ghost use Rattle.c2_rules.specs.Rules.{binding_tests, claim_tests, manifest_tests, unjudged_tests};
ghost use Rattle.c2_rules.specs.Seen.{Seen, SameSeen};
ghost use Rattle.c2_rules.specs.Tests.{Test, AllHold, FailsFirst, first_failing};
ghost use Rattle.c2_rules.specs.declared.answer.Failing.{Failing};

/// The first condition that fails is the one with the least index, and there is none exactly where all hold.
pub fn first_failing_is_least()
    ensures none { (ts : List Test) → first_failing ts ≡ None → AllHold ts }
    ensures some { (ts : List Test) (f : Failing) → first_failing ts ≡ Some f
        → (place : ℕ) × FailsFirst ts place f }
    ensures hold { (ts : List Test) → AllHold ts → first_failing ts ≡ None }
    ensures only { (ts : List Test) (place : ℕ) (f : Failing) → FailsFirst ts place f
        → first_failing ts ≡ Some f }
{}

/// Where the manifests have different labels, as those of a store do, the tests by which the rules go decide what they stand for.
pub fn tests_decide_chains()
    ensures children { (rs : List Reading) (n m : ℕ) → LabelsDiffer rs
        → Contains (children rs n) m ↔ IsChild rs n m }
    ensures reaches { (rs : List Reading) (n m : ℕ) → LabelsDiffer rs
        → (reaches rs n m ≡ true) ↔ Reaches rs n m }
    ensures reached { (rs : List Reading) (n : ℕ) → LabelsDiffer rs
        → (is_reached rs n ≡ true) ↔ Reached rs n }
    ensures redacted { (rs : List Reading) (m : ℕ) (label : List ℕ) → LabelsDiffer rs
        → (is_redacted rs m label ≡ true) ↔ IsRedacted rs m label }
    ensures touched { (rs : List Reading) (m : ℕ) → LabelsDiffer rs
        → (is_touched rs m ≡ true) ↔ IsTouched rs m }
{}

/// The rules of a manifest depend on no more than this: what was read of its boxes, apart from its own contents as bytes; whether
/// it is the active one; which labels are redacted in it; and how the manifests stand that its ingredients name.
pub fn rules_see_no_more()
    ensures judged { (hash : Alg → List ℕ → List ℕ) (v : Option Verdict) (a b : Seen) → SameSeen a b
        → manifest_tests hash v a ≡ manifest_tests hash v b }
    ensures unjudged { (hash : Alg → List ℕ → List ℕ) (a b : Seen) → SameSeen a b
        → unjudged_tests hash a ≡ unjudged_tests hash b }
    ensures asked { (a b : Seen) → SameSeen a b → question_in a.own ≡ question_in b.own }
{}

/// Where the rules before the verdict hold, and there alone, a manifest has a question.
pub fn a_question_where_the_claim_rules_hold()
    ensures asks { (m : Manifest) (r : Reading) → IsReading m r
        → first_failing (claim_tests r) ≡ None → is_some (question_in r) ≡ true }
    ensures passes { (r : Reading) → is_some (question_in r) ≡ true
        → first_failing (claim_tests r) ≡ None }
{}

/// An active manifest that is no update has a binding, where its rule on bindings holds.
pub fn an_active_manifest_has_a_binding()
    ensures { (s : Seen) → s.is_active ≡ true → s.own.manifest.is_update ≡ false
        → first_failing (binding_tests s) ≡ None → is_some (binding_label s.own) ≡ true }
{}

/// What an item of a binding comes to in a media file is one.
pub fn a_binding_is_one()
    ensures { (m : Media) (kind : Kind) (v : Item) (a b : Result Binding FieldError)
        → IsBinding m kind v a → IsBinding m kind v b → a ≡ b }
{}

/// Over any two media files an item of a binding names one algorithm and one digest.
pub fn a_binding_names_one_digest()
    ensures { (m n : Media) (kind : Kind) (v : Item) (b c : Binding) → IsBinding m kind v (Ok b)
        → IsBinding n kind v (Ok c) → (b.alg ≡ c.alg) × (b.hash ≡ c.hash) }
{}
