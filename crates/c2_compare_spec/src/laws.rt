//! What the active claim of an accepted file binds: laws over the definitions.
//!
//! The way is this. The active manifests of two accepted files with one active claim correspond to each
//! other. A step from manifests that correspond to their children keeps equal claim bytes, or two different
//! lists have one digest, or two different claims one signature. So all reached manifests correspond, and
//! with them redactions, assertions, exclusions and covered texts.
ghost use Rattle.std.specs.Prelude.{◌≡◌, ◌↔◌, ◌⊎◌, ◌-◌, ℕ, true, List, Some, None, find, length};
ghost use Rattle.c2_base.specs.declared.values.Question.{Question};
ghost use Rattle.c2_spec.specs.declared.digest.Alg.{Alg};
ghost use Rattle.c2_spec.specs.declared.panel.Verdict.{Verdict};
ghost use Rattle.c2_rules.specs.Chains.{IsChild, Reached, is_redacted};
ghost use Rattle.c2_rules.specs.CheckList.{StoreReading};
ghost use Rattle.c2_rules.specs.Readings.{Reading as AnyReading};
ghost use Rattle.c2_rules.specs.Validated.{IsAnswer, CheckAsks};
ghost use Rattle.c2_rules.specs.declared.answer.Answer.{Answer as AnyAnswer};
ghost use Rattle.c2_rules.specs.declared.answer.Answer.TheVariants as answer;
ghost use Rattle.c2_rules.specs.declared.answer.Summary.{Summary as Counted};
ghost use Rattle.c2_rules.specs.Opened.{IsOpenedOnce};
ghost use Rattle.c2_compare_spec.specs.Accepted.{IsAccepted, HaveOneClaim, AreSame, summary_in};
ghost use Rattle.c2_compare_spec.specs.ChainContent.{SameContent, claim_bytes_of};
ghost use Rattle.c2_compare_spec.specs.Comparison.{IsComparison, CompareAsks};
ghost use Rattle.c2_compare_spec.specs.Correspondence.{Correspond, HaveSameClaim};
ghost use Rattle.c2_compare_spec.specs.Deciding.{has_same_content};
ghost use Rattle.c2_compare_spec.specs.Differences.{ingredients_at, all_ingredients};
ghost use Rattle.c2_compare_spec.specs.Differences.{first_difference};
ghost use Rattle.c2_compare_spec.specs.Evidence.{ListPair, do_differ, IsReal};
ghost use Rattle.c2_compare_spec.specs.Lists.{IsListOf, IsReachedAt};
ghost use Rattle.c2_compare_spec.specs.declared.compared.Compared.{Compared as AnyCompared};

/// Equal claim bytes of reached manifests of accepted files are one claim, under one version. No signature covers the label that
/// says the version, so it has to follow from the bytes.
pub fn equal_claim_bytes_are_one_claim()
    ensures { (hash : Alg → List ℕ → List ℕ) (said : Question → Verdict)
        (first second : List ℕ) (s t : StoreReading) → IsAccepted hash said first s
        → IsAccepted hash said second t → (n m : ℕ) (r q : AnyReading)
        → IsReachedAt s.readings n r → IsReachedAt t.readings m q
        → claim_bytes_of r ≡ claim_bytes_of q → HaveSameClaim r q }
{}

/// The step. Where no pair differs that leads from a manifest to its ingredients, each of its children
/// corresponds to a child of the manifest that it corresponds to, with equal claim bytes; and the other way
/// round.
pub fn a_step_keeps_equal_claims()
    ensures forth { (hash : Alg → List ℕ → List ℕ) (said : Question → Verdict)
        (first second : List ℕ) (s t : StoreReading) → HaveOneClaim hash said first second s t
        → (n m : ℕ) → Correspond s.readings t.readings n m
        → find do_differ (ingredients_at s.readings t.readings n) ≡ None
        → (j : ℕ) → IsChild s.readings n j
        → (i : ℕ) × Correspond s.readings t.readings j i × IsChild t.readings m i }
    ensures back { (hash : Alg → List ℕ → List ℕ) (said : Question → Verdict)
        (first second : List ℕ) (s t : StoreReading) → HaveOneClaim hash said first second s t
        → (n m : ℕ) → Correspond s.readings t.readings n m
        → find do_differ (ingredients_at s.readings t.readings n) ≡ None
        → (i : ℕ) → IsChild t.readings m i
        → (j : ℕ) × Correspond s.readings t.readings j i × IsChild s.readings n j }
    ensures real { (hash : Alg → List ℕ → List ℕ) (said : Question → Verdict)
        (first second : List ℕ) (s t : StoreReading) → HaveOneClaim hash said first second s t
        → (n m : ℕ) → Correspond s.readings t.readings n m → (p : ListPair)
        → find do_differ (ingredients_at s.readings t.readings n) ≡ Some p → IsReal hash said p }
{}

/// The induction. The active manifests correspond; and where no pair differs that leads to ingredients, each
/// reached manifest of either file corresponds to one of the other, in which the same labels are redacted.
pub fn each_reached_manifest_corresponds()
    ensures active { (hash : Alg → List ℕ → List ℕ) (said : Question → Verdict)
        (first second : List ℕ) (s t : StoreReading) → HaveOneClaim hash said first second s t
        → Correspond s.readings t.readings (length s.readings - 1) (length t.readings - 1) }
    ensures forth { (hash : Alg → List ℕ → List ℕ) (said : Question → Verdict)
        (first second : List ℕ) (s t : StoreReading) → HaveOneClaim hash said first second s t
        → find do_differ (all_ingredients s.readings t.readings) ≡ None
        → (n : ℕ) → Reached s.readings n → (m : ℕ) × Correspond s.readings t.readings n m }
    ensures back { (hash : Alg → List ℕ → List ℕ) (said : Question → Verdict)
        (first second : List ℕ) (s t : StoreReading) → HaveOneClaim hash said first second s t
        → find do_differ (all_ingredients s.readings t.readings) ≡ None
        → (m : ℕ) → Reached t.readings m → (n : ℕ) × Correspond s.readings t.readings n m }
    ensures redacted { (hash : Alg → List ℕ → List ℕ) (said : Question → Verdict)
        (first second : List ℕ) (s t : StoreReading) → HaveOneClaim hash said first second s t
        → find do_differ (all_ingredients s.readings t.readings) ≡ None
        → (n m : ℕ) → Correspond s.readings t.readings n m → (label : List ℕ)
        → is_redacted s.readings n label ≡ is_redacted t.readings m label }
{}

/// The first difference of two accepted files with one active claim is real: two different lists under one
/// digest, or two different claims under one signature.
pub fn a_first_difference_is_real()
    ensures real { (hash : Alg → List ℕ → List ℕ) (said : Question → Verdict)
        (first second : List ℕ) (s t : StoreReading) → HaveOneClaim hash said first second s t
        → (p : ListPair) → first_difference s t ≡ Some p → IsReal hash said p }
    // The lists are there: each is one of its own file.
    ensures theirs { (hash : Alg → List ℕ → List ℕ) (said : Question → Verdict)
        (first second : List ℕ) (s t : StoreReading) → HaveOneClaim hash said first second s t
        → (p : ListPair) → first_difference s t ≡ Some p
        → IsListOf s p.left × IsListOf t p.right }
{}

/// There is a first difference wherever chain contents or covered texts differ: without one they are equal.
pub fn a_difference_is_found()
    ensures none { (hash : Alg → List ℕ → List ℕ) (said : Question → Verdict)
        (first second : List ℕ) (s t : StoreReading) → HaveOneClaim hash said first second s t
        → first_difference s t ≡ None → AreSame s t }
    ensures some { (hash : Alg → List ℕ → List ℕ) (said : Question → Verdict)
        (first second : List ℕ) (s t : StoreReading) → HaveOneClaim hash said first second s t
        → (AreSame s t → ⊥)
        → (p : ListPair) × (first_difference s t ≡ Some p) × IsReal hash said p }
{}

/// Two accepted files with one active claim have equal chain contents and equal covered texts, or there is a
/// first difference and it is real.
pub fn one_claim_binds_or_there_is_evidence()
    ensures { (hash : Alg → List ℕ → List ℕ) (said : Question → Verdict)
        (first second : List ℕ) (s t : StoreReading) → HaveOneClaim hash said first second s t
        → AreSame s t ⊎ ((p : ListPair) × (first_difference s t ≡ Some p) × IsReal hash said p) }
{}

/// A file is accepted exactly where its check answers that every rule holds, with the summary that is counted
/// of it.
pub fn accepted_is_valid()
    ensures valid { (hash : Alg → List ℕ → List ℕ) (said : Question → Verdict) (file : List ℕ)
        (summary : Counted) → IsAnswer hash said file (answer.Valid summary)
        → (s : StoreReading) × (h : IsAccepted hash said file s)
        × (summary ≡ summary_in file s h.opened) }
    ensures accepted { (hash : Alg → List ℕ → List ℕ) (said : Question → Verdict) (file : List ℕ)
        (s : StoreReading) → (h : IsAccepted hash said file s)
        → IsAnswer hash said file (answer.Valid (summary_in file s h.opened)) }
{}

/// For the stores of accepted files a test decides whether their chain contents are equal.
pub fn a_test_decides_content()
    ensures { (hash : Alg → List ℕ → List ℕ) (said : Question → Verdict)
        (first second : List ℕ) (s t : StoreReading) → IsAccepted hash said first s
        → IsAccepted hash said second t
        → (has_same_content s.readings t.readings ≡ true) ↔ SameContent s.readings t.readings }
{}

/// Two files whose checks answer come to an answer and a text, and to a list of questions.
pub fn each_comparison()
    ensures answer { (hash : Alg → List ℕ → List ℕ) (said : Question → Verdict)
        (first second : List ℕ) (a b : AnyAnswer) → IsAnswer hash said first a
        → IsAnswer hash said second b
        → (what : AnyCompared) × (text : List ℕ)
        × IsComparison hash said first second what text }
    ensures asks { (hash : Alg → List ℕ → List ℕ) (said : Question → Verdict)
        (first second : List ℕ) (a : AnyAnswer) (ps qs : List Question)
        → IsAnswer hash said first a → CheckAsks hash said first ps
        → CheckAsks hash said second qs
        → (all : List Question) × CompareAsks hash said first second all }
{}

/// Two files that are opened as one thing at most come to one answer and one text, and to one list of
/// questions. That each file is opened so is a law of `c2_validate` (`one_opening`).
pub fn one_comparison()
    ensures answer { (hash : Alg → List ℕ → List ℕ) (said : Question → Verdict)
        (first second : List ℕ) → IsOpenedOnce first → IsOpenedOnce second
        → (a b : AnyCompared) (t u : List ℕ) → IsComparison hash said first second a t
        → IsComparison hash said first second b u → (a ≡ b) × (t ≡ u) }
    ensures asks { (hash : Alg → List ℕ → List ℕ) (said : Question → Verdict)
        (first second : List ℕ) → IsOpenedOnce first → IsOpenedOnce second
        → (ps qs : List Question) → CompareAsks hash said first second ps
        → CompareAsks hash said first second qs → ps ≡ qs }
{}
