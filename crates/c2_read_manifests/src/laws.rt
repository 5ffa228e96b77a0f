//! Laws of what is read of a store: claims, questions and readings are one, and each manifest that a program can hold has them.
ghost use Rattle.std.specs.Prelude.{◌≡◌, ◌⊎◌, ℕ, List, Option, None, IfSome, option_and_then};
ghost use Rattle.std.specs.List.{AllByRecursion};
ghost use Rattle.c2_base.specs.declared.values.Question.{Question};
ghost use Rattle.c2_spec.specs.Cbor.Item.{Item};
ghost use Rattle.c2_spec.specs.Cbor.Fields.{HasItem, IsUnread};
ghost use Rattle.c2_spec.specs.C2pa.Manifest.{Manifest, Superbox, HasClaim, claim_bytes};
ghost use Rattle.c2_spec.specs.C2pa.Manifest.{manifests_of, store_refusal};
ghost use Rattle.c2_spec.specs.Jumbf.Tree.{Tree, IsLegalTree};
ghost use Rattle.c2_spec.specs.declared.cbor.CborError.{CborError};
ghost use Rattle.c2_spec.specs.declared.claim.Claim.{Claim};
ghost use Rattle.c2_read_manifests.specs.Existing.{IsHeld};
ghost use Rattle.c2_read_manifests.specs.Held.{IsHeldManifest};
ghost use Rattle.c2_rules.specs.Binding.{Media, IsItemOf};
ghost use Rattle.c2_rules.specs.Chains.{LabelsDiffer};
ghost use Rattle.c2_rules.specs.CheckList.{StoreReading, IsStoreReading};
ghost use Rattle.c2_rules.specs.Claims.{HaveClaims};
ghost use Rattle.c2_rules.specs.Questions.{HasQuestion, IsQuestionOf};
ghost use Rattle.c2_rules.specs.Readings.{Reading, IsReading, AreReadings, claim_in, question_in};

/// A manifest has one claim, or none.
pub fn one_claim()
    ensures { (m : Manifest) (c d : Option Claim) → HasClaim m c → HasClaim m d → c ≡ d }
{}

/// Manifests have one list of claims.
pub fn one_list_of_claims()
    ensures { (ms : List Manifest) (cs ds : List (Option Claim)) → HaveClaims ms cs
        → HaveClaims ms ds → cs ≡ ds }
{}

/// Judges are asked at most one question of a manifest.
pub fn one_question()
    ensures { (m : Manifest) (q r : Question) → HasQuestion m q → HasQuestion m r → q ≡ r }
{}

/// Bytes that a program can hold are one legal item, or aren't for one cause, and never both.
pub fn each_list_is_an_item_or_not()
    ensures some { (s : List ℕ) → IsHeld s → ((v : Item) × HasItem s v)
        ⊎ ((e : CborError) × IsUnread s e) }
    ensures one { (s : List ℕ) (v : Item) (e : CborError) → IsHeld s → HasItem s v
        → IsUnread s e → ⊥ }
{}

/// A manifest whose claim bytes a program can hold has a claim or none.
pub fn each_manifest_has_a_claim_or_not()
    ensures { (m : Manifest) → IfSome (claim_bytes m.claims) IsHeld
        → (c : Option Claim) × HasClaim m c }
{}

/// A manifest whose claim bytes and signature item a program can hold has a question or none.
pub fn each_manifest_has_a_question_or_not()
    ensures { (m : Manifest) → IfSome (claim_bytes m.claims) IsHeld
        → IfSome (option_and_then (λ (b : Superbox). b.item) m.signature) IsHeld
        → (found : Option Question) × IsQuestionOf m found }
{}

/// What is read of a manifest, of manifests and of a store is one.
pub fn one_reading()
    ensures manifest { (m : Manifest) (r s : Reading) → IsReading m r → IsReading m s → r ≡ s }
    ensures manifests { (ms : List Manifest) (rs ss : List Reading) → AreReadings ms rs
        → AreReadings ms ss → rs ≡ ss }
    ensures store { (m : Media) (ms : List Manifest) (s t : StoreReading) → IsStoreReading m ms s
        → IsStoreReading m ms t → s ≡ t }
{}

/// The claim of a manifest that was read is its claim, and its question is its question; each is none where it has none.
pub fn a_reading_is_the_claim_and_the_question()
    ensures claim { (m : Manifest) (r : Reading) → IsReading m r → HasClaim m (claim_in r) }
    ensures question { (m : Manifest) (r : Reading) → IsReading m r
        → IsQuestionOf m (question_in r) }
{}

/// The manifests of a store have different labels.
pub fn labels_of_a_store_differ()
    ensures { (t : Tree) (rs : List Reading) → IsLegalTree 1 t → store_refusal t ≡ None
        → AreReadings (manifests_of t) rs → LabelsDiffer rs }
{}

/// Manifests whose payloads a program can hold are read as something, and so is the payload of a binding.
pub fn each_store_is_read()
    ensures manifests { (ms : List Manifest) → AllByRecursion IsHeldManifest ms
        → (rs : List Reading) × AreReadings ms rs }
    ensures binding { (payload : Option (List ℕ)) → IfSome payload IsHeld
        → (v : Option Item) × IsItemOf payload v }
{}
