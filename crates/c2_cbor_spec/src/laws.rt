//! Laws of spellings, and what is read of bytes that were written.

ghost use Rattle.std.specs.Prelude.{◌≡◌, ◌↔◌, ◌⊎◌, ◌++◌, ◌^◌, ◌<◌, All, List, [], ℕ, length};
ghost use Rattle.c2_spec.specs.Cbor.Item.{Item, Pairs, no_pairs};
ghost use Rattle.c2_spec.specs.Cbor.Legal.{IsLegal};
ghost use Rattle.c2_spec.specs.Cbor.Spelling.{Spells};
ghost use Rattle.c2_spec.specs.Cbor.Deterministic.{sorted, sorted_pairs, deterministic, preferred};
ghost use Rattle.c2_spec.specs.Cbor.Deterministic.{each_sorted, pairs_with, KeysRise};
ghost use Rattle.c2_spec.specs.Cbor.Faults.{HasFault};
ghost use Rattle.c2_spec.specs.Cbor.Fields.{HasItem, IsUnread};
ghost use Rattle.c2_spec.specs.declared.cbor.CborError.{CborError};
ghost use Rattle.c2_spec.specs.Cbor.Plain.{IsPlain};
ghost use Rattle.c2_spec.specs.Cbor.Answers.{BeginsWith};

/// A list spells at most one item, legal or not.
pub fn one_item()
    ensures { (v w : Item) (s : List ℕ) → Spells v s → Spells w s → v ≡ w }
{}

/// No spelling of an item is a proper prefix of another spelling.
pub fn no_proper_prefix()
    ensures { (v w : Item) (s r : List ℕ) → Spells v s → Spells w (s ++ r) → r ≡ [] }
{}

/// The deterministic bytes of a plain item that has a spelling, whatever follows them, are read as the sorted item, to their
/// end. (`encode` says the same of the bytes that it writes.)
pub fn round_trip()
    ensures { (v : Item) (s r : List ℕ) → Spells v s → length s < 2 ^ 64 → IsPlain v
        → BeginsWith (deterministic v ++ r) (sorted v) (length (deterministic v)) }
{}

/// The deterministic bytes of a legal item that has a spelling are an item's exactly where the item is plain.
pub fn plain_items_are_read_back()
    ensures { (v : Item) (s : List ℕ) → Spells v s → length s < 2 ^ 64 → IsLegal v
        → ((w : Item) × HasItem (deterministic v) w) ↔ IsPlain v }
{}

/// Sorting changes no length: the deterministic bytes of an item are as many as those in which its pairs stay in their order.
pub fn sorting_keeps_the_length()
    ensures { (v : Item) → length (deterministic v) ≡ length (preferred v) }
{}

/// Bytes of which no prefix spells a legal item have a fault, and one alone; bytes of which one does have none.
pub fn one_fault()
    ensures some { (s : List ℕ) → All (λ b. b < 2 ^ 8) s → length s < 2 ^ 64
        → ((v : Item) (n : ℕ) → BeginsWith s v n → ⊥) → (e : CborError) × HasFault s e }
    ensures apart { (s : List ℕ) → All (λ b. b < 2 ^ 8) s → length s < 2 ^ 64
        → (v : Item) (n : ℕ) (e : CborError) → BeginsWith s v n → HasFault s e → ⊥ }
    ensures one { (s : List ℕ) → All (λ b. b < 2 ^ 8) s → length s < 2 ^ 64
        → (d e : CborError) → HasFault s d → HasFault s e → d ≡ e }
{}

/// Bytes as a whole are a legal item, or are none for a cause, and never both.
pub fn each_list_is_an_item_or_not()
    ensures some { (s : List ℕ) → All (λ b. b < 2 ^ 8) s → length s < 2 ^ 64
        → ((v : Item) × HasItem s v) ⊎ ((e : CborError) × IsUnread s e) }
    ensures one { (s : List ℕ) → All (λ b. b < 2 ^ 8) s → length s < 2 ^ 64
        → (v : Item) (e : CborError) → HasItem s v → IsUnread s e → ⊥ }
{}

/// The sorted pairs of a map rise by their keys' bytes; and of the pairs whose keys have the same bytes, whichever these
/// are, each stays, in the order in which they stood.
pub fn sorted_pairs_rise()
    ensures rise { (ps : Pairs) → KeysRise (sorted_pairs ps no_pairs) }
    ensures stay { (ps : Pairs) (b : List ℕ)
        → pairs_with b (sorted_pairs ps no_pairs) ≡ pairs_with b (each_sorted ps) }
{}
