//! What is read of the items that are written.

ghost use Rattle.std.specs.Prelude.{◌≡◌, ◌↔◌, ◌+◌, ◌≤◌, All, List, Ok, Option, Some, length, true};
ghost use Rattle.std.specs.Prelude.{ℕ};
ghost use Rattle.c2_base.specs.declared.values.Range.{Range};
ghost use Rattle.c2_spec.specs.Bmff.Hash.{BmffHash, bmff_hash_of};
ghost use Rattle.c2_spec.specs.C2pa.Assertion.{data_hash_of, ingredient_of, most_exclusions};
ghost use Rattle.c2_spec.specs.C2pa.Assertion.{references_agree};
ghost use Rattle.c2_spec.specs.Cbor.Deterministic.{deterministic, sorted};
ghost use Rattle.c2_spec.specs.Cbor.Plain.{HasPlainKeys};
ghost use Rattle.c2_spec.specs.Digest.{alg_name, digest_len};
ghost use Rattle.c2_spec.specs.declared.assertion.DataHash.{DataHash};
ghost use Rattle.c2_spec.specs.declared.assertion.Ingredient.{Ingredient};
ghost use Rattle.c2_spec.specs.declared.assertion.IngredientVersion.TheVariants.{V3};
ghost use Rattle.c2_spec.specs.declared.digest.Alg.{Alg};
ghost use Rattle.c2_assertion.specs.ReadBack.{IsReadable};
ghost use Rattle.c2_assertion.specs.Written.{bmff_hash_item, data_hash_item, ingredient_item};
ghost use Rattle.c2_assertion.specs.Written.{one_exclusion};

/// The item of a data hash is read as that hash exactly where it has at most 1,024 exclusions.
pub fn a_written_data_hash_is_read()
    ensures { (h : DataHash) → (data_hash_of (data_hash_item h) ≡ Ok h)
        ↔ (length h.exclusions ≤ most_exclusions) }
{}

/// The item of an ingredient is read as that ingredient of version 3 exactly where its references agree.
pub fn a_written_ingredient_is_read()
    ensures { (i : Ingredient) → (ingredient_of V3 (ingredient_item i) ≡ Ok i)
        ↔ (references_agree i.manifest i.signature ≡ true) }
{}

/// The item of a BMFF hash is read as that hash exactly where it has at most 1,024 exclusions, each of them readable.
pub fn a_written_bmff_hash_is_read()
    ensures { (h : BmffHash) → (bmff_hash_of (bmff_hash_item h) ≡ Ok h)
        ↔ ((length h.exclusions ≤ most_exclusions) × All IsReadable h.exclusions) }
{}

/// The deterministic bytes of the item of a data hash with one exclusion have one length for all numbers of the exclusion and all
/// digests of a length: 68 bytes and those of the digest with an algorithm that is known. So it has 100 bytes by SHA-256, 116 by
/// SHA-384 and 132 by SHA-512.
pub fn a_written_data_hash_has_one_length()
    ensures any { (alg : Option (List ℕ)) (g h : List ℕ) (r q : Range) → length g ≡ length h
        → length (deterministic (data_hash_item (one_exclusion alg g r)))
        ≡ length (deterministic (data_hash_item (one_exclusion alg h q))) }
    ensures known { (alg : Alg) (hash : List ℕ) (r : Range) → length hash ≡ digest_len alg
        → length (deterministic (data_hash_item (one_exclusion (Some (alg_name alg)) hash r)))
        ≡ 68 + digest_len alg }
{}

/// No map of the items has two keys with the same bytes: so what `encode` writes of one is read again.
pub fn written_items_have_plain_keys()
    ensures data { (h : DataHash) → HasPlainKeys (data_hash_item h) }
    ensures bmff { (h : BmffHash) → HasPlainKeys (bmff_hash_item h) }
    ensures ingredient { (i : Ingredient) → HasPlainKeys (ingredient_item i) }
{}

/// The fields of the items stand in deterministic order, so what is read of an item's deterministic bytes is the item itself.
pub fn written_items_are_in_order()
    ensures data { (h : DataHash) → sorted (data_hash_item h) ≡ data_hash_item h }
    ensures bmff { (h : BmffHash) → sorted (bmff_hash_item h) ≡ bmff_hash_item h }
    ensures ingredient { (i : Ingredient) → sorted (ingredient_item i) ≡ ingredient_item i }
{}
