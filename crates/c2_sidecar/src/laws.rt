// A law of stores that are extracted; nothing is computed.
ghost use Rattle.std.specs.Prelude.{◌<◌, ◌≡◌, ◌^◌, ℕ, List, All};
ghost use Rattle.c2_sidecar.specs.Extracting.{ExtractsTo};
ghost use Rattle.c2_sidecar.specs.Extracts.{Writes};
ghost use Rattle.c2_sidecar.specs.declared.error.Extracted.{Extracted as AnyExtracted};

use c2_container::each_media_file_is_located;

/// Whatever bytes a file has, it comes to one thing when its store is to be extracted, and these bytes of it are written and no others.
pub fn each_file_is_extracted()
    ensures each { (file : List ℕ) → All (λ b. b < 2 ^ 8) file
        → (a : AnyExtracted) × ExtractsTo file a }
    ensures once { (file : List ℕ) (a b : AnyExtracted)
        → ExtractsTo file a → ExtractsTo file b → a ≡ b }
    ensures text { (file bytes others : List ℕ)
        → Writes file bytes → Writes file others → bytes ≡ others }
{
    each_media_file_is_located();
}
