// A law of containers: a file comes to one thing.
ghost use Rattle.std.specs.Prelude.{◌≡◌, ◌<◌, ◌≤◌, ◌^◌, ℕ, List, All, length};
ghost use Rattle.c2_base.specs.declared.limits.TheConstants.{MAX_STORE_LEN};
ghost use Rattle.c2_spec.specs.Container.{IsLocated};
ghost use Rattle.c2_spec.specs.Located.{Located, here};

/// Whatever bytes a file has, it comes to one thing, by its container: a store in a range, no store, or a refusal. A store is no
/// longer than a store may be, and its bytes are below 2^8 where the file's are.
pub fn each_media_file_is_located()
    ensures located { (file : List ℕ) → All (λ b. b < 2 ^ 8) file
        → (what : Located) × IsLocated file what }
    ensures once { (file : List ℕ) (v w : Located)
        → IsLocated file v → IsLocated file w → v ≡ w }
    ensures are_bytes { (file : List ℕ) (start len : ℕ) (store : List ℕ)
        → IsLocated file (here start len store)
        → All (λ b. b < 2 ^ 8) file → All (λ b. b < 2 ^ 8) store }
    ensures small { (file : List ℕ) (start len : ℕ) (store : List ℕ)
        → IsLocated file (here start len store) → length store ≤ MAX_STORE_LEN }
{}
