// What holds of every BMFF file.
ghost use Rattle.std.specs.Prelude.{◌≡◌, ◌<◌, ◌^◌, ℕ, List, All};
ghost use Rattle.c2_base.specs.declared.media.MediaError.{MediaError};
ghost use Rattle.c2_spec.specs.Bmff.Boxes.{Box, HasRoots, RootFault};
ghost use Rattle.c2_spec.specs.Bmff.Store.{HasBmffStore, IsBmffLocated};
ghost use Rattle.c2_spec.specs.Located.{Located};

/// A file is the concatenation of one list of root boxes at most, and then no test of theirs fails.
pub fn a_file_has_one_list_of_roots()
    ensures once { (file : List ℕ) (a b : List Box) → HasRoots file a → HasRoots file b → a ≡ b }
    ensures fault { (file : List ℕ) (roots : List Box) (e : MediaError) → HasRoots file roots
        → RootFault file e → ⊥ }
{}

/// A BMFF file comes to one thing at most: one refusal, no store, or one store in one range.
pub fn a_bmff_file_comes_to_one_thing()
    ensures { (file : List ℕ) (v w : Located)
        → IsBmffLocated file v → IsBmffLocated file w → v ≡ w }
{}

/// Each list of bytes comes to one of these as a BMFF file.
pub fn each_bmff_file_comes_to_something()
    ensures { (file : List ℕ) → All (λ b. b < 2 ^ 8) file → (v : Located) × IsBmffLocated file v }
{}

/// The bytes of a BMFF file's store are below 2^8 where the file's are.
pub fn bmff_store_bytes_are_of_the_file()
    ensures { (file : List ℕ) (start len : ℕ) (store : List ℕ) → HasBmffStore file start len store
        → All (λ b. b < 2 ^ 8) file → All (λ b. b < 2 ^ 8) store }
{}
