// What holds of the exclusions of every BMFF file.
ghost use Rattle.std.specs.Prelude.{◌≡◌, ◌↔◌, ◌<◌, ◌^◌, ℕ, Bool, true, List, All};
ghost use Rattle.c2_spec.specs.Bmff.Boxes.{Box, HasRoots};
ghost use Rattle.c2_spec.specs.Bmff.Hash.{Exclusion as AnyExclusion, IsExcluded};

/// Whether exclusions exclude a position of a BMFF file is decided: some test holds of just the positions that they exclude.
pub fn a_test_decides_what_is_excluded()
    ensures { (file : List ℕ) (boxes : List Box) (exclusions : List AnyExclusion)
        → All (λ b. b < 2 ^ 8) file → HasRoots file boxes
        → (excludes : ℕ → Bool) × ((i : ℕ) → (excludes i ≡ true) ↔ IsExcluded boxes exclusions i) }
{}
