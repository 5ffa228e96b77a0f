// What holds of every cover.
ghost use Rattle.std.specs.Prelude.{◌≡◌, List, ℕ, length};
ghost use Rattle.c2_cover.specs.Covers.{Covered, text_len, text_of};
ghost use Rattle.c2_cover.specs.BoxOffsets.{AreBoxOffsets};

/// A covered text has as many bytes as positions of the file are covered, and 8 for each box offset besides.
pub fn each_text_has_its_count()
    ensures { (c : Covered) (file : List ℕ) → length file ≡ c.size
        → AreBoxOffsets c.size c.ranges 0 c.offsets
        → length (text_of c file) ≡ text_len c }
{}
