//! Laws of what a JPEG file comes to, and of the bytes of its store.

ghost use Rattle.std.specs.Prelude.{◌≡◌, ◌^◌, ◌<◌, ◌⊎◌, ℕ, List, Option};
ghost use Rattle.std.specs.List.{All, Contains};
ghost use Rattle.c2_spec.specs.Located.{Located};
ghost use Rattle.c2_spec.specs.Jpeg.Store.{HasJpegStore, HasNoJpegStore, IsLocated};
ghost use Rattle.c2_base.specs.declared.media.MediaError.{MediaError};
ghost use Rattle.c2_spec.specs.Jpeg.Segments.{Segment};
ghost use Rattle.c2_spec.specs.Jpeg.Places.{IsOfSegments, SegmentsFault, IsInsertPlace, HasNumber};
ghost use Rattle.c2_spec.specs.Jpeg.Writing.{IsNumberOf};

/// Whatever bytes a file has, it comes to one thing: a store in a range, no store, or a refusal.
pub fn each_file_is_located()
    ensures located { (file : List ℕ) → All (λ b. b < 2 ^ 8) file
        → (what : Located) × IsLocated file what }
    ensures once { (file : List ℕ) (v w : Located)
        → IsLocated file v → IsLocated file w → v ≡ w }
{}

/// Each byte of a file's store is one of the file's, so it is below 2^8 where the file's are.
pub fn store_bytes_are_of_the_file()
    ensures of_the_file { (file : List ℕ) (start len : ℕ) (store : List ℕ)
        → HasJpegStore file start len store → All (Contains file) store }
    ensures are_bytes { (file : List ℕ) (start len : ℕ) (store : List ℕ)
        → HasJpegStore file start len store
        → All (λ b. b < 2 ^ 8) file → All (λ b. b < 2 ^ 8) store }
{}

/// Whatever bytes a file has, it is one list of segments that ends, or one first test of a marker or a length fails, and not both.
pub fn segments_end_or_fail()
    ensures each { (file : List ℕ) → All (λ b. b < 2 ^ 8) file
        → ((segments : List Segment) × IsOfSegments file segments)
        ⊎ ((fault : MediaError) × SegmentsFault file fault) }
    ensures one { (file : List ℕ) (xs ys : List Segment)
        → IsOfSegments file xs → IsOfSegments file ys → xs ≡ ys }
    ensures no_fault { (file : List ℕ) (segments : List Segment) (fault : MediaError)
        → IsOfSegments file segments → SegmentsFault file fault → ⊥ }
    ensures one_fault { (file : List ℕ) (e f : MediaError)
        → SegmentsFault file e → SegmentsFault file f → e ≡ f }
{}

/// The packets of a store go to one place in a file, and one number is free for them, or none: each list of segments has its answer.
pub fn place_and_number_are_one()
    ensures place { (file : List ℕ) (p q : ℕ)
        → IsInsertPlace file p → IsInsertPlace file q → p ≡ q }
    ensures number { (file : List ℕ) (m n : Option ℕ)
        → HasNumber file m → HasNumber file n → m ≡ n }
    ensures each { (segments : List Segment)
        → (number : Option ℕ) × IsNumberOf segments number }
{}

/// In a file that has a store, or has none, no test of a marker or a length fails: it is one list of segments.
pub fn a_located_file_is_segments()
    ensures store { (file : List ℕ) (start len : ℕ) (store : List ℕ)
        → HasJpegStore file start len store
        → (segments : List Segment) × IsOfSegments file segments }
    ensures none { (file : List ℕ)
        → HasNoJpegStore file → (segments : List Segment) × IsOfSegments file segments }
{}
