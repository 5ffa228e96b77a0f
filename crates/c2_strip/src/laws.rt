// Laws of files without their stores; nothing is computed.
ghost use Rattle.std.specs.Prelude.{◌≡◌, ◌∷◌, [], ◌+◌, ◌<◌, ◌≤◌, ◌^◌, ℕ, List, All, length};
ghost use Rattle.c2_base.specs.declared.values.Range.{Range as AnyRange};
ghost use Rattle.c2_spec.specs.Cover.{data_text};
ghost use Rattle.c2_strip.specs.Stripping.{StripsTo, stripped};
ghost use Rattle.c2_strip.specs.declared.error.Stripped.{Stripped as AnyStripped};

/// Whatever bytes a file has, it comes to one thing without its store.
pub fn each_file_is_stripped()
    ensures each { (file : List ℕ) → All (λ b. b < 2 ^ 8) file
        → (a : AnyStripped) × StripsTo file a }
    ensures once { (file : List ℕ) (a b : AnyStripped) → StripsTo file a → StripsTo file b → a ≡ b }
{}

/// A file less a range is the list of its bytes at the positions outside of this range, in order: what a data hash covers that excludes
/// this range alone.
pub fn a_stripped_file_is_what_is_outside()
    ensures { (file : List ℕ) (range : AnyRange) → range.start + range.length ≤ length file
        → stripped range file ≡ data_text (range ∷ []) file }
{}
