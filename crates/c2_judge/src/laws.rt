// What verdict files hold.
ghost use Rattle.std.specs.Prelude.{◌≡◌, ◌⊎◌, ℕ, List};
ghost use Rattle.c2_spec.specs.declared.panel.VerdictRow as row;
ghost use Rattle.c2_spec.specs.Judges.VerdictFile.{HasRows, HasBadLine};

/// Each file has rows or a first bad line, never both, and never two of either.
pub fn each_file_is_read_one_way()
    ensures some { (file : List ℕ)
        → ((rows : List row.VerdictRow) × HasRows rows file) ⊎ ((n : ℕ) × HasBadLine n file) }
    ensures apart { (file : List ℕ) (rows : List row.VerdictRow) (n : ℕ)
        → HasRows rows file → HasBadLine n file → ⊥ }
    ensures one_list { (file : List ℕ) (rows others : List row.VerdictRow)
        → HasRows rows file → HasRows others file → rows ≡ others }
    ensures one_line { (file : List ℕ) (m n : ℕ)
        → HasBadLine m file → HasBadLine n file → m ≡ n }
{}
