// Root boxes from rows, and how far they reach.
ghost use Rattle.std.specs.Prelude.{◌≡◌, ℕ};
ghost use Rattle.c2_bmff_boxes.specs.Roots.{FillFile, FillSource};

use crate::root_boxes::Roots;
use c2_bmff_rows::RootBox;

/// The root boxes of these rows, each of which begins where the one before it ends.
pub fn roots_of(rows: Vec<RootBox>) -> Roots
    requires { FillFile rows.items }
    ensures { result ≡ rows.items }
{
    Roots { rows }
}

/// Where the last of these root boxes ends: the length of a file that they fill. Takes no memory.
pub fn roots_len(roots: &Roots) -> u64
    ensures { (size : ℕ) → FillSource size 0 roots.now → result ≡ size }
{
    let rows = roots.as_slice();
    if rows.is_empty() {
        return 0;
    }
    let last = rows[rows.len() - 1];
    last.start + last.length
}
