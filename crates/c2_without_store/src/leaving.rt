// The root boxes that are left of a file.
ghost use Rattle.std.specs.Prelude.{◌≡◌, ◌≤◌, ◌∷◌, ◌++◌, ℕ, List, Ok, length, IfOk, OnOk};
ghost use Rattle.c2_bmff_boxes.specs.Roots.{AreRootsOf, FillSource};
ghost use Rattle.c2_bmff_boxes.specs.Search.{IsStoreOr};
ghost use Rattle.c2_bmff_rows.specs.declared.row.RootBox.{RootBox};
ghost use Rattle.c2_without_store.specs.Clears.{AreRootsLeft, cleared_len, root_clearing};
ghost use Rattle.c2_without_store.specs.Clears.{rows_behind, rows_left};

use crate::clearing::ends;
use c2_base::{Found, NoMemory};
use c2_bmff_boxes::types::Roots;
use c2_bmff_boxes::{RootBox, roots_of};
use std::alloc::Global;

// The type of free space.
const FREE: [u8; 4] = *b"free";

// Adds what is left of these rows, once the box of the first is cleared away.
fn put_behind(left: &mut Vec<RootBox>, rows: &[RootBox]) -> Result<(), NoMemory>
    requires { 1 ≤ length rows.now }
    ensures { (r : RootBox) (rs : List RootBox) → rows.now ≡ r ∷ rs
        → OnOk result (left.new.items ≡ left.old.items ++ rows_behind r rs) }
{
    let gone = rows[0];
    let behind = &rows[1..];
    if !ends(behind) {
        left.push(RootBox { kind: FREE, ..gone })?;
        left.extend_from_slice(behind)?;
        return Ok(());
    }
    if behind.len() > 0 {
        let last = behind[0];
        left.push(RootBox {
            start: last.start.saturating_sub(gone.length),
            ..last
        })?;
    }
    Ok(())
}

// What is left of these rows, once the box that begins at this place is cleared away.
fn rows_left(alloc: Global, rows: &[RootBox], start: u64) -> Result<Vec<RootBox>, NoMemory>
    ensures { IfOk result (λ left. left.items ≡ rows_left start rows.now) }
{
    let mut left = Vec::new(alloc);
    let mut rest = rows;
    while rest.len() > 0 {
        let row = rest[0];
        if row.start == start {
            put_behind(&mut left, rest)?;
            return Ok(left);
        }
        left.push(row)?;
        rest = &rest[1..];
    }
    Ok(left)
}

// All of these rows, where nothing is cleared away.
fn all_rows(alloc: Global, rows: &[RootBox]) -> Result<Vec<RootBox>, NoMemory>
    ensures { IfOk result (λ all. all.items ≡ rows.now) }
{
    let mut all = Vec::new(alloc);
    all.extend_from_slice(rows)?;
    Ok(all)
}

/// The root boxes of what is left of a BMFF file with these, once it is cleared of the store that was found in it: the box of the store
/// is left out, and a last `mfra` behind it begins earlier; or that box is of the type `free`. The file isn't read.
pub fn roots_left(alloc: Global, roots: &Roots, found: &Option<Found>) -> Result<Roots, NoMemory>
    ensures roots { (file : List ℕ) → AreRootsOf file roots.now → IsStoreOr file (Ok found.now)
        → IfOk result (AreRootsLeft file (root_clearing found.now roots.now)) }
    ensures fill { (len : ℕ) → FillSource len 0 roots.now → IfOk result
        (FillSource (cleared_len (root_clearing found.now roots.now) len) 0) }
{
    let rows = roots.as_slice();
    let Some(store) = found else {
        let all = all_rows(alloc, rows)?;
        return Ok(roots_of(all));
    };
    let left = rows_left(alloc, rows, store.start)?;
    Ok(roots_of(left))
}
