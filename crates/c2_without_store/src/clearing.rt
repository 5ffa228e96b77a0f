// How a BMFF file is cleared of the box of a store.
ghost use Rattle.std.specs.Prelude.{◌≡◌, ◌≤◌, ◌∷◌, ℕ, List, Ok, length, if◌then◌else◌};
ghost use Rattle.c2_bmff_boxes.specs.Roots.{AreRootsOf};
ghost use Rattle.c2_bmff_boxes.specs.Search.{IsStoreOr};
ghost use Rattle.c2_bmff_rows.specs.declared.row.RootBox.{RootBox};
ghost use Rattle.c2_without_store.specs.Clears.{ClearsTo, clearing_in, ends_file, root_clearing};
ghost use Rattle.c2_without_store.specs.Clears.{row_range};
ghost use Rattle.c2_without_store.specs.declared.clearing.Clearing.TheVariants.{Cut, Freed};

use c2_base::{Found, Range};
use c2_bmff_boxes::RootBox;
use c2_bmff_boxes::types::Roots;

// The type of the box that tells where fragments are.
const MFRA: [u8; 4] = *b"mfra";

/// How the box of a store is cleared away.
#[derive(Clone, Copy, Debug, PartialEq, Eq)]
pub enum Clearing {
    /// This range is cut out.
    Cut(Range),
    /// This root box stays as free space: its type is `free`, and zero bytes stand behind its header.
    Freed(RootBox),
}

// Nothing is cut out.
const NO_RANGE: Range = Range {
    start: 0,
    length: 0,
};

/// Whether these rows are none, or that of one `mfra`.
pub(crate) fn ends(rows: &[RootBox]) -> bool
    ensures { result ≡ ends_file rows.now }
{
    rows.is_empty() || (rows.len() == 1 && rows[0].kind == MFRA)
}

// How the first box of these rows is cleared away, which the others follow.
fn first_cleared(rows: &[RootBox]) -> Clearing
    requires { 1 ≤ length rows.now }
    ensures { (r : RootBox) (rs : List RootBox) → rows.now ≡ r ∷ rs
        → result ≡ if ends_file rs then Cut (row_range r) else Freed r }
{
    let row = rows[0];
    if ends(&rows[1..]) {
        return Clearing::Cut(Range {
            start: row.start,
            length: row.length,
        });
    }
    Clearing::Freed(row)
}

// How the box of these rows that begins at this place is cleared away.
fn clearing_in(rows: &[RootBox], start: u64) -> Clearing
    ensures { result ≡ clearing_in start rows.now }
{
    let mut rest = rows;
    while rest.len() > 0 {
        let row = rest[0];
        if row.start == start {
            return first_cleared(rest);
        }
        rest = &rest[1..];
    }
    Clearing::Cut(NO_RANGE)
}

/// How a BMFF file with these root boxes is cleared of the store that was found in it, so that what is left is its base: the box of the
/// store is cut out where it is last or before a last `mfra` alone, and freed elsewhere; nothing is cut out of a file without a store.
/// Takes no memory.
pub fn clearing_of(roots: &Roots, found: &Option<Found>) -> Clearing
    ensures is { result ≡ root_clearing found.now roots.now }
    ensures clears { (file : List ℕ) → AreRootsOf file roots.now → IsStoreOr file (Ok found.now)
        → ClearsTo file result }
{
    let Some(store) = found else {
        return Clearing::Cut(NO_RANGE);
    };
    clearing_in(roots.as_slice(), store.start)
}
