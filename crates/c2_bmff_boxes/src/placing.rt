// Where the box of a store goes among root boxes.
ghost use Rattle.std.specs.Prelude.{◌≡◌, ◌+◌, ◌<◌, ◌≤◌, ◌^◌, ℕ, List, length, IfOk, IfSome};
ghost use Rattle.c2_bmff_boxes.specs.Places.{HasRoom, place_at, place_behind, place_less};
ghost use Rattle.c2_bmff_boxes.specs.Roots.{AreRootsOf, FillSource, skipped_len};
ghost use Rattle.c2_spec.specs.Bmff.Writing.{place_without};

use crate::root_boxes::Roots;
use c2_base::MediaError;
use c2_bmff_rows::RootBox;

// The type of the box that tells where fragments are.
const MFRA: [u8; 4] = *b"mfra";

// The place at this last box, where so many bytes before it are left out.
fn place_at(last: RootBox, out: u64) -> Result<u64, MediaError>
    requires before { out ≤ last.start }
    requires fits { last.start + last.length < 2 ^ 64 }
    ensures { result ≡ place_at last out }
{
    if last.kind == MFRA {
        return Ok(last.start - out);
    }
    if last.to_end {
        return Err(MediaError::BadBox(last.start));
    }
    Ok(last.start + last.length - out)
}

// The place at the last of these boxes, where so many bytes before it are left out.
fn place_behind(rows: &[RootBox], out: u64) -> Result<u64, MediaError>
    requires { HasRoom out rows.now }
    ensures { result ≡ place_behind out rows.now }
{
    if rows.is_empty() {
        return Ok(0);
    }
    place_at(rows[rows.len() - 1], out)
}

/// Where the box of a store goes in a file with these root boxes, without the one of index `skip` where one is given: to the start of a
/// last root box `mfra`, else to the end of that file. (This is the project's own choice.)
///
/// [`MediaError::BadBox`] with the start of the last box that stays, as the whole file has it, exactly where this box has size 0 and
/// isn't `mfra`: nothing can stand after it. No other error comes. The answer follows from the boxes alone. Takes no memory.
pub fn insert_place(roots: &Roots, skip: Option<usize>) -> Result<u64, MediaError>
    requires { IfSome skip (λ i. i < length roots.now) }
    ensures rows { result ≡ place_less skip roots.now }
    ensures place { (file : List ℕ) → (r : AreRootsOf file roots.now)
        → result ≡ place_without skip r.boxes }
    ensures inside { IfOk result (λ at. (size : ℕ) → FillSource size 0 roots.now
        → at + skipped_len skip roots.now ≤ size) }
{
    let rows = roots.as_slice();
    let Some(skip) = skip else {
        return place_behind(rows, 0);
    };
    if skip + 1 == rows.len() {
        return place_behind(&rows[..skip], 0);
    }
    place_behind(rows, rows[skip].length)
}
