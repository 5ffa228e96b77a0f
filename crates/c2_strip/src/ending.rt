// What a located store comes to when it is taken out.
ghost use Rattle.std.specs.Prelude.{◌≡◌, ◌+◌, ◌<◌, ◌^◌, ℕ, List, Ok};
ghost use Rattle.c2_container.specs.Contained.{IsSaid, IsWithin};
ghost use Rattle.c2_strip.specs.Answers.{IsAnswerOf};
ghost use Rattle.c2_strip.specs.Endings.{ends_with, is_last};
ghost use Rattle.c2_strip.specs.Stripping.{StripsTo};

use crate::Stripped;
use c2_base::Range;
use c2_bmff_boxes::RootBox;
use c2_container::{Contained, Container};

// The type of the box that tells where fragments are.
const MFRA: [u8; 4] = *b"mfra";

// Whether this last row is that of the box with this range, or of an `mfra` that follows it.
fn ends_with(last: RootBox, range: Range) -> bool
    requires { range.start + range.length < 2 ^ 64 }
    ensures { result ≡ ends_with range last }
{
    last.start == range.start || (last.start == range.start + range.length && last.kind == MFRA)
}

// Whether the last of these rows is that of the box with this range, or of an `mfra` that follows it.
fn is_last(rows: &[RootBox], range: Range) -> bool
    requires { range.start + range.length < 2 ^ 64 }
    ensures { result ≡ is_last range rows.now }
{
    if rows.is_empty() {
        return false;
    }
    ends_with(rows[rows.len() - 1], range)
}

/// What a file that was located so comes to without its store.
pub(crate) fn answer_of(contained: &Contained) -> Stripped
    requires { (len : ℕ) × (len < 2 ^ 64) × IsWithin len contained.now }
    ensures strips { (file : List ℕ) → IsSaid file (Ok contained.now) → StripsTo file result }
    ensures within { (len : ℕ) → IsWithin len contained.now → IsAnswerOf len result }
{
    let Some(found) = &contained.found else {
        return Stripped::NoStore;
    };
    let range = Range {
        start: found.start,
        length: found.length,
    };
    match &contained.container {
        Container::Jpeg => Stripped::Done(range),
        Container::Bmff(roots) => {
            let ends = is_last(roots.as_slice(), range);
            if ends {
                return Stripped::Done(range);
            }
            Stripped::Middle(range.start)
        }
    }
}
