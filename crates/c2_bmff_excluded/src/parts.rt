// Parts of boxes in the order of their starts, joined where they overlap or touch.
ghost use Rattle.std.specs.Prelude.{◌≡◌, ◌≤◌, ◌||◌, ℕ, All, OnOk, IfOk, IfSome};
ghost use Rattle.std.specs.List.{list_any};
ghost use Rattle.std.specs.List.Sorted.{IsPermutation};
ghost use Rattle.c2_spec.specs.Bmff.Hash.{in_part};
ghost use Rattle.c2_bmff_excluded.specs.Parts.{AreRising, HoldSame, StartsBy};

use c2_base::{NoMemory, Range};
use std::alloc::Global;

// One part for two, where the second begins in the first or at its end; None also where their end is no 64-bit number.
fn joined(first: Range, second: Range) -> Option<Range>
    requires { first.start ≤ second.start }
    ensures start { IfSome result (λ both. both.start ≡ first.start) }
    ensures same { IfSome result
        (λ both. (i : ℕ) → in_part i both ≡ (in_part i first || in_part i second)) }
{
    if first.length == 0 {
        return Some(first);
    }
    let from = second.start - first.start;
    if from > first.length {
        return None;
    }
    if second.length == 0 {
        return Some(Range {
            start: first.start,
            length: 0,
        });
    }
    let end = from.checked_add(second.length)?;
    Some(Range {
        start: first.start,
        length: first.length.max(end),
    })
}

// Adds a part that begins no earlier than the others, to the last of them where it can be joined to that.
fn add_part(parts: &mut Vec<Range>, part: Range) -> Result<(), NoMemory>
    requires { All (StartsBy part.start) parts.old.items }
    ensures same { OnOk result ((i : ℕ) → list_any (in_part i) parts.new.items
        ≡ (list_any (in_part i) parts.old.items || in_part i part)) }
    ensures rising { OnOk result (AreRising parts.old.items → AreRising parts.new.items) }
    ensures below { OnOk result ((n : ℕ) → part.start ≤ n → All (StartsBy n) parts.new.items) }
{
    let Some(last) = parts.pop() else {
        parts.push(part)?;
        return Ok(());
    };
    let Some(both) = joined(last, part) else {
        parts.push(last)?;
        parts.push(part)?;
        return Ok(());
    };
    parts.push(both)?;
    Ok(())
}

// These parts, joined, where their starts rise, from one to the next or not at all.
fn joined_all(alloc: Global, parts: &[Range]) -> Result<Vec<Range>, NoMemory>
    requires { AreRising parts.now }
    ensures same { IfOk result (λ done. HoldSame done.items parts.now) }
    ensures rising { IfOk result (λ done. AreRising done.items) }
{
    let mut done = Vec::new(alloc);
    for part in parts {
        add_part(&mut done, *part)?;
    }
    Ok(done)
}

// A copy of these parts in the order of their starts.
fn sorted(alloc: Global, parts: &[Range]) -> Result<Vec<Range>, NoMemory>
    ensures same { IfOk result (λ done. IsPermutation parts.now done.items) }
    ensures rising { IfOk result (λ done. AreRising done.items) }
{
    let mut done = Vec::from_slice(alloc, parts)?;
    done.sort_unstable_by_key(|part| part.start);
    Ok(done)
}

/// Parts in the order of their starts that hold the same positions.
pub(crate) fn merged(alloc: Global, parts: &[Range]) -> Result<Vec<Range>, NoMemory>
    ensures same { IfOk result (λ done. HoldSame done.items parts.now) }
    ensures rising { IfOk result (λ done. AreRising done.items) }
{
    let parts = sorted(alloc, parts)?;
    let done = joined_all(alloc, parts.as_slice())?;
    Ok(done)
}
