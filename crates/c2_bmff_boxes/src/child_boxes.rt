// The boxes inside others.
ghost use Rattle.std.specs.Prelude.{◌≡◌, ◌+◌, ◌≤◌, take, drop, All, OnOk, IfOk, IfErr, IfSome};
ghost use Rattle.std.specs.Prelude.{option_map};
ghost use Rattle.std.specs.Option.{ForSome};
ghost use Rattle.c2_base.specs.Causes.{HasCause};
ghost use Rattle.c2_base.specs.Source.{ReadsSource, StaysSource};
ghost use Rattle.c2_bmff_boxes.specs.Causes.{IsBmffCaused, OrBmffFault};
ghost use Rattle.c2_bmff_boxes.specs.Children.{IsChildHead, IsHeadWithin, IsListOf, part_between};
ghost use Rattle.c2_bmff_boxes.specs.Children.{rows_between, rows_len};
ghost use Rattle.c2_bmff_boxes.specs.Roots.{FillSource};
ghost use Rattle.c2_bmff_rows.specs.Rows.{IsRowWithin};
ghost use Rattle.c2_bmff_rows.specs.Children.{kids};

use crate::header::{BoxHead, box_head};
use crate::root_boxes::{Roots, fill_first, keep};
use c2_base::{Failed, MediaError, Source};
use c2_bmff_rows::RootBox;
use std::alloc::Global;

// The header of the box that begins at `at`, where `left` bytes are left of what holds it; None where none stands there that says
// its size.
fn child_head<S: Source>(source: &mut S, at: u64, left: u64) -> Result<Option<BoxHead>, Failed>
    requires inside { at + left ≤ S.len source.old }
    ensures stays { StaysSource S.len S.known S.faults source.old source.new }
    ensures cause { HasCause (S.faults source.old) (S.faults source.new) result }
    ensures within { IfOk result (λ h. IfSome h (IsHeadWithin left)) }
    ensures read { IfOk result
        (λ h. ForSome (S.known source.old) (λ file. IsChildHead (take left (drop at file)) h)) }
{
    let mut bytes = [0; 16];
    let count = left.min(16) as usize;
    fill_first(source, at, &mut bytes, count)?;
    match box_head(&bytes[..count], left) {
        Ok(head) => {
            if head.to_end {
                return Ok(None);
            }
            Ok(Some(head))
        }
        Err(_) => Ok(None),
    }
}

// The rows of the boxes from one place of a source to another; None where no list of boxes that say their sizes fills these bytes.
fn list_between<S: Source>(
    alloc: Global,
    source: &mut S,
    start: u64,
    end: u64,
) -> Result<Option<Vec<RootBox>>, MediaError>
    requires ordered { start ≤ end }
    requires inside { end ≤ S.len source.old }
    ensures list { IfOk result (λ l. ForSome (S.known source.old) (λ file.
        option_map (λ v. v.items) l ≡ rows_between file start end)) }
    ensures fill { IfOk result (λ l. IfSome l (λ v. FillSource end start v.items)) }
    ensures stays { StaysSource S.len S.known S.faults source.old source.new }
    ensures count { OnOk result (S.faults source.new ≡ S.faults source.old) }
    ensures cause { IfErr result (IsBmffCaused (S.faults source.old) (S.faults source.new)) }
    ensures outside { IfErr result (λ e. OrBmffFault e ⊥) }
{
    let mut rows = Vec::new(alloc);
    let len = end - start;
    let mut done = 0;
    'boxes: while done < len {
        let Some(head) = child_head(source, start + done, len - done)? else {
            return Ok(None);
        };
        keep(&mut rows, start + done, head)?;
        done += head.length;
    }
    Ok(Some(rows))
}

/// The list of boxes from one place of a source to another, which each say their size; None exactly where there is no such list.
///
/// [`MediaError::ReadFault`] comes only where the source failed, [`MediaError::NoMemory`] where memory ran out, and no other error comes.
pub fn boxes_between<S: Source>(
    alloc: Global,
    source: &mut S,
    start: u64,
    end: u64,
) -> Result<Option<Roots>, MediaError>
    requires ordered { start ≤ end }
    requires inside { end ≤ S.len source.old }
    ensures list { IfOk result (λ l. ForSome (S.known source.old) (λ file.
        IsListOf (part_between file start end) start l)) }
    ensures rows { IfOk result (λ l. ForSome (S.known source.old) (λ file.
        l ≡ rows_between file start end)) }
    ensures fill { IfOk result (λ l. IfSome l (FillSource end start)) }
    ensures reads { ReadsSource S.len S.known S.faults IsBmffCaused source.old source.new result }
    ensures outside { IfErr result (λ e. OrBmffFault e ⊥) }
{
    // Matched and not handed up by `?`: each way out has clauses of its own.
    match list_between(alloc, source, start, end) {
        Ok(Some(rows)) => Ok(Some(Roots { rows })),
        Ok(None) => Ok(None),
        Err(error) => Err(error),
    }
}

/// The children of the box of this row, which lies in the source; none where no list of boxes that say their sizes fills its payload.
///
/// [`MediaError::ReadFault`] comes only where the source failed, [`MediaError::NoMemory`] where memory ran out, and no other error comes.
pub fn children<S: Source>(
    alloc: Global,
    source: &mut S,
    parent: RootBox,
) -> Result<Vec<RootBox>, MediaError>
    requires inside { IsRowWithin (S.len source.old) parent }
    ensures rows { IfOk result
        (λ rows. ForSome (S.known source.old) (λ file. rows.items ≡ kids file parent)) }
    ensures within { IfOk result (λ rows. All (IsRowWithin (S.len source.old)) rows.items) }
    ensures total { IfOk result (λ rows. rows_len rows.items + parent.header ≤ parent.length) }
    ensures stays { StaysSource S.len S.known S.faults source.old source.new }
    ensures count { OnOk result (S.faults source.new ≡ S.faults source.old) }
    ensures cause { IfErr result (IsBmffCaused (S.faults source.old) (S.faults source.new)) }
    ensures outside { IfErr result (λ e. OrBmffFault e ⊥) }
{
    let start = parent.start + parent.header;
    let end = parent.start + parent.length;
    // Matched and not handed up by `?`: each way out has clauses of its own.
    match list_between(alloc, source, start, end) {
        Ok(Some(rows)) => Ok(rows),
        Ok(None) => Ok(Vec::new(alloc)),
        Err(error) => Err(error),
    }
}
