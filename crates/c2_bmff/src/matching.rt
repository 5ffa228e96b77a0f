// The positions that the boxes on a path exclude.
ghost use Rattle.std.specs.Prelude.{◌≡◌, All, OnOk, IfOk, IfErr};
ghost use Rattle.std.specs.Option.{ForSome};
ghost use Rattle.c2_base.specs.Source.{StaysSource};
ghost use Rattle.c2_bmff_boxes.specs.Causes.{IsBmffCaused, OrBmffFault};
ghost use Rattle.c2_bmff_excluded.specs.Marks.{IsRangeWithin};
ghost use Rattle.c2_bmff.specs.Matched.{AreAllExcluded, AreExcluded};
ghost use Rattle.c2_bmff_rows.specs.Rows.{IsBoxWithin};

use crate::walking::mark_all;
use c2_base::{MediaError, Ranges, Source};
use c2_bmff_boxes::types::Roots;
use c2_bmff_paths::Exclusion;
use std::alloc::Global;
use std::slice;

/// The ranges that an exclusion of a BMFF hash excludes, of the file with these root boxes (C2PA Technical Specification 2.x,
/// "BMFF-based hash"): the boxes on its path that have the stated length and meet the byte tests, or their subset.
///
/// The ranges may overlap. [`MediaError::ReadFault`] comes only where the source failed, [`MediaError::NoMemory`] where memory ran
/// out, and no other error comes.
pub fn match_path<S: Source>(
    alloc: Global,
    source: &mut S,
    roots: &Roots,
    entry: &Exclusion,
) -> Result<Ranges, MediaError>
    requires inside { All (IsBoxWithin (S.len source.old)) roots.now }
    ensures excluded { IfOk result (λ ranges. ForSome (S.known source.old) (λ file.
        AreExcluded file roots.now entry.now ranges)) }
    ensures within { IfOk result (All (IsRangeWithin (S.len source.old))) }
    ensures stays { StaysSource S.len S.known S.faults source.old source.new }
    ensures count { OnOk result (S.faults source.new ≡ S.faults source.old) }
    ensures cause { IfErr result (IsBmffCaused (S.faults source.old) (S.faults source.new)) }
    ensures outside { IfErr result (λ e. OrBmffFault e ⊥) }
{
    match mark_all(alloc, source, roots.as_slice(), slice::from_ref(entry)) {
        Ok(ranges) => Ok(Ranges::from_list(ranges)),
        Err(error) => Err(error),
    }
}

/// The ranges that these exclusions of a BMFF hash exclude together, of the file with these root boxes.
///
/// Each box is visited once for all exclusions. The ranges may overlap, and the errors are those of [`match_path`].
pub fn match_paths<S: Source>(
    alloc: Global,
    source: &mut S,
    roots: &Roots,
    entries: &[Exclusion],
) -> Result<Ranges, MediaError>
    requires inside { All (IsBoxWithin (S.len source.old)) roots.now }
    ensures excluded { IfOk result (λ ranges. ForSome (S.known source.old) (λ file.
        AreAllExcluded file roots.now entries.now ranges)) }
    ensures within { IfOk result (All (IsRangeWithin (S.len source.old))) }
    ensures stays { StaysSource S.len S.known S.faults source.old source.new }
    ensures count { OnOk result (S.faults source.new ≡ S.faults source.old) }
    ensures cause { IfErr result (IsBmffCaused (S.faults source.old) (S.faults source.new)) }
    ensures outside { IfErr result (λ e. OrBmffFault e ⊥) }
{
    match mark_all(alloc, source, roots.as_slice(), entries) {
        Ok(ranges) => Ok(Ranges::from_list(ranges)),
        Err(error) => Err(error),
    }
}
