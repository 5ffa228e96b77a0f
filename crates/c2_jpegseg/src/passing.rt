// Which segments a walk passes over.
ghost use Rattle.std.specs.Prelude.{◌≡◌, ◌≤◌};
ghost use Rattle.c2_jpegseg_segments.specs.Passing as passing;

use c2_base::Range;

/// Whether what is between two places lies in the range.
pub fn is_inside(skip: Range, from: u64, to: u64) -> bool
    requires { from ≤ to }
    ensures { result ≡ passing.is_inside skip from to }
{
    skip.start <= from && to - skip.start <= skip.length
}
