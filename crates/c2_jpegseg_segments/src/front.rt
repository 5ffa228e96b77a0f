// The APP0 segments at the front of a list of segments.
ghost use Rattle.std.specs.Prelude.{◌≡◌, ◌+◌, ◌^◌, ◌<◌, ◌≤◌, length, List, ◌++◌, ◌∷◌, []};
ghost use Rattle.c2_spec.specs.Jpeg.Segments.{Segment, segment_bytes};
ghost use Rattle.c2_jpegseg_segments.specs.Fronts.{IsFront};

use c2_spec::markers::APP0;

/// The APP0 segments at the front of some segments: where they end in a file of these alone, and whether there are no others.
#[derive(Clone, Copy, Debug, PartialEq, Eq)]
pub struct Front {
    pub end: u64,
    pub only: bool,
}

/// The front of the segments with one more, which has this marker and `len` bytes.
pub fn grown(front: Front, marker: u8, len: u64) -> Front
    requires { front.end + len < 2 ^ 64 }
    ensures front { (ss : List Segment) (s : Segment) → s.marker ≡ marker
        → length (segment_bytes s) ≡ len → IsFront front ss → IsFront result (ss ++ s ∷ []) }
    ensures most { result.end ≤ front.end + len }
{
    if front.only && marker == APP0 {
        return Front {
            end: front.end + len,
            only: true,
        };
    }
    Front {
        only: false,
        ..front
    }
}
