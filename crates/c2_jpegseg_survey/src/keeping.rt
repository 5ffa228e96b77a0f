// What a walk knows of the segments outside the packets of a store.
ghost use Rattle.std.specs.Prelude.{◌≡◌, ◌+◌, ◌^◌, ◌<◌, ◌≤◌, length, List, [], ◌++◌};
ghost use Rattle.c2_spec.specs.Jpeg.Segments.{Segment, segment_bytes};
ghost use Rattle.c2_jpegseg_segments.specs.Packets.{Reads};
ghost use Rattle.c2_jpegseg_segments.specs.Passing.{kept_with};
ghost use Rattle.c2_jpegseg_segments.specs.declared.numbers.TheConstants.{MARKS_LEN};

use c2_jpegseg_segments::{Front, MARKS_LEN, Packet, grown, no_marks, note};

/// The APP0 segments at the front of those that are kept, and a mark for each number that a packet among them has.
#[derive(Drop)]
pub struct Kept {
    pub front: Front,
    pub marks: [u8; MARKS_LEN],
    ghost sized: { length marks ≡ MARKS_LEN },
}

impl Kept {
    ghost use Rattle.c2_jpegseg_survey.specs.Keeping.{IsKept};

    /// What is known before the first segment.
    pub fn new() -> Kept
        ensures { IsKept result [] }
    {
        let front = Front { end: 2, only: true };
        let marks = no_marks();
        Kept { front, marks }
    }

    /// Goes on to a segment of `len` bytes with this marker, which is this packet, if it is one. A segment that is taken into a store is
    /// passed over.
    pub fn pass(&mut self, taken: bool, marker: u8, len: u64, packet: Option<Packet<'_>>)
        requires { self.old.front.end + len < 2 ^ 64 }
        ensures kept { (ss : List Segment) (s : Segment) → s.marker ≡ marker
            → length (segment_bytes s) ≡ len → Reads s packet.entry → IsKept self.old ss
            → IsKept self.new (ss ++ kept_with taken s []) }
        ensures most { self.new.front.end ≤ self.old.front.end + len }
    {
        if taken {
            return;
        }
        self.front = grown(self.front, marker, len);
        note(&mut self.marks, packet);
    }
}
