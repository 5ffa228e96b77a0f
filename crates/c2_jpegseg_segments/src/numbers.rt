// The box instance numbers that packets have.
ghost use Rattle.std.specs.Prelude.{◌≡◌, ◌^◌, ◌<◌, length, []};
ghost use Rattle.c2_jpegseg_segments.specs.Passing as passing;
ghost use Rattle.c2_jpegseg_segments.specs.declared.numbers.TheConstants.{MARKS_LEN};

use crate::packet::Packet;
use c2_spec::packets::LEAST_NUMBER;

// How many numbers there are.
const NUMBERS: usize = 65536;

/// How many bytes have a bit for each number.
pub const MARKS_LEN: usize = 8192;

/// No number is marked.
pub fn no_marks() -> [u8; MARKS_LEN]
    ensures { passing.Marks result [] }
{
    [0; MARKS_LEN]
}

/// Marks the number of a packet, if there is one.
#[tactic(auto, unfolding(crate::specs::Passing::with_mark))]
pub fn note(marks: &mut [u8], packet: Option<Packet<'_>>)
    requires { length marks.old ≡ MARKS_LEN }
    ensures { marks.new ≡ passing.noted packet.entry marks.old }
{
    if let Some(packet) = packet {
        let number = packet.en as usize;
        marks[number / 8] |= 1 << (number % 8);
    }
}

// Whether a number is marked.
#[tactic(auto, unfolding(crate::specs::Passing::has_mark))]
fn has_mark(marks: &[u8], number: usize) -> bool
    requires sized { length marks.now ≡ MARKS_LEN }
    requires small { number < 2 ^ 16 }
    ensures { result ≡ passing.has_mark marks.now number }
{
    (marks[number / 8] >> (number % 8)) % 2 == 1
}

/// The least number from 0x0211 on that isn't marked; none where each is.
pub fn least_free(marks: &[u8]) -> Option<u16>
    requires { length marks.now ≡ MARKS_LEN }
    ensures { passing.IsLeastFree marks.now result }
{
    for number in LEAST_NUMBER as usize..NUMBERS {
        if !has_mark(marks, number) {
            return Some(number as u16);
        }
    }
    None
}
