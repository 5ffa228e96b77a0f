// Which entries make a message longer by a wanted number of bytes.
ghost use Rattle.std.specs.Prelude.{◌≡◌, ◌≤◌};
ghost use Rattle.c2_pad.specs.Fill as spec;
ghost use Rattle.c2_pad.specs.Fill.{fill_of};
ghost use Rattle.c2_pad.specs.declared.types.TheConstants.{MAX_FILL};

use crate::types::{Fill, MAX_FILL};

// The fill with the entry `pad` alone, of this many zero bytes.
fn one_entry(zeros: u64) -> Option<Fill>
    requires { zeros ≤ MAX_FILL }
    ensures { result ≡ spec.one_entry zeros }
{
    Some(Fill {
        pad: Some(zeros as u32),
        pad2: None,
    })
}

// The fill with both entries, the second empty.
fn two_entries(zeros: u32) -> Option<Fill>
    ensures { result ≡ spec.two_entries zeros }
{
    Some(Fill {
        pad: Some(zeros),
        pad2: Some(0),
    })
}

#[tactic(auto, unfolding(crate::specs::Fill::fill_of))]
/// The padding that adds `need` bytes to a header of at most 21 other entries: how many zero bytes each entry of it has. There is
/// none for a need that is shorter than any entry, which is 1 to 4, and for one above `MAX_FILL`. Takes no memory.
pub fn fill(need: u64) -> Option<Fill>
    ensures { result ≡ fill_of need }
{
    match need {
        0 => Some(Fill {
            pad: None,
            pad2: None,
        }),
        5..=28 => one_entry(need - 5),
        29 => two_entries(18),
        30..=261 => one_entry(need - 6),
        262 => two_entries(250),
        263..=65_542 => one_entry(need - 7),
        65_543 => two_entries(65_530),
        65_544 => two_entries(65_531),
        65_545..=MAX_FILL => one_entry(need - 9),
        _ => None,
    }
}
