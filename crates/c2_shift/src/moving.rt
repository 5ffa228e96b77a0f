// How far places are moved.
ghost use Rattle.std.specs.Prelude.{◌≡◌, ◌+◌};
ghost use Rattle.c2_bmff_chunks.specs.Fields.{field_limit, moved};
ghost use Rattle.c2_shift.specs.Fitting.{is_too_large};

/// From which place on places are moved, and by how many bytes.
#[derive(Clone, Copy, Debug, PartialEq, Eq)]
pub struct Shift {
    /// The first place that is moved.
    pub from: u64,
    /// By how many bytes a place is moved.
    pub by: u64,
}

// The greatest number of a field.
fn most(wide: bool) -> u64
    ensures { result + 1 ≡ field_limit wide }
{
    if wide { u64::MAX } else { u32::MAX as u64 }
}

impl Shift {
    /// Whether this place in a field is moved, and then doesn't fit into it.
    pub fn overflows(&self, wide: bool, number: u64) -> bool
        ensures { result ≡ is_too_large wide self.now.from self.now.by number }
    {
        if number < self.from {
            return false;
        }
        match number.checked_add(self.by) {
            Some(sum) => sum > most(wide),
            None => true,
        }
    }

    /// What a field of this number has once its place is moved.
    pub fn moved(&self, wide: bool, number: u64) -> u64
        ensures { result ≡ moved wide self.now.from self.now.by number }
    {
        match number.checked_add(self.by) {
            Some(sum) => {
                if number < self.from || sum > most(wide) {
                    return number;
                }
                sum
            }
            None => number,
        }
    }
}
