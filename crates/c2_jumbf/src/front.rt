// Heads of boxes.
ghost use Rattle.std.specs.Prelude.{◌≡◌, ◌+◌, ◌<◌, ◌≤◌, length, take, drop, None, Some, IfOk};
ghost use Rattle.std.specs.Prelude.{IfErr};
ghost use Rattle.std.specs.Int.{w32, w64, to_be_bytes, from_be_bytes};
ghost use Rattle.c2_spec.specs.Jumbf.Faults.{box_head_fault};
ghost use Rattle.c2_spec.specs.Jumbf.Boxes.{told_head};
ghost use Rattle.c2_jumbf.specs.Heads.{IsHead};

use c2_spec::{Head, JumbfError};

/// What the head of a box says: the header's length, the box's length with it, and TBox as a number.
#[derive(Clone, Copy, Debug)]
pub struct Front {
    pub header: usize,
    pub total: usize,
    pub kind: u32,
}

fn u32_at(bytes: &[u8], at: usize) -> u32
    requires { at + 4 ≤ length bytes.now }
    ensures { result ≡ from_be_bytes w32 (take 4 (drop at bytes.now)) }
{
    u32::from_be_bytes([bytes[at], bytes[at + 1], bytes[at + 2], bytes[at + 3]])
}

fn u64_at(bytes: &[u8], at: usize) -> u64
    requires { at + 8 ≤ length bytes.now }
    ensures { result ≡ from_be_bytes w64 (take 8 (drop at bytes.now)) }
{
    u64::from_be_bytes([
        bytes[at],
        bytes[at + 1],
        bytes[at + 2],
        bytes[at + 3],
        bytes[at + 4],
        bytes[at + 5],
        bytes[at + 6],
        bytes[at + 7],
    ])
}

/// The head of the box that begins the bytes and ends within them; `at` is its place.
#[tactic(auto, unfolding(c2_spec::specs::Jumbf::Faults::box_head_fault))]
pub fn head_at(bytes: &[u8], at: usize) -> Result<Front, JumbfError>
    ensures ok { IfOk result (IsHead bytes.now) }
    ensures err { IfErr result (λ e. box_head_fault at bytes.now ≡ Some e) }
{
    if bytes.len() < 8 {
        return Err(JumbfError::BadHead(at));
    }
    let short = u32_at(bytes, 0);
    let kind = u32_at(bytes, 4);
    if short == 1 {
        if bytes.len() < 16 {
            return Err(JumbfError::BadHead(at));
        }
        let total = u64_at(bytes, 8);
        if total < 16 {
            return Err(JumbfError::BadHead(at));
        }
        if total > bytes.len() as u64 {
            return Err(JumbfError::Overrun(at));
        }
        return Ok(Front {
            header: 16,
            total: total as usize,
            kind,
        });
    }
    if short < 8 {
        return Err(JumbfError::BadHead(at));
    }
    if short as usize > bytes.len() {
        return Err(JumbfError::Overrun(at));
    }
    Ok(Front {
        header: 8,
        total: short as usize,
        kind,
    })
}

/// The header of the box that begins at a place and ends at or before the end of the bytes (ISO/IEC 19566-5, A.2).
/// `BadHead` where no header is there, `Overrun` where the box ends after the bytes.
pub fn head(bytes: &[u8], at: usize) -> Result<Head, JumbfError>
    requires inside { at ≤ length bytes.now }
    ensures ok { IfOk result (λ h. (box_head_fault at (drop at bytes.now) ≡ None)
        × (h ≡ told_head (drop at bytes.now))) }
    ensures err { IfErr result (λ e. box_head_fault at (drop at bytes.now) ≡ Some e) }
{
    match head_at(&bytes[at..], at) {
        Ok(front) => Ok(Head {
            header: front.header,
            total: front.total,
            kind: front.kind.to_be_bytes(),
        }),
        Err(fault) => Err(fault),
    }
}
