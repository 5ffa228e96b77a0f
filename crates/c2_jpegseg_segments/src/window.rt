// The bytes of a source that were read last, so that small reads don't each ask the source.
ghost use Rattle.std.specs.Prelude.{◌≡◌, ◌+◌, ◌-◌, ◌<◌, ◌≤◌, length, take, drop, ℕ, List, Option};
ghost use Rattle.std.specs.Prelude.{OnOk, IfOk};
ghost use Rattle.c2_base.specs.Causes.{HasCause};
ghost use Rattle.c2_base.specs.Source.{StaysSource};
ghost use Rattle.c2_base.specs.declared.limits.TheConstants.{PIECE_LEN};
ghost use Rattle.c2_jpegseg_segments.specs.Windows.{Shows, Covers, IsByteAt, FilledFrom};

use c2_base::limits::PIECE_LEN;
use c2_base::{Failed, NoMemory, Source, fill_at};
use std::alloc::Global;

/// Bytes of a source of `size` bytes: `used` of them from the place `from` on. It has room for as many as are read at once, so a
/// segment's payload fits.
#[derive(Drop)]
pub struct Window {
    pub size: u64,
    pub bytes: Vec<u8>,
    pub from: u64,
    pub used: usize,
}

/// Bytes of a source that are shown one at a time.
pub trait Bytes {
    ghost use Rattle.c2_jpegseg_segments.specs.Windows.{IsByteAt};

    // it shows a source of this length that has these bytes, where they are known
    ghost shows: { ℕ → Option (List ℕ) → Self → Type 0 };

    /// The byte at `pos`.
    fn byte_at<S: Source>(&mut self, source: &mut S, pos: u64) -> Result<u8, Failed>
        requires inside { pos < S.len source.old }
        requires shows { shows (S.len source.old) (S.known source.old) self.old }
        ensures stays { StaysSource S.len S.known S.faults source.old source.new }
        ensures cause { HasCause (S.faults source.old) (S.faults source.new) result }
        ensures shows { OnOk result (shows (S.len source.old) (S.known source.old) self.new) }
        ensures byte { IfOk result (IsByteAt (S.known source.old) pos) };
}

/// Fills the first `count` bytes of `bytes` with those from `pos` on.
pub fn fill_first<S: Source>(
    source: &mut S,
    pos: u64,
    bytes: &mut [u8],
    count: usize,
) -> Result<(), Failed>
    requires inside { pos + count ≤ S.len source.old }
    requires room { count ≤ length bytes.old }
    ensures stays { StaysSource S.len S.known S.faults source.old source.new }
    ensures cause { HasCause (S.faults source.old) (S.faults source.new) result }
    ensures filled { OnOk result (FilledFrom (S.known source.old) pos count bytes.new) }
{
    // A tail call isn't proved: what it wrote into the part is not carried over to the whole.
    fill_at(source, pos, &mut bytes[..count])?;
    Ok(())
}

impl Window {
    /// A window without bytes, on a source of `size` bytes.
    pub fn new(alloc: Global, size: u64) -> Result<Window, NoMemory>
        ensures { IfOk result (λ w. (known : Option (List ℕ)) → Shows size known w) }
    {
        let bytes = vec![in alloc; 0; PIECE_LEN]?;
        Ok(Window {
            size,
            bytes,
            from: 0,
            used: 0,
        })
    }

    /// The `count` bytes from `pos` on.
    pub fn slice(&self, pos: u64, count: usize) -> &[u8]
        requires { Covers self.now pos count }
        ensures { result.now ≡ take count (drop (pos - self.now.from) self.now.bytes.items) }
    {
        let start = (pos - self.from) as usize;
        &self.bytes[start..start + count]
    }

    /// Makes the window show the `count` bytes from `pos` on.
    pub fn load<S: Source>(&mut self, source: &mut S, pos: u64, count: usize) -> Result<(), Failed>
        requires inside { pos + count ≤ S.len source.old }
        requires room { count ≤ PIECE_LEN }
        requires shows { Shows (S.len source.old) (S.known source.old) self.old }
        ensures stays { StaysSource S.len S.known S.faults source.old source.new }
        ensures cause { HasCause (S.faults source.old) (S.faults source.new) result }
        ensures shows { OnOk result (Shows (S.len source.old) (S.known source.old) self.new) }
        ensures covers { OnOk result (Covers self.new pos count) }
    {
        if self.from <= pos && pos + count as u64 <= self.from + self.used as u64 {
            return Ok(());
        }
        let room = (self.size - pos).min(PIECE_LEN as u64) as usize;
        fill_first(source, pos, &mut self.bytes, room)?;
        self.from = pos;
        self.used = room;
        Ok(())
    }
}

impl Bytes for Window {
    ghost use Rattle.c2_jpegseg_segments.specs.Windows.{Shows};

    ghost shows = { Shows };

    fn byte_at<S: Source>(&mut self, source: &mut S, pos: u64) -> Result<u8, Failed> {
        self.load(source, pos, 1)?;
        let bytes = self.bytes.as_slice();
        Ok(bytes[(pos - self.from) as usize])
    }
}
