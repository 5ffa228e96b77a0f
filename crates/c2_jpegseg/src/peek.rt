// A few bytes of a source that were read last, for walks that take no memory.
ghost use Rattle.std.specs.Prelude.{◌+◌, ◌<◌, ℕ, List, Option, OnOk};
ghost use Rattle.c2_base.specs.Causes.{HasCause};
ghost use Rattle.c2_base.specs.Source.{StaysSource};
ghost use Rattle.c2_jpegseg.specs.Peeks.{Peeks, HasByte};

use c2_base::{Failed, Source};
use c2_jpegseg_segments::{Bytes, fill_first};

// How many bytes are read at once.
const PEEK_LEN: usize = 4096;

/// Bytes of a source of `size` bytes: `used` of them from the place `from` on.
#[derive(Drop)]
pub struct Peek {
    pub size: u64,
    pub bytes: [u8; PEEK_LEN],
    pub from: u64,
    pub used: usize,
}

impl Peek {
    /// A peek without bytes, on a source of `size` bytes.
    pub fn new(size: u64) -> Peek
        ensures { (known : Option (List ℕ)) → Peeks size known result }
    {
        Peek {
            size,
            bytes: [0; PEEK_LEN],
            from: 0,
            used: 0,
        }
    }

    // Makes the peek show the byte at `pos`.
    fn load<S: Source>(&mut self, source: &mut S, pos: u64) -> Result<(), Failed>
        requires inside { pos < S.len source.old }
        requires shows { Peeks (S.len source.old) (S.known source.old) self.old }
        ensures stays { StaysSource S.len S.known S.faults source.old source.new }
        ensures cause { HasCause (S.faults source.old) (S.faults source.new) result }
        ensures shows { OnOk result (Peeks (S.len source.old) (S.known source.old) self.new) }
        ensures has { OnOk result (HasByte self.new pos) }
    {
        if self.from <= pos && pos < self.from + self.used as u64 {
            return Ok(());
        }
        let room = (self.size - pos).min(PEEK_LEN as u64) as usize;
        fill_first(source, pos, &mut self.bytes, room)?;
        self.from = pos;
        self.used = room;
        Ok(())
    }
}

impl Bytes for Peek {
    ghost use Rattle.c2_jpegseg.specs.Peeks.{Peeks};

    ghost shows = { Peeks };

    fn byte_at<S: Source>(&mut self, source: &mut S, pos: u64) -> Result<u8, Failed> {
        self.load(source, pos)?;
        Ok(self.bytes[(pos - self.from) as usize])
    }
}
