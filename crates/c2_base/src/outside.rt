// What the library knows of the outside.
ghost use Rattle.std.specs.Prelude.{◌≡◌, ℕ, ◌-◌, ◌^◌, ◌<◌, Bool, true, List, All, length, IfOk};
ghost use Rattle.std.specs.Prelude.{OnOk, OnErr};
ghost use Rattle.std.specs.declared.option.Option.{Option};
ghost use Rattle.std.specs.Option.{ForSome};
ghost use Rattle.c2_base.specs.Causes.{HasCause};
ghost use Rattle.c2_base.specs.Source.{StaysSource, IsReadCount, ReadsAt};
ghost use Rattle.c2_base.specs.Sink.{taken, taken_len, Appends, Spends, OkWithinSpare};
ghost use Rattle.c2_base.specs.Sink.{IsAppendCount};

use std::alloc::{AllocError, AllocFailed};

/// A source or a sink failed. Its count of faults rose then, or stands at its counter's last value.
#[derive(Clone, Copy, Debug, PartialEq, Eq)]
pub struct Failed;

/// Out of memory.
#[derive(Clone, Copy, Debug, PartialEq, Eq)]
pub struct NoMemory;

impl From<AllocError> for NoMemory {
    fn from(_error: AllocError) -> NoMemory {
        NoMemory
    }
}

impl<T: Drop> From<AllocFailed<T>> for NoMemory {
    fn from(_error: AllocFailed<T>) -> NoMemory {
        NoMemory
    }
}

/// Bytes at places, which may fail to come.
///
/// Its length never changes, and neither do its bytes, where they are known. Its count of faults never falls.
pub trait Source {
    // the number of bytes
    ghost len: { Self → ℕ };

    // the bytes, where they are known
    ghost known: { Self → Option (List ℕ) };

    // how often it has failed
    ghost faults: { Self → ℕ };

    /// The length in bytes.
    fn size(&mut self) -> Result<u64, Failed>
        ensures stays { StaysSource len known faults self.old self.new }
        ensures cause { HasCause (faults self.old) (faults self.new) result }
        ensures length { IfOk result (λ n. n ≡ len self.old) };

    /// Puts bytes from `pos` on into the first places of `buf`, and says how many: 0 only where `pos` isn't below the
    /// length, or `buf` is empty. Where the bytes are known, the rest of `buf` stays as it was.
    fn read_at(&mut self, pos: u64, buf: &mut [u8]) -> Result<usize, Failed>
        ensures stays { StaysSource len known faults self.old self.new }
        ensures cause { HasCause (faults self.old) (faults self.new) result }
        ensures count { IfOk result (IsReadCount (len self.old) pos (length buf.old)) }
        ensures bytes { IfOk result (λ n. ReadsAt (known self.old) pos n buf.old buf.new) };

    // known bytes are as many as the length says, and they are bytes
    ghost known_len: { (s : Self) → ForSome (known s) (λ bytes. length bytes ≡ len s) };

    ghost known_bytes: { (s : Self) → ForSome (known s) (All (λ b. b < 2 ^ 8)) };

    // the length fits into 64 bits
    ghost fits: { (s : Self) → len s < 2 ^ 64 };
}

/// Takes bytes in order, and may fail to. Its count of faults never falls.
pub trait Sink {
    // the bytes that were written, where they are known
    ghost written: { Self → Option (List ℕ) };

    // whether nothing follows
    ghost finished: { Self → Bool };

    // how often it has failed
    ghost faults: { Self → ℕ };

    // how many bytes it surely takes, where it states that
    ghost spare: { Self → Option ℕ };

    /// Appends a prefix of `bytes`, and says how long it is: 0 only of an empty piece. `Failed` has taken none.
    fn append(&mut self, bytes: &[u8]) -> Result<usize, Failed>
        ensures count { IfOk result (IsAppendCount (length bytes.now)) }
        ensures written { Appends (written self.old) (written self.new) (taken result bytes.now) }
        ensures unfinished { finished self.new ≡ finished self.old }
        ensures cause { HasCause (faults self.old) (faults self.new) result }
        ensures within { OkWithinSpare (spare self.old) (length bytes.now) result }
        ensures spare { Spends (spare self.old) (spare self.new) (taken_len result bytes.now) };

    /// Says that nothing follows.
    fn finish(&mut self) -> Result<(), Failed>
        ensures written { written self.new ≡ written self.old }
        ensures finished { OnOk result (finished self.new ≡ true) }
        ensures unfinished { OnErr result (finished self.new ≡ finished self.old) }
        ensures cause { HasCause (faults self.old) (faults self.new) result }
        ensures within { OkWithinSpare (spare self.old) 0 result }
        ensures spare { spare self.new ≡ spare self.old };
}
