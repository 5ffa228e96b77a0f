// Sources in memory.
ghost use Rattle.std.specs.Prelude.{◌≡◌, ◌^◌, ◌<◌, ◌≤◌, All, Ok, Some, None, length, IfOk};
ghost use Rattle.c2_base.specs.Source.{ReadsBytes, piece_then_zeros};

use crate::{Blob, Failed, Source};

/// A source in memory that never fails.
#[derive(Debug, Drop)]
pub struct SureSource {
    bytes: Blob,
    ghost fits: { length bytes < 2 ^ 64 },
    ghost are_bytes: { All (λ b. b < 2 ^ 8) bytes },
}

impl SureSource {
    ghost use Rattle.c2_base.specs.InMemory.{sure_bytes};

    /// A source of these bytes.
    pub fn new(bytes: Blob) -> SureSource
        ensures { sure_bytes result ≡ bytes }
    {
        // Only the prover needs this line: looking at the bytes shows that they are bytes, fewer than 2^64.
        let _len = bytes.as_slice().len();
        SureSource { bytes }
    }
}

impl Source for SureSource {
    ghost use Rattle.std.proofs.lemmas.Option.{same_Some};
    ghost use Rattle.c2_base.specs.InMemory.{sure_bytes, readable};

    ghost len = { λ s. length s.bytes };

    ghost known = { λ s. Some s.bytes };

    ghost faults = { λ _. 0 };

    ghost known_len = { λ s bytes e. Prim.cc };

    ghost known_bytes = { λ s bytes e. Prim.rw (← same_Some s.bytes bytes e) s.are_bytes };

    ghost fits = { λ s. s.fits };

    fn size(&mut self) -> Result<u64, Failed>
        ensures length { result ≡ Ok (length (sure_bytes self.old)) }
        ensures same { self.new ≡ self.old }
    {
        Ok(self.bytes.as_slice().len() as u64)
    }

    fn read_at(&mut self, pos: u64, buf: &mut [u8]) -> Result<usize, Failed>
        ensures gives { result ≡ Ok (readable (length (sure_bytes self.old)) pos (length buf.old)) }
        ensures bytes { IfOk result (λ n. ReadsBytes (sure_bytes self.old) pos n buf.old buf.new) }
        ensures same { self.new ≡ self.old }
    {
        let bytes = self.bytes.as_slice();
        if pos >= bytes.len() as u64 {
            return Ok(0);
        }
        let rest = &bytes[pos as usize..];
        let count = rest.len().min(buf.len());
        buf[..count].copy_from_slice(&rest[..count]);
        Ok(count)
    }
}

/// A source for tests, which gives at most `most` bytes a call and fails at its call number `fail_at`.
///
/// A count of calls that has reached its last value stands still, so where `fail_at` is that value, each call from there
/// on fails.
#[derive(Debug, Drop)]
pub struct MemSource {
    bytes: Blob,
    most: usize,
    fail_at: u64,
    calls: u64,
    faults: u64,
    ghost fits: { length bytes < 2 ^ 64 },
    ghost are_bytes: { All (λ b. b < 2 ^ 8) bytes },
    ghost some: { 0 < most },
}

impl MemSource {
    ghost use Rattle.c2_base.specs.InMemory.{source_state, fresh_source, IsCalled};

    /// A source of these bytes. Its calls are counted from 1 over both methods; where `fail_at` is 0, none fails.
    pub fn new(bytes: Blob, most: usize, fail_at: u64) -> MemSource
        requires { 0 < most }
        ensures { source_state result ≡ fresh_source bytes most fail_at }
    {
        // Only the prover needs this line: looking at the bytes shows that they are bytes, fewer than 2^64.
        let _len = bytes.as_slice().len();
        MemSource {
            bytes,
            most,
            fail_at,
            calls: 0,
            faults: 0,
        }
    }

    // Counts a call, and a fault where it is the one that fails.
    fn call(&mut self) -> Result<(), Failed>
        ensures called { IsCalled (source_state self.old) (source_state self.new) result }
    {
        self.calls = self.calls.saturating_add(1);
        if self.calls == self.fail_at {
            self.faults = self.faults.saturating_add(1);
            return Err(Failed);
        }
        Ok(())
    }
}

impl Source for MemSource {
    ghost use Rattle.std.proofs.lemmas.Option.{same_Some};
    ghost use Rattle.c2_base.specs.InMemory.{source_state, IsCalled, IsReadOf};

    ghost len = { λ s. length s.bytes };

    ghost known = { λ s. Some s.bytes };

    ghost faults = { λ s. s.faults };

    ghost known_len = { λ s bytes e. Prim.cc };

    ghost known_bytes = { λ s bytes e. Prim.rw (← same_Some s.bytes bytes e) s.are_bytes };

    ghost fits = { λ s. s.fits };

    fn size(&mut self) -> Result<u64, Failed>
        ensures called { IsCalled (source_state self.old) (source_state self.new) result }
        ensures length { IfOk result (λ n. n ≡ length (source_state self.old).bytes) }
    {
        self.call()?;
        Ok(self.bytes.as_slice().len() as u64)
    }

    fn read_at(&mut self, pos: u64, buf: &mut [u8]) -> Result<usize, Failed>
        ensures called { IsCalled (source_state self.old) (source_state self.new) result }
        ensures gives { IfOk result (IsReadOf (source_state self.old) pos buf.old buf.new) }
    {
        self.call()?;
        let bytes = self.bytes.as_slice();
        if pos >= bytes.len() as u64 {
            return Ok(0);
        }
        let rest = &bytes[pos as usize..];
        let count = rest.len().min(buf.len()).min(self.most);
        buf[..count].copy_from_slice(&rest[..count]);
        Ok(count)
    }
}

/// A source for tests of a given length, which makes no bytes known: those of `prefix`, and then zeros.
#[derive(Debug, Drop)]
pub struct VastSource {
    prefix: Blob,
    size: u64,
    ghost fits: { size < 2 ^ 64 },
    ghost in_size: { length prefix ≤ size },
}

impl VastSource {
    ghost use Rattle.c2_base.specs.InMemory.{vast_prefix, vast_size};

    /// A source of `size` bytes.
    pub fn new(prefix: Blob, size: u64) -> VastSource
        requires { length prefix ≤ size }
        ensures prefix { vast_prefix result ≡ prefix }
        ensures size { vast_size result ≡ size }
    {
        VastSource { prefix, size }
    }
}

impl Source for VastSource {
    ghost use Rattle.c2_base.specs.InMemory.{vast_size, readable, ReadsVast};

    ghost len = { λ s. s.size };

    ghost known = { λ _. None };

    ghost faults = { λ _. 0 };

    ghost known_len = { λ s bytes e. Prim.cc };

    ghost known_bytes = { λ s bytes e. Prim.cc };

    ghost fits = { λ s. s.fits };

    fn size(&mut self) -> Result<u64, Failed>
        ensures length { result ≡ Ok (vast_size self.old) }
        ensures same { self.new ≡ self.old }
    {
        Ok(self.size)
    }

    fn read_at(&mut self, pos: u64, buf: &mut [u8]) -> Result<usize, Failed>
        ensures gives { result ≡ Ok (readable (vast_size self.old) pos (length buf.old)) }
        ensures bytes { IfOk result (λ n. ReadsVast self.old pos n buf.old buf.new) }
        ensures same { self.new ≡ self.old }
    {
        if pos >= self.size {
            return Ok(0);
        }
        let count = (self.size - pos).min(buf.len() as u64) as usize;
        fill_then_zeros(self.prefix.as_slice(), pos, &mut buf[..count]);
        Ok(count)
    }
}

// Fills a piece with what is at `pos` and after it, of these bytes and zeros after them.
fn fill_then_zeros(bytes: &[u8], pos: u64, piece: &mut [u8])
    ensures { piece.new ≡ piece_then_zeros bytes.now pos (length piece.old) }
{
    piece.fill(0);
    if pos < bytes.len() as u64 {
        let rest = &bytes[pos as usize..];
        let count = rest.len().min(piece.len());
        piece[..count].copy_from_slice(&rest[..count]);
    }
}
