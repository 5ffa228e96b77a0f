// A source that counts how often each of its bytes is read.
ghost use Rattle.std.specs.Prelude.{◌<◌, ◌^◌, All, Some, length};

use c2_base::{Blob, Failed, Source};
use std::alloc::Global;
use std::test::Fail;

/// A source of these bytes, and how often each of them was read.
#[derive(Drop)]
pub struct CountedSource {
    bytes: Blob,
    reads: Vec<u32>,
    ghost fits: { length bytes < 2 ^ 64 },
    ghost are_bytes: { All (λ b. b < 2 ^ 8) bytes },
}

impl CountedSource {
    /// A source of a copy of these bytes, of which none was read.
    pub fn new(alloc: Global, bytes: &[u8]) -> Result<CountedSource, Fail> {
        let reads = vec![in alloc; 0; bytes.len()]?;
        let bytes = Blob::copied(alloc, bytes)?;
        // Only the prover needs this line: looking at the bytes shows that they are bytes, fewer than 2^64.
        let _len = bytes.as_slice().len();
        Ok(CountedSource { bytes, reads })
    }

    /// How often each byte was read.
    pub fn reads(&self) -> &[u32] {
        self.reads.as_slice()
    }
}

impl Source for CountedSource {
    ghost use Rattle.std.proofs.lemmas.Option.{same_Some};

    ghost len = { λ s. length s.bytes };

    ghost known = { λ s. Some s.bytes };

    ghost faults = { λ _. 0 };

    ghost known_len = { λ s bytes e. Prim.cc };

    ghost known_bytes = { λ s bytes e. Prim.rw (← same_Some s.bytes bytes e) s.are_bytes };

    ghost fits = { λ s. s.fits };

    fn size(&mut self) -> Result<u64, Failed> {
        Ok(self.bytes.as_slice().len() as u64)
    }

    fn read_at(&mut self, pos: u64, buf: &mut [u8]) -> Result<usize, Failed> {
        let bytes = self.bytes.as_slice();
        if pos >= bytes.len() as u64 {
            return Ok(0);
        }
        let rest = &bytes[pos as usize..];
        let count = rest.len().min(buf.len());
        buf[..count].copy_from_slice(&rest[..count]);
        note(self.reads.as_mut_slice(), pos as usize, count);
        Ok(count)
    }
}

// Counts one more read of each of `count` bytes from `start` on.
fn note(reads: &mut [u32], start: usize, count: usize) {
    for i in start..start.saturating_add(count) {
        if i < reads.len() {
            reads[i] = reads[i].saturating_add(1);
        }
    }
}
