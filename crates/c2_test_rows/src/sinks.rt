// A sink that takes what is appended in small pieces.
ghost use Rattle.std.specs.Prelude.{None};

use c2_base::{Failed, Sink};

/// A sink that takes so many bytes a call at most, and at least one. Nothing is stated of what was written.
#[derive(Drop)]
pub struct InPieces<K: Sink + Drop> {
    pub sink: K,
    pub most: usize,
}

impl<K: Sink + Drop> Sink for InPieces<K> {
    ghost written = { λ _. None };

    ghost finished = { λ s. K.finished s.sink };

    ghost faults = { λ s. K.faults s.sink };

    ghost spare = { λ _. None };

    fn append(&mut self, bytes: &[u8]) -> Result<usize, Failed> {
        let count = bytes.len().min(self.most.max(1));
        self.sink.append(&bytes[..count])
    }

    fn finish(&mut self) -> Result<(), Failed> {
        self.sink.finish()
    }
}
