// The run of packets that holds a store.
ghost use Rattle.std.specs.Prelude.{◌≡◌, ◌+◌, ◌++◌, ◌-◌, ◌<◌, ◌≤◌, length, vec_len, true, None};
ghost use Rattle.std.specs.Prelude.{OnOk, IfOk, IfErr};
ghost use Rattle.c2_spec.specs.Jpeg.Store as jpeg;
ghost use Rattle.c2_base.specs.declared.limits.TheConstants.{MAX_STORE_LEN};
ghost use Rattle.c2_jpegseg_segments.specs.Packets.{view, IsHeader};

use crate::packet::{self, Packet};
use c2_base::limits::MAX_STORE_LEN;
use c2_base::{MediaError, NoMemory};
use std::alloc::Global;

/// A store whose packets are being collected: where they begin and end in the file, their number, how many there are, how
/// long the store will be, and its bytes so far. They begin with the header that each packet repeats.
#[derive(Drop)]
pub struct Run {
    pub start: u64,
    pub end: u64,
    pub en: u16,
    pub count: u64,
    pub total: u64,
    pub header_len: usize,
    pub store: Vec<u8>,
    ghost ordered: { start ≤ end },
    ghost headed: { header_len ≤ vec_len store },
    ghost counted: { count ≤ vec_len store },
    ghost fits: { vec_len store ≤ total },
    ghost small: { total ≤ MAX_STORE_LEN },
}

/// The header and then the body, with room for `room` bytes.
fn joined(alloc: Global, room: usize, header: &[u8], body: &[u8]) -> Result<Vec<u8>, NoMemory>
    ensures { IfOk result (λ store. store.items ≡ header.now ++ body.now) }
{
    let mut store = Vec::with_capacity(alloc, room)?;
    store.extend_from_slice(header)?;
    store.extend_from_slice(body)?;
    Ok(store)
}

impl Run {
    ghost use Rattle.c2_jpegseg_segments.specs.Runs.{collected, missing, goes_on, IsStarted};
    ghost use Rattle.c2_jpegseg_segments.specs.Runs.{FailsFirst, IsContinued, IsSegmentError};

    /// A run of the first packet alone, from `at` to `end` in a file of `size` bytes.
    ///
    /// Room for the whole store is taken at once, but no more than there are bytes left in the file: what a header states is no
    /// reason to take memory.
    #[tactic(auto, using(crate::proofs::PacketLemmas::at_least_8, crate::proofs::PacketLemmas::header_first), unfolding(c2_spec::specs::Jpeg::Store::first_packet_fault))]
    pub fn start(
        alloc: Global,
        at: u64,
        end: u64,
        size: u64,
        first: Packet<'_>,
    ) -> Result<Run, MediaError>
        requires headed { IsHeader first.header.now }
        requires ordered { at ≤ end }
        ensures passes { IfOk result (λ run. jpeg.first_packet_fault at (view first.entry) ≡ None) }
        ensures started { IfOk result (λ run. IsStarted at end (view first.entry) (collected run)) }
        ensures fails { IfErr result (FailsFirst at (view first.entry)) }
        ensures error { IfErr result (IsSegmentError at) }
    {
        let total = packet::stated_length(first.header);
        if total < first.header.len() as u64 {
            return Err(MediaError::BadPacket(at));
        }
        if total > MAX_STORE_LEN {
            return Err(MediaError::StoreTooLarge(total));
        }
        if total - (first.header.len() as u64) < first.body.len() as u64 {
            return Err(MediaError::BadPacket(at));
        }
        let room = total.min(size.saturating_sub(at));
        let store = joined(alloc, room as usize, first.header, first.body)?;
        Ok(Run {
            start: at,
            end,
            en: first.en,
            count: 1,
            total,
            header_len: first.header.len(),
            store,
        })
    }

    /// Adds the body of the run's next packet, which ends at `end`. The error is out of memory; the caller drops the run then.
    #[tactic(auto, using(crate::proofs::PacketLemmas::header_kept))]
    pub fn append(&mut self, end: u64, next: &Packet<'_>) -> Result<(), NoMemory>
        requires ordered { self.old.start ≤ end }
        requires some { 0 < length next.now.body.now }
        requires fits { length next.now.body.now ≤ missing (collected self.old) }
        ensures ok { OnOk result
            (IsContinued end (view next.now) (collected self.old) (collected self.new)) }
    {
        self.store.extend_from_slice(next.body)?;
        self.end = end;
        self.count += 1;
        Ok(())
    }

    /// Whether the packet goes on with the run.
    #[tactic(auto, unfolding(crate::specs::Runs::goes_on))]
    pub fn goes_on(&self, packet: &Packet<'_>) -> bool
        ensures goes { result ≡ goes_on (collected self.now) (view packet.now) }
        ensures some { result ≡ true → 0 < length packet.now.body.now }
        ensures fits { result ≡ true → length packet.now.body.now ≤ missing (collected self.now) }
    {
        packet.en == self.en
            && packet.header == &self.store[..self.header_len]
            && packet.z as u64 == self.count + 1
            && packet.body.len() >= 1
            && packet.body.len() as u64 <= self.total - self.store.len() as u64
    }
}
