// Writing a base with what is put in of a new store.
ghost use Rattle.std.specs.Prelude.{◌≡◌, IfErr, ◌<◌, length};
ghost use Rattle.std.specs.Option.{ForSome};
ghost use Rattle.c2_base.specs.Sink.{WritesSink, unsaid};
ghost use Rattle.c2_base.specs.Source.{ReadsSource};
ghost use Rattle.c2_copying.specs.Writing.{IsCopyReadCause, IsStep, IsCopyWriteCause, TakesSpare};
ghost use Rattle.c2_copying.specs.declared.copying.CopyError.TheVariants as copying;
ghost use Rattle.c2_spec.specs.Bmff.Boxes.{box_bytes};
ghost use Rattle.c2_spec.specs.Bmff.Writing.{c2pa_box};
ghost use Rattle.c2_spec.specs.Jpeg.Writing.{IsPacketStore, packets_bytes};
ghost use Rattle.c2_build_writing.specs.Puts.{CanPut, WritesOver, copy_fault_of, put_file};
ghost use Rattle.c2_build_writing.specs.Puts.{put_file_len, put_of};

use c2_base::{Failed, Sink, Source};
use c2_bmff_boxes::write_box;
use c2_build_refusals::{BuildError, Draft, Put};
use c2_copying::{CopyError, copy, steps_follow};
use c2_jpegseg::write_segments;

// Appends the packets of a store under this number.
fn write_packets<K: Sink>(store: &[u8], number: u16, out: &mut K) -> Result<(), CopyError>
    requires { IsPacketStore store.now }
    ensures step { IsStep K.written K.spare K.finished (packets_bytes store.now number)
        out.old out.new result }
    ensures fault { IfErr result (λ e. e ≡ copying.WriteFault) }
    ensures writes { WritesSink K.written K.finished K.faults IsCopyWriteCause
        out.old out.new result }
{
    match write_segments(store, number, out) {
        Ok(()) => Ok(()),
        Err(Failed) => Err(CopyError::WriteFault),
    }
}

// Appends the box of a store.
fn write_boxed<K: Sink>(store: &[u8], out: &mut K) -> Result<(), CopyError>
    requires { IsPacketStore store.now }
    ensures step { IsStep K.written K.spare K.finished (box_bytes (c2pa_box store.now))
        out.old out.new result }
    ensures fault { IfErr result (λ e. e ≡ copying.WriteFault) }
    ensures writes { WritesSink K.written K.finished K.faults IsCopyWriteCause
        out.old out.new result }
{
    match write_box(store, out) {
        Ok(()) => Ok(()),
        Err(Failed) => Err(CopyError::WriteFault),
    }
}

// Appends what is put in of a store.
fn put_store<K: Sink>(store: &[u8], put: Put, out: &mut K) -> Result<(), CopyError>
    requires { IsPacketStore store.now }
    ensures step { IsStep K.written K.spare K.finished (put_of put store.now)
        out.old out.new result }
    ensures fault { IfErr result (λ e. e ≡ copying.WriteFault) }
    ensures writes { WritesSink K.written K.finished K.faults IsCopyWriteCause
        out.old out.new result }
{
    match put {
        Put::Packets(number) => write_packets(store, number, out),
        Put::Box => write_boxed(store, out),
    }
}

// Appends a base with what is put in of a store.
fn write_over<B: Source, K: Sink>(
    base: &mut B,
    store: &[u8],
    draft: Draft,
    buffer: &mut [u8],
    out: &mut K,
) -> Result<(), CopyError>
    requires can { CanPut (B.len base.old) store.now draft }
    requires room { 0 < length buffer.old }
    ensures step { ForSome (B.known base.old) (λ file. IsStep K.written K.spare K.finished
        (put_file draft store.now file)
        out.old out.new result) }
    ensures spare { TakesSpare (K.spare out.old) (K.spare out.new)
        (put_file_len draft store.now) result }
    ensures reads { ReadsSource B.len B.known B.faults IsCopyReadCause base.old base.new result }
    ensures writes { WritesSink K.written K.finished K.faults IsCopyWriteCause
        out.old out.new result }
{
    steps_follow::<K>();
    // Matched and not handed up by `?`, here and below: each way out has clauses of its own.
    match copy(base, out, 0, draft.start, buffer) {
        Ok(()) => {}
        Err(error) => return Err(error),
    }
    match put_store(store, draft.put, out) {
        Ok(()) => {}
        Err(error) => return Err(error),
    }
    copy(base, out, draft.start, draft.size, buffer)
}

/// Appends a base with what is put in of a store by these numbers, and says that nothing follows. The base is copied through a buffer that
/// isn't empty.
///
/// `ReadFault` comes only where the base's count of faults rose in this call, and `WriteFault` where the sink's did, and never within a stated
/// spare that holds all bytes; both leave a prefix of the bytes, and a sink that isn't finished by them.
pub fn write_whole<B: Source, K: Sink>(
    base: &mut B,
    store: &[u8],
    draft: Draft,
    buffer: &mut [u8],
    out: &mut K,
) -> Result<(), CopyError>
    requires can { CanPut (B.len base.old) store.now draft }
    requires room { 0 < length buffer.old }
    ensures written { WritesOver K.written K.spare K.finished (put_file draft store.now)
        (put_file_len draft store.now) (B.known base.old) out.old out.new result }
    ensures reads { ReadsSource B.len B.known B.faults IsCopyReadCause base.old base.new result }
    ensures writes { WritesSink K.written unsaid K.faults IsCopyWriteCause out.old out.new result }
{
    steps_follow::<K>();
    match write_over(base, store, draft, buffer, out) {
        Ok(()) => {}
        Err(error) => return Err(error),
    }
    match out.finish() {
        Ok(()) => Ok(()),
        Err(Failed) => Err(CopyError::WriteFault),
    }
}

/// The fault of a build that a fault of a copy is.
pub fn copy_fault(error: CopyError) -> BuildError
    ensures { result ≡ copy_fault_of error }
{
    match error {
        CopyError::ReadFault => BuildError::ReadFault,
        CopyError::WriteFault => BuildError::WriteFault,
    }
}
