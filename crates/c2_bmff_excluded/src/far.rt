// Byte tests on a box behind its first bytes, which are read in pieces that move on with what is asked.
ghost use Rattle.std.specs.Prelude.{◌≡◌, ◌+◌, ◌<◌, ◌≤◌, is_some, map, All, IfOk, IfSome, length};
ghost use Rattle.std.specs.Prelude.{take, drop, bytes_eq};
ghost use Rattle.std.specs.List.{list_all};
ghost use Rattle.std.specs.Option.{ForSome};
ghost use Rattle.c2_base.specs.Causes.{HasCause};
ghost use Rattle.c2_base.specs.Source.{StaysSource};
ghost use Rattle.c2_bmff_rows.specs.Rows.{IsRowWithin};
ghost use Rattle.c2_bmff_excluded.specs.Marks.{holds_test, stands_at};
ghost use Rattle.c2_bmff_excluded.specs.Runs.{IsRunWithin, run_test};
ghost use Rattle.c2_bmff_excluded.specs.Windows.{HasByte, IsWindow};

use crate::runs::Run;
use c2_base::{Failed, Source};
use c2_bmff_boxes::{RootBox, fill_first};

// How many bytes are read at a time, where the box has so many.
const FAR_LEN: usize = 4_096;

/// Where the bytes stand that were read last: the first `count` of a buffer are those of the file from `start` on.
#[derive(Clone, Copy)]
pub struct Window {
    start: u64,
    count: usize,
}

// The window where it has the byte at `at`, else one that begins there and ends no later than `end`.
fn window_at<S: Source>(
    source: &mut S,
    bytes: &mut [u8; 4_096],
    window: Window,
    at: u64,
    end: u64,
) -> Result<Window, Failed>
    requires inside { at < end }
    requires end { end ≤ S.len source.old }
    requires few { window.count ≤ 4096 }
    requires window { ForSome (S.known source.old) (λ file. IsWindow file bytes.old window) }
    ensures there { IfOk result (HasByte at) }
    ensures few { IfOk result (λ next. next.count ≤ 4096) }
    ensures window { IfOk result (λ next. ForSome (S.known source.old)
        (λ file. IsWindow file bytes.new next)) }
    ensures stays { StaysSource S.len S.known S.faults source.old source.new }
    ensures cause { HasCause (S.faults source.old) (S.faults source.new) result }
{
    if window.start <= at && at - window.start < window.count as u64 {
        return Ok(window);
    }
    let count = (end - at).min(FAR_LEN as u64) as usize;
    fill_first(source, at, bytes, count)?;
    Ok(Window { start: at, count })
}

// Whether the `count` bytes from there on are the first of the value.
fn is_same_at(bytes: &[u8], from: usize, value: &[u8], count: usize) -> bool
    requires bytes { from + count ≤ length bytes.now }
    requires value { count ≤ length value.now }
    ensures { result ≡ bytes_eq (take count (drop from bytes.now)) (take count value.now) }
{
    bytes[from..from + count] == value[..count]
}

// The window after these bytes were looked for at `pos`, which end no later than `end`; None where they don't stand there.
fn stands<S: Source>(
    source: &mut S,
    bytes: &mut [u8; 4_096],
    window: Window,
    pos: u64,
    value: &[u8],
    end: u64,
) -> Result<Option<Window>, Failed>
    requires inside { pos + length value.now ≤ end }
    requires end { end ≤ S.len source.old }
    requires few { window.count ≤ 4096 }
    requires window { ForSome (S.known source.old) (λ file. IsWindow file bytes.old window) }
    ensures stands { IfOk result (λ found. ForSome (S.known source.old)
        (λ file. is_some found ≡ stands_at file pos value.now)) }
    ensures few { IfOk result (λ found. IfSome found (λ next. next.count ≤ 4096)) }
    ensures window { IfOk result (λ found. IfSome found (λ next. ForSome (S.known source.old)
        (λ file. IsWindow file bytes.new next))) }
    ensures stays { StaysSource S.len S.known S.faults source.old source.new }
    ensures cause { HasCause (S.faults source.old) (S.faults source.new) result }
{
    let mut last = window;
    let mut rest = value;
    let mut at = pos;
    'pieces: while rest.len() > 0 {
        last = window_at(source, bytes, last, at, end)?;
        let from = (at - last.start) as usize;
        let count = rest.len().min(last.count - from);
        if !is_same_at(bytes, from, rest, count) {
            return Ok(None);
        }
        rest = &rest[count..];
        at += count as u64;
    }
    Ok(Some(last))
}

// The window after these bytes were looked for at an offset from the start of the box of this row; None where they don't stand
// there, wholly inside the box.
fn meets<S: Source>(
    source: &mut S,
    bytes: &mut [u8; 4_096],
    window: Window,
    row: RootBox,
    offset: u64,
    value: &[u8],
) -> Result<Option<Window>, Failed>
    requires inside { IsRowWithin (S.len source.old) row }
    requires few { window.count ≤ 4096 }
    requires window { ForSome (S.known source.old) (λ file. IsWindow file bytes.old window) }
    ensures meets { IfOk result (λ found. ForSome (S.known source.old) (λ file.
        is_some found ≡ holds_test file row (record { offset = offset; value = value.now }))) }
    ensures few { IfOk result (λ found. IfSome found (λ next. next.count ≤ 4096)) }
    ensures window { IfOk result (λ found. IfSome found (λ next. ForSome (S.known source.old)
        (λ file. IsWindow file bytes.new next))) }
    ensures stays { StaysSource S.len S.known S.faults source.old source.new }
    ensures cause { HasCause (S.faults source.old) (S.faults source.new) result }
{
    if offset > row.length || value.len() as u64 > row.length - offset {
        return Ok(None);
    }
    let end = row.start + row.length;
    stands(source, bytes, window, row.start + offset, value, end)
}

/// Whether all of these runs stand in the box of this row.
pub(crate) fn meets_far<S: Source>(
    source: &mut S,
    row: RootBox,
    bytes: &[u8],
    runs: &[Run],
) -> Result<bool, Failed>
    requires inside { IsRowWithin (S.len source.old) row }
    requires within { All (IsRunWithin (length bytes.now)) runs.now }
    ensures meets { IfOk result (λ b. ForSome (S.known source.old) (λ file.
        b ≡ list_all (holds_test file row) (map (run_test bytes.now) runs.now))) }
    ensures stays { StaysSource S.len S.known S.faults source.old source.new }
    ensures cause { HasCause (S.faults source.old) (S.faults source.new) result }
{
    let mut buffer = [0; FAR_LEN];
    let mut window = Window { start: 0, count: 0 };
    for run in runs {
        let value = &bytes[run.start..run.end];
        let Some(next) = meets(source, &mut buffer, window, row, run.offset, value)? else {
            return Ok(false);
        };
        window = next;
    }
    Ok(true)
}
