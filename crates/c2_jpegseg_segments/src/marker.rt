// Segments by their markers and lengths.
ghost use Rattle.std.specs.Prelude.{◌≡◌, ◌≢◌, ◌+◌, ◌<◌, ◌≤◌, OnOk, IfOk, IfErr, IfSome};
ghost use Rattle.std.specs.Option.{ForSome};
ghost use Rattle.c2_base.specs.Causes.{HasCause};
ghost use Rattle.c2_base.specs.Source.{StaysSource};
ghost use Rattle.c2_jpegseg_segments.specs.Causes.{IsJpegCaused};
ghost use Rattle.c2_base.specs.declared.limits.TheConstants.{FILE_LEN_LIMIT};
ghost use Rattle.c2_spec.specs.declared.markers.TheConstants.{FILL};
ghost use Rattle.c2_jpegseg_segments.specs.Segments.{IsKind, FindsMarker, IsSizedOr, IsExtentBy};
ghost use Rattle.c2_jpegseg_segments.specs.Segments.{IsNextOr, IsNextBy, IsMarkerError};
ghost use Rattle.c2_jpegseg_segments.specs.Segments.{IsSegmentRead};

use crate::window::Bytes;
use c2_base::limits::FILE_LEN_LIMIT;
use c2_base::{Failed, MediaError, Source};
use c2_spec::markers::{EOI, FILL, RST0, RST7, SOI, SOS, TEM};

/// Where a segment's marker, payload and end lie in the file.
#[derive(Clone, Copy, Debug, PartialEq, Eq)]
pub struct Extent {
    pub marker: u8,
    pub body: u64,
    pub end: u64,
}

/// What is at a place of the walk.
#[derive(Clone, Copy, Debug, PartialEq, Eq)]
pub enum Next {
    /// EOI or SOS.
    End,
    Segment(Extent),
}

/// What a marker begins.
#[derive(Clone, Copy, Debug, PartialEq, Eq)]
enum Kind {
    Bad,
    End,
    Alone,
    Sized,
}

/// The first byte after fill, and its place.
#[derive(Clone, Copy, Debug, PartialEq, Eq)]
struct Marker {
    place: u64,
    code: u8,
}

/// What a marker byte begins.
fn kind_of(marker: u8) -> Kind
    requires { marker ≢ FILL }
    ensures { IsKind marker result }
{
    if marker == 0 || marker == SOI {
        Kind::Bad
    } else if marker == EOI || marker == SOS {
        Kind::End
    } else if marker == TEM || (marker >= RST0 && marker <= RST7) {
        Kind::Alone
    } else {
        Kind::Sized
    }
}

/// The first byte from `at` on that isn't FF, in a source of `size` bytes.
fn marker_from<S: Source, W: Bytes>(
    source: &mut S,
    window: &mut W,
    at: u64,
    size: u64,
) -> Result<Option<Marker>, Failed>
    requires size { size ≡ S.len source.old }
    requires inside { at ≤ size }
    requires shows { W.shows (S.len source.old) (S.known source.old) window.old }
    ensures stays { StaysSource S.len S.known S.faults source.old source.new }
    ensures cause { HasCause (S.faults source.old) (S.faults source.new) result }
    ensures shows { OnOk result (W.shows (S.len source.old) (S.known source.old) window.new) }
    ensures inside { IfOk result (λ o. IfSome o (λ m. (at ≤ m.place) × (m.place < size))) }
    ensures code { IfOk result (λ o. IfSome o (λ m. m.code ≢ FILL)) }
    ensures place { IfOk result (FindsMarker (S.known source.old) at) }
{
    for place in at..size {
        let code = window.byte_at(source, place)?;
        if code != FILL {
            return Ok(Some(Marker { place, code }));
        }
    }
    Ok(None)
}

/// The extent of the segment at `at`, whose marker has a length (ITU-T T.81, B.1.1.4).
fn sized_at<S: Source, W: Bytes>(
    source: &mut S,
    window: &mut W,
    at: u64,
    marker: Marker,
    size: u64,
) -> Result<Extent, MediaError>
    requires size { size ≡ S.len source.old }
    requires later { at < marker.place }
    requires inside { marker.place < size }
    requires bounded { size < FILE_LEN_LIMIT }
    requires shows { W.shows (S.len source.old) (S.known source.old) window.old }
    ensures stays { StaysSource S.len S.known S.faults source.old source.new }
    ensures count { OnOk result (S.faults source.new ≡ S.faults source.old) }
    ensures cause { IfErr result (IsJpegCaused (S.faults source.old) (S.faults source.new)) }
    ensures shows { OnOk result (W.shows (S.len source.old) (S.known source.old) window.new) }
    ensures inside { IfOk result (IsExtentBy at size) }
    ensures error { IfErr result (IsMarkerError at size) }
    ensures sized { ForSome (S.known source.old) (λ file. IsSizedOr file at marker result) }
{
    let place = marker.place;
    if size - place < 3 {
        return Err(MediaError::Truncated(size));
    }
    let high = window.byte_at(source, place + 1)?;
    let low = window.byte_at(source, place + 2)?;
    let length = high as u64 * 256 + low as u64;
    if length < 2 {
        return Err(MediaError::BadSegment(at));
    }
    if size - place - 1 < length {
        return Err(MediaError::Truncated(size));
    }
    Ok(Extent {
        marker: marker.code,
        body: place + 3,
        end: place + 1 + length,
    })
}

/// What is at a place, whose result the clauses say by cases.
fn next_at<S: Source, W: Bytes>(
    source: &mut S,
    window: &mut W,
    at: u64,
    size: u64,
) -> Result<Next, MediaError>
    requires size { size ≡ S.len source.old }
    requires inside { at ≤ size }
    requires bounded { size < FILE_LEN_LIMIT }
    requires shows { W.shows (S.len source.old) (S.known source.old) window.old }
    ensures stays { StaysSource S.len S.known S.faults source.old source.new }
    ensures count { OnOk result (S.faults source.new ≡ S.faults source.old) }
    ensures cause { IfErr result (IsJpegCaused (S.faults source.old) (S.faults source.new)) }
    ensures shows { OnOk result (W.shows (S.len source.old) (S.known source.old) window.new) }
    ensures inside { IfOk result (IsNextBy at size) }
    ensures error { IfErr result (IsMarkerError at size) }
    ensures next { ForSome (S.known source.old) (λ file. IsNextOr file at result) }
{
    let Some(marker) = marker_from(source, window, at, size)? else {
        return Err(MediaError::Truncated(size));
    };
    if marker.place == at {
        return Err(MediaError::BadMarker(at));
    }
    match kind_of(marker.code) {
        Kind::Bad => Err(MediaError::BadMarker(at)),
        Kind::End => Ok(Next::End),
        Kind::Alone => Ok(Next::Segment(Extent {
            marker: marker.code,
            body: marker.place + 1,
            end: marker.place + 1,
        })),
        Kind::Sized => Ok(Next::Segment(sized_at(source, window, at, marker, size)?)),
    }
}

/// What is at a place: the end of the segments, a segment, or the first fault of its marker and length (ITU-T T.81, B.1.1).
pub fn segment_at<S: Source, W: Bytes>(
    source: &mut S,
    window: &mut W,
    at: u64,
    size: u64,
) -> Result<Next, MediaError>
    requires size { size ≡ S.len source.old }
    requires inside { at ≤ size }
    requires bounded { size < FILE_LEN_LIMIT }
    requires shows { W.shows (S.len source.old) (S.known source.old) window.old }
    ensures stays { StaysSource S.len S.known S.faults source.old source.new }
    ensures shows { OnOk result (W.shows (S.len source.old) (S.known source.old) window.new) }
    ensures read { IsSegmentRead
        (S.known source.old) size (S.faults source.old) (S.faults source.new) at result }
{
    next_at(source, window, at, size)
}
