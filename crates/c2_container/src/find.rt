// The store of a media file, by its container.
ghost use Rattle.std.specs.Prelude.{◌≡◌, true, false, length, IfOk, IfErr, OnOk};
ghost use Rattle.std.specs.Option.{ForSome};
ghost use Rattle.c2_base.specs.Causes.{HasCause};
ghost use Rattle.c2_base.specs.Source.{StaysSource};
ghost use Rattle.c2_spec.specs.Container as form;
ghost use Rattle.c2_container.specs.Contained.{IsLocateCause, IsSaid, IsWithin};

use crate::types::{Contained, Container};
use c2_base::{Failed, MediaError, Source, fill_at};
use c2_bmff_boxes::roots;
use c2_jpegseg_survey::survey;
use c2_spec::markers::{FILL, SOI};
use std::alloc::Global;

// How many bytes of a file tell its container.
const FRONT_LEN: usize = 8;

// The first bytes of a JPEG.
const START_OF_IMAGE: [u8; 2] = [FILL, SOI];

// The type of the first box of a BMFF file.
const FTYP: [u8; 4] = *b"ftyp";

/// The container of a media file and its store, by the tests of the container alone (C2PA Technical Specification 2.x, "Embedding
/// manifests into assets"); and what tells where another store goes in what is left of the file, so that each header is read once.
///
/// A file with `ftyp` in its bytes 4 to 7 that doesn't begin with SOI is read by its root boxes, every other as a JPEG. The error is the
/// first of the container's tests that fails, with its place or the file's length; or `ReadFault`, only where the source failed in this
/// call; or `NoMemory`. The file is read in pieces, and of its bytes only the store's are kept.
pub fn locate<S: Source>(alloc: Global, source: &mut S) -> Result<Contained, MediaError>
    // Where the bytes are known: this is what the file is as a container, and nothing else is.
    ensures said { ForSome (S.known source.old) (λ file. IsSaid file result) }

    // These hold of every source.
    ensures within { IfOk result (IsWithin (S.len source.old)) }
    ensures cause { IfErr result
        (IsLocateCause (S.len source.old) (S.faults source.old) (S.faults source.new)) }
    ensures count { OnOk result (S.faults source.new ≡ S.faults source.old) }
    ensures stays { StaysSource S.len S.known S.faults source.old source.new }
{
    if is_bmff(source)? {
        return locate_boxes(alloc, source);
    }
    locate_packets(alloc, source)
}

// Whether a file that begins with these bytes is read by its root boxes.
fn is_bmff_front(front: &[u8]) -> bool
    requires { length front.now ≡ 8 }
    ensures { result ≡ form.is_bmff front.now }
{
    let is_jpeg = &front[..2] == START_OF_IMAGE.as_slice();
    !is_jpeg && &front[4..8] == FTYP.as_slice()
}

// Whether the file is read by its root boxes.
fn is_bmff<S: Source>(source: &mut S) -> Result<bool, Failed>
    ensures is { IfOk result (λ b. ForSome (S.known source.old) (λ file. b ≡ form.is_bmff file)) }
    ensures cause { HasCause (S.faults source.old) (S.faults source.new) result }
    ensures stays { StaysSource S.len S.known S.faults source.old source.new }
{
    let size = source.size()?;
    if size < FRONT_LEN as u64 {
        return Ok(false);
    }
    let mut front = [0; FRONT_LEN];
    fill_at(source, 0, &mut front)?;
    Ok(is_bmff_front(&front))
}

// The store of a file that isn't read by root boxes.
fn locate_packets<S: Source>(alloc: Global, source: &mut S) -> Result<Contained, MediaError>
    ensures said { ForSome (S.known source.old)
        (λ file. form.is_bmff file ≡ false → IsSaid file result) }
    ensures within { IfOk result (IsWithin (S.len source.old)) }
    ensures cause { IfErr result
        (IsLocateCause (S.len source.old) (S.faults source.old) (S.faults source.new)) }
    ensures count { OnOk result (S.faults source.new ≡ S.faults source.old) }
    ensures stays { StaysSource S.len S.known S.faults source.old source.new }
{
    // Matched and not handed up by `?`, here and below: each way out has clauses of its own.
    match survey(alloc, source) {
        Ok(surveyed) => Ok(Contained {
            container: Container::Jpeg,
            found: surveyed.found,
            packets: Some(surveyed.point),
        }),
        Err(error) => Err(error),
    }
}

// The store of a file that is read by its root boxes.
fn locate_boxes<S: Source>(alloc: Global, source: &mut S) -> Result<Contained, MediaError>
    ensures said { ForSome (S.known source.old)
        (λ file. form.is_bmff file ≡ true → IsSaid file result) }
    ensures within { IfOk result (IsWithin (S.len source.old)) }
    ensures cause { IfErr result
        (IsLocateCause (S.len source.old) (S.faults source.old) (S.faults source.new)) }
    ensures count { OnOk result (S.faults source.new ≡ S.faults source.old) }
    ensures stays { StaysSource S.len S.known S.faults source.old source.new }
{
    let roots = match roots(alloc, source) {
        Ok(roots) => roots,
        Err(error) => return Err(error),
    };
    match c2_bmff_boxes::locate(alloc, source, &roots) {
        Ok(found) => Ok(Contained {
            container: Container::Bmff(roots),
            found,
            packets: None,
        }),
        Err(error) => Err(error),
    }
}
