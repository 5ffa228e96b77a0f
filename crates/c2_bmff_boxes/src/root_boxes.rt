// The root boxes of a file.
ghost use Rattle.std.specs.Prelude.{◌≡◌, ◌++◌, [], ◌∷◌, ◌+◌, ◌-◌, ◌^◌, ◌<◌, ◌≤◌, true, length};
ghost use Rattle.std.specs.Prelude.{take, drop, List, All, OnOk, IfOk, IfErr};
ghost use Rattle.std.specs.Option.{ForSome};
ghost use Rattle.c2_base.specs.Causes.{HasCause};
ghost use Rattle.c2_base.specs.Source.{ReadsSource, StaysSource};
ghost use Rattle.c2_bmff_boxes.specs.Causes.{IsRootsCause, OrBmffFault};
ghost use Rattle.c2_bmff_boxes.specs.Heads.{IsHeadOr};
ghost use Rattle.c2_bmff_boxes.specs.Roots.{AreRootsOf, FillFile, FillSource, row_at};
ghost use Rattle.c2_bmff_rows.specs.Rows.{HasHeader};
ghost use Rattle.c2_spec.specs.Bmff.Boxes.{RootFault, begins_bmff};

use crate::header::{BoxHead, HeadError, box_head};
use c2_base::limits::MAX_ROOT_BOXES;
use c2_base::{Failed, MediaError, NoMemory, Source, fill_at};
use c2_bmff_rows::RootBox;
use std::alloc::Global;
use std::marker::Model;

// The type of the first box.
const FTYP: [u8; 4] = *b"ftyp";

/// The root boxes of a BMFF file, in order.
#[derive(Debug, Drop)]
pub struct Roots {
    pub(crate) rows: Vec<RootBox>,
}

impl Model for Roots {
    ghost use Rattle.std.specs.Prelude.{List, All};
    ghost use Rattle.c2_bmff_boxes.specs.Roots.{FillFile};
    ghost use Rattle.c2_bmff_rows.specs.Rows.{HasHeader};
    ghost use Rattle.c2_bmff_rows.specs.declared.row.RootBox.{RootBox};

    ghost Value = { List RootBox };

    ghost view = { λ r. r.rows.items };

    ghost invariant = { λ r. All HasHeader r.rows.items × FillFile r.rows.items };
}

impl Roots {
    /// The boxes. Takes no memory.
    pub fn as_slice(&self) -> &[RootBox]
        ensures boxes { result.now ≡ self.now }
        ensures headers { All HasHeader result.now }
        ensures fill { FillFile result.now }
    {
        self.rows.as_slice()
    }
}

/// Fills the first `count` bytes of `bytes` with those of the source from `pos` on. `Failed` comes only where the source failed. Takes no
/// memory.
pub fn fill_first<S: Source>(
    source: &mut S,
    pos: u64,
    bytes: &mut [u8],
    count: usize,
) -> Result<(), Failed>
    requires inside { pos + count ≤ S.len source.old }
    requires room { count ≤ length bytes.old }
    ensures stays { StaysSource S.len S.known S.faults source.old source.new }
    ensures cause { HasCause (S.faults source.old) (S.faults source.new) result }
    ensures filled { OnOk result
        (ForSome (S.known source.old) (λ file. take count bytes.new ≡ take count (drop pos file))) }
{
    fill_at(source, pos, &mut bytes[..count])?;
    Ok(())
}

// The header of the box that begins at `at`, in a file of `size` bytes.
fn head_at<S: Source>(source: &mut S, at: u64, size: u64) -> Result<BoxHead, MediaError>
    requires size { size ≡ S.len source.old }
    requires bounded { size < 2 ^ 62 }
    requires inside { at < size }
    ensures stays { StaysSource S.len S.known S.faults source.old source.new }
    ensures count { OnOk result (S.faults source.new ≡ S.faults source.old) }
    ensures cause { IfErr result
        (IsRootsCause (S.len source.old) (S.faults source.old) (S.faults source.new)) }
    ensures within { IfOk result
        (λ h. (8 ≤ h.header) × (at + h.length ≤ size) × (h.header ≤ h.length)) }
    ensures read { ForSome (S.known source.old) (λ file. IsHeadOr at (drop at file) result) }
{
    let mut bytes = [0; 16];
    let left = size - at;
    let count = left.min(16) as usize;
    fill_first(source, at, &mut bytes, count)?;
    match box_head(&bytes[..count], left) {
        Ok(head) => Ok(head),
        Err(HeadError::Short) => Err(MediaError::Truncated(size)),
        Err(HeadError::Bad) => Err(MediaError::BadBox(at)),
    }
}

// Whether the file has the type `ftyp` in its bytes 4 to 7.
pub(crate) fn is_bmff<S: Source>(source: &mut S, size: u64) -> Result<bool, Failed>
    requires size { size ≡ S.len source.old }
    ensures stays { StaysSource S.len S.known S.faults source.old source.new }
    ensures cause { HasCause (S.faults source.old) (S.faults source.new) result }
    ensures begins { IfOk result
        (λ b. ForSome (S.known source.old) (λ file. begins_bmff file ≡ b)) }
{
    if size < 8 {
        return Ok(false);
    }
    let mut kind = [0; 4];
    fill_at(source, 4, &mut kind)?;
    Ok(kind == FTYP)
}

// Keeps the box of this header, which begins at `start`.
pub(crate) fn keep(rows: &mut Vec<RootBox>, start: u64, head: BoxHead) -> Result<(), NoMemory>
    ensures { OnOk result (rows.new.items ≡ rows.old.items ++ row_at start head ∷ []) }
{
    let kind = head.kind;
    rows.push(RootBox {
        start,
        length: head.length,
        header: head.header,
        kind,
        to_end: head.to_end,
    })?;
    Ok(())
}

// The walk over the root boxes of a file of `size` bytes.
pub(crate) fn walk<S: Source>(
    alloc: Global,
    source: &mut S,
    size: u64,
) -> Result<Vec<RootBox>, MediaError>
    requires size { size ≡ S.len source.old }
    requires bounded { size < 2 ^ 62 }
    requires begins { ForSome (S.known source.old) (λ file. begins_bmff file ≡ true) }
    ensures walked { IfOk result
        (λ rows. ForSome (S.known source.old) (λ file. AreRootsOf file rows.items)) }
    ensures fault { IfErr result
        (λ e. ForSome (S.known source.old) (λ file. OrBmffFault e (RootFault file e))) }
    ensures fill { IfOk result (λ rows. FillSource size 0 rows.items) }
    ensures reads { ReadsSource S.len S.known S.faults (IsRootsCause (S.len source.old))
        source.old source.new result }
{
    let mut rows = Vec::new(alloc);
    let mut at = 0;
    'boxes: while at < size {
        if rows.len() as u64 >= MAX_ROOT_BOXES {
            return Err(MediaError::TooManyBoxes);
        }
        // Matched and not handed up by `?`: each way out has clauses of its own.
        let head = match head_at(source, at, size) {
            Ok(head) => head,
            Err(error) => return Err(error),
        };
        keep(&mut rows, at, head)?;
        at += head.length;
    }
    Ok(rows)
}
