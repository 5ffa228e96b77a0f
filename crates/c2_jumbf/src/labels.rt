// The labels of siblings: kept as they are read, and compared once all are there or a fault ends the reading.
ghost use Rattle.std.specs.Prelude.{◌≡◌, ◌↔◌, ◌++◌, [], Some, IsTrue, IfErr, OnOk, ℕ, length};
ghost use Rattle.std.specs.Prelude.{slice_index};
ghost use Rattle.c2_spec.specs.declared.jumbf.JumbfError.TheVariants.{NoMemory, DuplicateLabel};
ghost use Rattle.c2_jumbf.specs.Fields.{text_of};
ghost use Rattle.c2_jumbf.specs.Labels.{front_of, marks, marked, own_marks, Repeats, LeastRepeated};
ghost use Rattle.c2_jumbf.specs.Labels.{lesser_of, NoneRepeats, IsFirstRepeated, IsFirstFault};

use c2_spec::JumbfError;
use std::alloc::Global;

/// The labels of the siblings so far, in their order: of each its first eight bytes as a number, which is what most
/// comparisons look at, its bytes, and the place of its box.
#[derive(Drop)]
pub struct Siblings<'t> {
    pub marks: Vec<(u64, &'t [u8], usize)>,
}

/// No siblings.
pub fn no_siblings<'t>(alloc: Global) -> Siblings<'t>
    ensures { marked result ≡ [] }
{
    Siblings {
        marks: Vec::new(alloc),
    }
}

fn byte_at(label: &[u8], i: usize) -> u8
    ensures { result ≡ slice_index label.now i }
{
    match label.get(i) {
        Some(byte) => *byte,
        None => 0,
    }
}

/// The first eight bytes as a number, with zeros where there are fewer.
fn front(label: &[u8]) -> u64
    ensures { result ≡ front_of label.now }
{
    u64::from_be_bytes([
        byte_at(label, 0),
        byte_at(label, 1),
        byte_at(label, 2),
        byte_at(label, 3),
        byte_at(label, 4),
        byte_at(label, 5),
        byte_at(label, 6),
        byte_at(label, 7),
    ])
}

/// Adds the label of the box at a place, where it has one.
pub fn add<'t>(
    siblings: &mut Siblings<'t>,
    label: Option<&'t str>,
    place: usize,
) -> Result<(), JumbfError>
    ensures ok { OnOk result (marked siblings.new
        ≡ marked siblings.old ++ own_marks place (text_of label.entry)) }
    ensures err { IfErr result (λ e. e ≡ NoMemory) }
{
    let Some(text) = label else {
        return Ok(());
    };
    let bytes = text.as_bytes();
    siblings.marks.push((front(bytes), bytes, place))?;
    Ok(())
}

/// Whether two labels are one, and the second comes later.
fn repeats(x: &(u64, &[u8], usize), y: &(u64, &[u8], usize)) -> bool
    ensures { IsTrue result
        ↔ Repeats (x.now.0, x.now.1.now, x.now.2) (y.now.0, y.now.1.now, y.now.2) }
{
    x.0 == y.0 && x.2 < y.2 && x.1 == y.1
}

fn lesser(least: Option<usize>, n: usize) -> Option<usize>
    ensures { result ≡ Some (lesser_of least n) }
{
    match least {
        None => Some(n),
        Some(m) => Some(m.min(n)),
    }
}

/// The least place of those that repeat the one before them.
fn least_repeated(sorted: &[(u64, &[u8], usize)]) -> Option<usize>
    ensures { LeastRepeated (marks sorted.now) (length sorted.now) result }
{
    let mut least = None;
    for i in 1..sorted.len() {
        if repeats(&sorted[i - 1], &sorted[i]) {
            least = lesser(least, sorted[i].2);
        }
    }
    least
}

/// Refuses the first label that an earlier sibling has, with the place of its box.
pub fn none_repeated(siblings: Siblings<'_>) -> Result<(), JumbfError>
    ensures ok { OnOk result (NoneRepeats (marked siblings.entry)) }
    ensures err { IfErr result (λ e. (p : ℕ) × (e ≡ DuplicateLabel p)
        × IsFirstRepeated (marked siblings.entry) p) }
{
    let mut sorted = siblings.marks;
    sorted.sort_unstable();
    match least_repeated(sorted.as_slice()) {
        Some(place) => Err(JumbfError::DuplicateLabel(place)),
        None => Ok(()),
    }
}

/// The fault of boxes that are side by side, where the last of them has this fault: the first label that an earlier
/// sibling has comes before it. Memory that ran out says nothing of the bytes.
pub fn first_fault(siblings: Siblings<'_>, fault: JumbfError) -> JumbfError
    ensures { IsFirstFault (marked siblings.entry) fault result }
{
    match fault {
        JumbfError::NoMemory => JumbfError::NoMemory,
        _ => match none_repeated(siblings) {
            Ok(()) => fault,
            Err(first) => first,
        },
    }
}
