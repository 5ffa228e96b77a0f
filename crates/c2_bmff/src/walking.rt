// A walk over boxes that visits each of them once for all exclusions.
ghost use Rattle.std.specs.Prelude.{◌≡◌, ◌||◌, ◌+◌, ◌*◌, ◌<◌, [], ◌∷◌, ◌++◌, ℕ, List, All, OnOk};
ghost use Rattle.std.specs.Prelude.{IfOk, IfErr, IfSome, is_some, cond, get_or, length, take, ◌≤◌};
ghost use Rattle.std.specs.List.{list_any};
ghost use Rattle.std.specs.Option.{ForSome};
ghost use Rattle.c2_base.specs.Source.{StaysSource};
ghost use Rattle.c2_spec.specs.Bmff.Hash.{Exclusion as AnyExclusion};
ghost use Rattle.c2_spec.specs.Bmff.Paths.{nth_of};
ghost use Rattle.c2_spec.specs.Cover.{is_excluded};
ghost use Rattle.c2_bmff_boxes.specs.Causes.{IsBmffCaused, OrBmffFault};
ghost use Rattle.c2_bmff_rows.specs.Rows.{IsRowWithin};
ghost use Rattle.c2_bmff_rows.specs.Children.{kids};
ghost use Rattle.c2_bmff_excluded.specs.Marks.{IsFront, IsRangeWithin, SharedPath, excludes_any};
ghost use Rattle.c2_bmff_excluded.specs.Marks.{excludes_row, marks};
ghost use Rattle.c2_bmff.specs.Trails.{IsLevelWithin, ahead, arrives, found, from_step, has_step};
ghost use Rattle.c2_bmff.specs.Trails.{level_ahead, level_left, levels_left, no_exclusion, picks};
ghost use Rattle.c2_bmff.specs.Trails.{through};
ghost use Rattle.c2_bmff_rows.specs.declared.row.RootBox.{RootBox};

use crate::fronts::{fill_front, room_for};
use c2_base::{MediaError, NoMemory, Range, Source};
use c2_bmff_boxes::{RootBox, children};
use c2_bmff_excluded::{Ask, Entry, add_sorted, entries_of, is_whole, join_full, mark_row};
use c2_bmff_paths::{Exclusion, Segment, enters};
use std::alloc::Global;

// Which of the coming siblings of a step's type the step means.
#[derive(Clone, Copy, Debug, PartialEq, Eq)]
pub enum Coming {
    // The step means all coming siblings of its type.
    Each,
    // The step means the sibling of its type before which so many others come.
    After(u32),
    // The step means none of the coming siblings.
    Done,
}

// How far an exclusion came on its path in a list of siblings.
#[derive(Clone, Copy, Debug)]
pub struct Trail {
    // The exclusion's index.
    entry: usize,
    // How many steps of its path were taken, with the one that is matched against these siblings.
    taken: usize,
    // The last step that was taken, which is matched against these siblings.
    step: Segment,
    // Which of the coming siblings that step means.
    coming: Coming,
}

// Siblings, how many of them were visited, and the exclusions whose paths came to them.
#[derive(Drop)]
pub struct Level {
    rows: Vec<RootBox>,
    next: usize,
    trails: Vec<Trail>,
}

// What a walk has in hand: room for the first bytes of a box, and the ranges of the positions that are excluded so far.
#[derive(Drop)]
pub struct Marking {
    bytes: Vec<u8>,
    ranges: Vec<Range>,
}

// How many ranges are joined for the first time, of boxes inside one another as well.
const JOINED_FROM: usize = 65_536;

// Which siblings a step with this number means.
fn coming_of(nth: Option<u32>) -> Coming
    ensures { (rows : List RootBox) → picks result rows ≡ nth_of nth rows }
{
    match nth {
        Some(k) => Coming::After(k.saturating_sub(1)),
        None => Coming::Each,
    }
}

// Whether the next sibling is meant, and which of those after it.
fn past(coming: Coming) -> (bool, Coming)
    ensures { (row : RootBox) (rows : List RootBox)
        → picks coming (row ∷ rows) ≡ cond result.0 (row ∷ []) [] ++ picks result.1 rows }
{
    match coming {
        Coming::Each => (true, Coming::Each),
        Coming::After(n) => {
            if n == 0 {
                return (true, Coming::Done);
            }
            (false, Coming::After(n - 1))
        }
        Coming::Done => (false, Coming::Done),
    }
}

// The trail of an exclusion of which so many steps were taken, in a list of siblings; None where its path has no further step.
fn trail_from(entries: &[Entry<'_>], entry: usize, taken: usize) -> Option<Trail>
    ensures ahead { IfSome result (λ t. (file : List ℕ) (i : ℕ) (rows : List RootBox)
        → ahead file entries.now i rows t ≡ from_step file entries.now i rows entry taken) }
    ensures more { has_step entries.now entry taken ≡ is_some result }
{
    let exclusion = entries.get(entry)?;
    let step = *exclusion.path.segments().get(taken)?;
    Some(Trail {
        entry,
        taken: taken + 1,
        step,
        coming: coming_of(step.nth),
    })
}

// Where a trail means the box of this row: adds its exclusion to `here` where the path ends there, else its further trail to `below`
// where the path enters the box.
fn arrive(
    entries: &[Entry<'_>],
    row: RootBox,
    at: Trail,
    here: &mut Vec<usize>,
    below: &mut Vec<Trail>,
) -> Result<(), NoMemory>
    ensures { OnOk result ((file : List ℕ) (i : ℕ)
        → found file entries.now i row here.new.items below.new.items
        ≡ (found file entries.now i row here.old.items below.old.items
        || arrives file entries.now i row at)) }
{
    let Some(next) = trail_from(entries, at.entry, at.taken) else {
        here.push(at.entry)?;
        return Ok(());
    };
    let kind = at.step.kind;
    if enters(kind) {
        below.push(next)?;
    }
    Ok(())
}

// Passes the box of this row on a trail.
fn pass(
    entries: &[Entry<'_>],
    row: RootBox,
    trail: &mut Trail,
    here: &mut Vec<usize>,
    below: &mut Vec<Trail>,
) -> Result<(), NoMemory>
    ensures { OnOk result ((file : List ℕ) (i : ℕ) (rows : List RootBox)
        → (found file entries.now i row here.new.items below.new.items
        || ahead file entries.now i rows trail.new)
        ≡ (found file entries.now i row here.old.items below.old.items
        || ahead file entries.now i (row ∷ rows) trail.old)) }
{
    let at = *trail;
    let kind = at.step.kind;
    if row.kind == kind {
        let (is_meant, coming) = past(at.coming);
        trail.coming = coming;
        if is_meant {
            arrive(entries, row, at, here, below)?;
        }
    }
    Ok(())
}

// Passes the box of this row on all trails.
fn pass_all(
    entries: &[Entry<'_>],
    row: RootBox,
    trails: &mut [Trail],
    here: &mut Vec<usize>,
    below: &mut Vec<Trail>,
) -> Result<(), NoMemory>
    ensures { OnOk result ((file : List ℕ) (i : ℕ) (rows : List RootBox)
        → (found file entries.now i row here.new.items below.new.items
        || list_any (ahead file entries.now i rows) trails.new)
        ≡ (found file entries.now i row here.old.items below.old.items
        || list_any (ahead file entries.now i (row ∷ rows)) trails.old)) }
{
    for k in 0..trails.len() {
        pass(entries, row, &mut trails[k], here, below)?;
    }
    Ok(())
}

// Adds the positions that these exclusions of one path exclude through the box of this row, of which so many first bytes are in `bytes`,
// and gives how many are there then: byte tests read them once.
fn mark_asks<S: Source>(
    source: &mut S,
    asks: &[Ask],
    row: RootBox,
    bytes: &mut [u8],
    filled: usize,
    ranges: &mut Vec<Range>,
) -> Result<usize, MediaError>
    requires inside { IsRowWithin (S.len source.old) row }
    requires few { filled ≤ length bytes.old }
    requires front { ForSome (S.known source.old)
        (λ file. IsFront file row (take filled bytes.old)) }
    requires within { All (IsRangeWithin (S.len source.old)) ranges.old.items }
    ensures few { IfOk result (λ n. n ≤ length bytes.new) }
    ensures front { IfOk result (λ n. ForSome (S.known source.old)
        (λ file. IsFront file row (take n bytes.new))) }
    ensures same { OnOk result (ForSome (S.known source.old) (λ file.
        (i : ℕ) → is_excluded ranges.new.items i ≡ (is_excluded ranges.old.items i
        || list_any (λ (e : AnyExclusion). marks file e i row) asks.now))) }
    ensures within { OnOk result (All (IsRangeWithin (S.len source.old)) ranges.new.items) }
    ensures stays { StaysSource S.len S.known S.faults source.old source.new }
    ensures count { OnOk result (S.faults source.new ≡ S.faults source.old) }
    ensures cause { IfErr result (IsBmffCaused (S.faults source.old) (S.faults source.new)) }
    ensures outside { IfErr result (λ e. OrBmffFault e ⊥) }
{
    let mut count = filled;
    for ask in asks {
        if is_whole(ranges, row) {
            return Ok(count);
        }
        count = fill_front(source, ask, row, bytes, count)?;
        // Matched and not handed up by `?`, here and below: each way out has clauses of its own.
        match mark_row(source, ask, row, &bytes[..count], ranges) {
            Ok(()) => {}
            Err(error) => return Err(error),
        }
    }
    Ok(count)
}

// The exclusions of the path of this index; none where there is no such path.
fn asks_at<'a>(entries: &'a [Entry<'_>], k: usize) -> &'a [Ask]
    ensures { (file : List ℕ) (i : ℕ) (row : RootBox)
        → list_any (λ (e : AnyExclusion). marks file e i row) result.now
        ≡ through file entries.now i row k }
{
    if k >= entries.len() {
        return &[];
    }
    let entry = &entries[k];
    entry.asks.as_slice()
}

// Adds the positions that these exclusions exclude through the box of this row. Byte tests read its first bytes once, into `bytes`.
fn mark_each<S: Source>(
    source: &mut S,
    entries: &[Entry<'_>],
    here: &[usize],
    row: RootBox,
    bytes: &mut [u8],
    ranges: &mut Vec<Range>,
) -> Result<(), MediaError>
    requires inside { IsRowWithin (S.len source.old) row }
    requires within { All (IsRangeWithin (S.len source.old)) ranges.old.items }
    ensures same { OnOk result (ForSome (S.known source.old) (λ file.
        (i : ℕ) → is_excluded ranges.new.items i
        ≡ (is_excluded ranges.old.items i || list_any (through file entries.now i row) here.now))) }
    ensures within { OnOk result (All (IsRangeWithin (S.len source.old)) ranges.new.items) }
    ensures stays { StaysSource S.len S.known S.faults source.old source.new }
    ensures count { OnOk result (S.faults source.new ≡ S.faults source.old) }
    ensures cause { IfErr result (IsBmffCaused (S.faults source.old) (S.faults source.new)) }
    ensures outside { IfErr result (λ e. OrBmffFault e ⊥) }
{
    let mut count = 0;
    for k in here {
        let asks = asks_at(entries, *k);
        match mark_asks(source, asks, row, bytes, count, ranges) {
            Ok(filled) => count = filled,
            Err(error) => return Err(error),
        }
    }
    Ok(())
}

// Adds the positions that these exclusions exclude through the box of this row, where their ranges are joined before they are added.
fn mark_here<S: Source>(
    alloc: Global,
    source: &mut S,
    entries: &[Entry<'_>],
    here: &[usize],
    row: RootBox,
    marking: &mut Marking,
) -> Result<(), MediaError>
    requires inside { IsRowWithin (S.len source.old) row }
    requires within { All (IsRangeWithin (S.len source.old)) marking.old.ranges.items }
    ensures same { OnOk result (ForSome (S.known source.old) (λ file.
        (i : ℕ) → is_excluded marking.new.ranges.items i
        ≡ (is_excluded marking.old.ranges.items i
        || list_any (through file entries.now i row) here.now))) }
    ensures within { OnOk result (All (IsRangeWithin (S.len source.old)) marking.new.ranges.items) }
    ensures stays { StaysSource S.len S.known S.faults source.old source.new }
    ensures count { OnOk result (S.faults source.new ≡ S.faults source.old) }
    ensures cause { IfErr result (IsBmffCaused (S.faults source.old) (S.faults source.new)) }
    ensures outside { IfErr result (λ e. OrBmffFault e ⊥) }
{
    if is_whole(&marking.ranges, row) {
        return Ok(());
    }
    let mut own = Vec::new(alloc);
    match mark_each(source, entries, here, row, &mut marking.bytes, &mut own) {
        Ok(()) => {}
        Err(error) => return Err(error),
    }
    add_sorted(&mut marking.ranges, &mut own)?;
    Ok(())
}

// Visits the box of this row: adds the positions that are excluded through it, and gives the trails that go on below it.
fn visit<S: Source>(
    alloc: Global,
    source: &mut S,
    entries: &[Entry<'_>],
    row: RootBox,
    trails: &mut [Trail],
    marking: &mut Marking,
) -> Result<Vec<Trail>, MediaError>
    requires inside { IsRowWithin (S.len source.old) row }
    requires within { All (IsRangeWithin (S.len source.old)) marking.old.ranges.items }
    ensures same { IfOk result (λ below. ForSome (S.known source.old) (λ file.
        (i : ℕ) (rows : List RootBox)
        → ((is_excluded marking.new.ranges.items i
        || list_any (ahead file entries.now i (kids file row)) below.items)
        || list_any (ahead file entries.now i rows) trails.new)
        ≡ (is_excluded marking.old.ranges.items i
        || list_any (ahead file entries.now i (row ∷ rows)) trails.old))) }
    ensures within { OnOk result (All (IsRangeWithin (S.len source.old)) marking.new.ranges.items) }
    ensures stays { StaysSource S.len S.known S.faults source.old source.new }
    ensures count { OnOk result (S.faults source.new ≡ S.faults source.old) }
    ensures cause { IfErr result (IsBmffCaused (S.faults source.old) (S.faults source.new)) }
    ensures outside { IfErr result (λ e. OrBmffFault e ⊥) }
{
    let mut here = Vec::new(alloc);
    let mut below = Vec::new(alloc);
    pass_all(entries, row, trails, &mut here, &mut below)?;
    match mark_here(alloc, source, entries, &here, row, marking) {
        Ok(()) => Ok(below),
        Err(error) => Err(error),
    }
}

// Adds the trail of the exclusion of this index before its first step, where it has one.
fn add_first(entries: &[Entry<'_>], k: usize, trails: &mut Vec<Trail>) -> Result<(), NoMemory>
    requires { k < length entries.now }
    ensures { OnOk result ((file : List ℕ) (i : ℕ) (rows : List RootBox)
        → list_any (ahead file entries.now i rows) trails.new.items
        ≡ (list_any (ahead file entries.now i rows) trails.old.items
        || excludes_any file rows i (get_or entries.now k no_exclusion))) }
{
    if let Some(first) = trail_from(entries, k, 0) {
        trails.push(first)?;
    }
    Ok(())
}

// The trails of all exclusions before their first steps.
fn first_trails(alloc: Global, entries: &[Entry<'_>]) -> Result<Vec<Trail>, NoMemory>
    ensures { IfOk result (λ trails. (file : List ℕ) (i : ℕ) (rows : List RootBox)
        → list_any (ahead file entries.now i rows) trails.items
        ≡ list_any (excludes_any file rows i) entries.now) }
{
    let mut trails = Vec::new(alloc);
    for k in 0..entries.len() {
        add_first(entries, k, &mut trails)?;
    }
    Ok(trails)
}

// A copy of these rows.
fn copied(alloc: Global, rows: &[RootBox]) -> Result<Vec<RootBox>, NoMemory>
    ensures { IfOk result (λ copy. copy.items ≡ rows.now) }
{
    Ok(Vec::from_slice(alloc, rows)?)
}

// Adds a list of siblings.
fn add_level(
    levels: &mut Vec<Level>,
    rows: Vec<RootBox>,
    next: usize,
    trails: Vec<Trail>,
) -> Result<(), NoMemory>
    ensures { OnOk result (levels.new.items
        ≡ levels.old.items ++ record { rows = rows; next = next; trails = trails } ∷ []) }
{
    levels.push(Level { rows, next, trails })?;
    Ok(())
}

// Adds the list of the children of the box of this row, where trails go on below it.
fn open_row<S: Source>(
    alloc: Global,
    source: &mut S,
    row: RootBox,
    below: Vec<Trail>,
    levels: &mut Vec<Level>,
) -> Result<(), MediaError>
    requires inside { IsRowWithin (S.len source.old) row }
    requires levels { All (IsLevelWithin (S.len source.old)) levels.old.items }
    ensures ahead { OnOk result (ForSome (S.known source.old) (λ file.
        (es : List SharedPath) (i : ℕ) → list_any (level_ahead file es i) levels.new.items
        ≡ (list_any (level_ahead file es i) levels.old.items
        || list_any (ahead file es i (kids file row)) below.items))) }
    ensures levels { OnOk result (All (IsLevelWithin (S.len source.old)) levels.new.items) }
    ensures left { OnOk result
        (levels_left levels.new.items < levels_left levels.old.items + 2 * row.length) }
    ensures stays { StaysSource S.len S.known S.faults source.old source.new }
    ensures count { OnOk result (S.faults source.new ≡ S.faults source.old) }
    ensures cause { IfErr result (IsBmffCaused (S.faults source.old) (S.faults source.new)) }
    ensures outside { IfErr result (λ e. OrBmffFault e ⊥) }
{
    if below.is_empty() {
        return Ok(());
    }
    let rows = match children(alloc, source, row) {
        Ok(rows) => rows,
        Err(error) => return Err(error),
    };
    add_level(levels, rows, 0, below)?;
    Ok(())
}

// One turn of the walk: the next box of this list of siblings.
fn turn<S: Source>(
    alloc: Global,
    source: &mut S,
    entries: &[Entry<'_>],
    level: Level,
    levels: &mut Vec<Level>,
    marking: &mut Marking,
) -> Result<(), MediaError>
    requires inside { IsLevelWithin (S.len source.old) level }
    requires levels { All (IsLevelWithin (S.len source.old)) levels.old.items }
    requires within { All (IsRangeWithin (S.len source.old)) marking.old.ranges.items }
    ensures same { OnOk result (ForSome (S.known source.old) (λ file. (i : ℕ)
        → (is_excluded marking.new.ranges.items i
        || list_any (level_ahead file entries.now i) levels.new.items)
        ≡ (is_excluded marking.old.ranges.items i
        || (list_any (level_ahead file entries.now i) levels.old.items
        || level_ahead file entries.now i level)))) }
    ensures levels { OnOk result (All (IsLevelWithin (S.len source.old)) levels.new.items) }
    ensures left { OnOk result
        (levels_left levels.new.items < levels_left levels.old.items + level_left level) }
    ensures within { OnOk result (All (IsRangeWithin (S.len source.old)) marking.new.ranges.items) }
    ensures stays { StaysSource S.len S.known S.faults source.old source.new }
    ensures count { OnOk result (S.faults source.new ≡ S.faults source.old) }
    ensures cause { IfErr result (IsBmffCaused (S.faults source.old) (S.faults source.new)) }
    ensures outside { IfErr result (λ e. OrBmffFault e ⊥) }
{
    let next = level.next;
    if next >= level.rows.len() {
        return Ok(());
    }
    let row = level.rows[next];
    let mut trails = level.trails;
    let below = match visit(alloc, source, entries, row, &mut trails, marking) {
        Ok(below) => below,
        Err(error) => return Err(error),
    };
    add_level(levels, level.rows, next + 1, trails)?;
    match open_row(alloc, source, row, below, levels) {
        Ok(()) => Ok(()),
        Err(error) => Err(error),
    }
}

// Walks over these lists of siblings and all below them, the last list first.
fn walk<S: Source>(
    alloc: Global,
    source: &mut S,
    entries: &[Entry<'_>],
    levels: &mut Vec<Level>,
    marking: &mut Marking,
) -> Result<(), MediaError>
    requires levels { All (IsLevelWithin (S.len source.old)) levels.old.items }
    requires within { All (IsRangeWithin (S.len source.old)) marking.old.ranges.items }
    ensures same { OnOk result (ForSome (S.known source.old) (λ file. (i : ℕ)
        → is_excluded marking.new.ranges.items i ≡ (is_excluded marking.old.ranges.items i
        || list_any (level_ahead file entries.now i) levels.old.items))) }
    ensures within { OnOk result (All (IsRangeWithin (S.len source.old)) marking.new.ranges.items) }
    ensures stays { StaysSource S.len S.known S.faults source.old source.new }
    ensures count { OnOk result (S.faults source.new ≡ S.faults source.old) }
    ensures cause { IfErr result (IsBmffCaused (S.faults source.old) (S.faults source.new)) }
    ensures outside { IfErr result (λ e. OrBmffFault e ⊥) }
{
    let mut full = JOINED_FROM;
    'boxes: while let Some(level) = levels.pop() {
        match turn(alloc, source, entries, level, levels, marking) {
            Ok(()) => {}
            Err(error) => return Err(error),
        }
        full = join_full(alloc, &mut marking.ranges, full)?;
    }
    Ok(())
}

// The list of siblings with which a walk begins, with the trails of all exclusions before their first steps.
fn first_levels(
    alloc: Global,
    siblings: &[RootBox],
    entries: &[Entry<'_>],
) -> Result<Vec<Level>, NoMemory>
    ensures ahead { IfOk result (λ levels. (file : List ℕ) (i : ℕ)
        → list_any (level_ahead file entries.now i) levels.items
        ≡ list_any (excludes_any file siblings.now i) entries.now) }
    ensures within { IfOk result (λ levels. (len : ℕ)
        → All (IsRowWithin len) siblings.now → All (IsLevelWithin len) levels.items) }
{
    let trails = first_trails(alloc, entries)?;
    let rows = copied(alloc, siblings)?;
    let mut levels = Vec::new(alloc);
    add_level(&mut levels, rows, 0, trails)?;
    Ok(levels)
}

// What a walk has in hand at its beginning: no ranges, and room for the bytes that byte tests ask for.
fn new_marking(alloc: Global, entries: &[Entry<'_>]) -> Result<Marking, NoMemory>
    ensures { IfOk result (λ marking. marking.ranges.items ≡ []) }
{
    let bytes = room_for(alloc, entries)?;
    let ranges = Vec::new(alloc);
    Ok(Marking { bytes, ranges })
}

/// The positions that these exclusions exclude together through these siblings and the boxes below them.
pub(crate) fn mark_all<S: Source>(
    alloc: Global,
    source: &mut S,
    siblings: &[RootBox],
    entries: &[Exclusion],
) -> Result<Vec<Range>, MediaError>
    requires inside { All (IsRowWithin (S.len source.old)) siblings.now }
    ensures excluded { IfOk result (λ ranges. ForSome (S.known source.old) (λ file.
        (i : ℕ) → is_excluded ranges.items i
        ≡ list_any (excludes_row file siblings.now i) entries.now)) }
    ensures within { IfOk result (λ ranges. All (IsRangeWithin (S.len source.old)) ranges.items) }
    ensures stays { StaysSource S.len S.known S.faults source.old source.new }
    ensures count { OnOk result (S.faults source.new ≡ S.faults source.old) }
    ensures cause { IfErr result (IsBmffCaused (S.faults source.old) (S.faults source.new)) }
    ensures outside { IfErr result (λ e. OrBmffFault e ⊥) }
{
    let entries = entries_of(alloc, entries)?;
    let entries = entries.as_slice();
    let mut levels = first_levels(alloc, siblings, entries)?;
    let mut marking = new_marking(alloc, entries)?;
    match walk(alloc, source, entries, &mut levels, &mut marking) {
        Ok(()) => Ok(marking.ranges),
        Err(error) => Err(error),
    }
}
