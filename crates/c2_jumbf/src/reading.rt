// Trees of boxes are read in one pass: each box by its tests, its record written as it is met.
ghost use Rattle.std.specs.Prelude.{◌≡◌, ◌⊎◌, ◌+◌, ◌^◌, ◌<◌, ◌≤◌, ℕ, List, length, Option, IfOk};
ghost use Rattle.std.specs.Prelude.{IfErr, OnOk, MatchResult};
ghost use Rattle.c2_base.specs.declared.limits.TheConstants.{MAX_SUPERBOX_DEPTH};
ghost use Rattle.c2_spec.specs.declared.kinds.TheConstants.{JUMB};
ghost use Rattle.c2_spec.specs.Jumbf.Tree.{SpellsTree};
ghost use Rattle.c2_spec.specs.Jumbf.Tree as format;
ghost use Rattle.c2_spec.specs.Jumbf.Faults.{TreeFault, JumbfFault};
ghost use Rattle.c2_jumbf.specs.Heads.{IsHead};
ghost use Rattle.c2_jumbf.specs.Own.{IsOwn};
ghost use Rattle.c2_jumbf.specs.Labels.{marked};
ghost use Rattle.c2_jumbf.specs.Flat.{IsTreeAt, AreTreesIn, FaultAt, ChildFault, Opened};
ghost use Rattle.c2_jumbf.specs.Parsed.{IsParsed};

use crate::borrowed::Tree;
use crate::fields::{self, Fields};
use crate::front::{self, Front};
use crate::labels::{self, Siblings};
use crate::rows::Row;
use c2_base::limits::MAX_SUPERBOX_DEPTH;
use c2_spec::JumbfError;
use c2_spec::kinds::{JUMB, JUMD};
use std::alloc::Global;

/// The head of a superbox's description box, and the label that it has.
#[derive(Clone, Copy)]
pub struct Own<'t> {
    pub head: Front,
    pub fields: Fields<'t>,
}

/// The tests of a superbox up to its description's form.
fn description_in<'t>(
    region: &'t [u8],
    at: usize,
    depth: u8,
    head: Front,
) -> Result<Own<'t>, JumbfError>
    requires head_is { IsHead region.now head }
    requires small { at + length region.now < 2 ^ 64 }
    requires kind { head.kind ≡ JUMB }
    ensures ok { IfOk result (λ own. (depth ≤ MAX_SUPERBOX_DEPTH) × IsOwn region.now head own) }
    ensures err { (earlier : List (Option (List ℕ)))
        → IfErr result (TreeFault earlier depth at region.now) }
{
    if depth > MAX_SUPERBOX_DEPTH {
        return Err(JumbfError::TooDeep(at));
    }
    let payload = &region[head.header..head.total];
    if payload.is_empty() {
        return Err(JumbfError::NoDescription(at));
    }
    let place = at + head.header;
    let own = front::head_at(payload, place)?;
    if own.kind != JUMD {
        return Err(JumbfError::NoDescription(at));
    }
    match fields::fields_of(&payload[own.header..own.total]) {
        Some(fields) => Ok(Own { head: own, fields }),
        None => Err(JumbfError::BadDescription(place)),
    }
}

/// The tests of a superbox up to its label, which is added to its siblings'; its record and that of its description box
/// are added. Answers the length of the description box.
fn open_super<'t>(
    region: &'t [u8],
    at: usize,
    depth: u8,
    head: Front,
    siblings: &mut Siblings<'t>,
    rows: &mut Vec<Row>,
) -> Result<usize, JumbfError>
    requires head_is { IsHead region.now head }
    requires small { at + length region.now < 2 ^ 64 }
    requires depth { depth ≤ MAX_SUPERBOX_DEPTH + 1 }
    requires kind { head.kind ≡ JUMB }
    ensures kept { OnOk result (length rows.old.items < length rows.new.items) }
    ensures deep { IfOk result (λ from. (depth ≤ MAX_SUPERBOX_DEPTH)
        × (head.header + from ≤ head.total)) }
    ensures ok { IfOk result (Opened depth at region.now head
        (marked siblings.old) (marked siblings.new) rows.old.items rows.new.items) }
    ensures err { IfErr result (λ e. (e ≡ JumbfError.NoMemory)
        ⊎ FaultAt depth at region.now (marked siblings.old) (marked siblings.new) e) }
{
    let own = description_in(region, at, depth, head)?;
    labels::add(siblings, own.fields.label, at)?;
    let index = rows.len();
    rows.push(Row {
        place: at,
        total: head.total,
        after: index,
        header: head.header as u8,
        depth,
    })?;
    rows.push(Row {
        place: at + head.header,
        total: own.head.total,
        after: index + 2,
        header: own.head.header as u8,
        depth: depth + 1,
    })?;
    Ok(own.head.total)
}

/// The tree that begins the region, which is cut where the box has to end at the latest. Answers the box's length. Its label
/// is added to its siblings', and compared with theirs later.
#[cycle(tree)]
fn tree_at<'t>(
    alloc: Global,
    region: &'t [u8],
    at: usize,
    depth: u8,
    siblings: &mut Siblings<'t>,
    rows: &mut Vec<Row>,
) -> Result<usize, JumbfError>
    requires small { at + length region.now < 2 ^ 64 }
    requires depth { depth ≤ MAX_SUPERBOX_DEPTH + 1 }
    ensures ok { IfOk result (λ total. IsTreeAt depth at region.now total
        (marked siblings.old) (marked siblings.new) rows.old.items rows.new.items) }
    ensures within { IfOk result (λ total. (0 < total) × (total ≤ length region.now)) }
    ensures err { IfErr result (λ e. (e ≡ JumbfError.NoMemory)
        ⊎ FaultAt depth at region.now (marked siblings.old) (marked siblings.new) e) }
{
    let head = front::head_at(region, at)?;
    let index = rows.len();
    if head.kind != JUMB {
        rows.push(Row {
            place: at,
            total: head.total,
            after: index + 1,
            header: head.header as u8,
            depth,
        })?;
        return Ok(head.total);
    }
    let from = open_super(region, at, depth, head, siblings, rows)?;
    let children = &region[head.header + from..head.total];
    trees_in(alloc, children, at + head.header + from, depth + 1, rows)?;
    let after = rows.len();
    rows[index].after = after;
    Ok(head.total)
}

/// The trees that fill the payload. Their labels are compared once all are read or one has a fault: the first label that
/// an earlier sibling has comes before that fault.
#[cycle(tree)]
fn trees_in<'t>(
    alloc: Global,
    payload: &'t [u8],
    at: usize,
    depth: u8,
    rows: &mut Vec<Row>,
) -> Result<(), JumbfError>
    requires small { at + length payload.now < 2 ^ 64 }
    requires depth { depth ≤ MAX_SUPERBOX_DEPTH + 1 }
    ensures ok { IfOk result (λ _. AreTreesIn depth at payload.now rows.old.items rows.new.items) }
    ensures err { IfErr result (λ e. (e ≡ JumbfError.NoMemory)
        ⊎ ChildFault depth at payload.now e) }
    ensures kept { OnOk result (length rows.old.items ≤ length rows.new.items) }
{
    let mut siblings = labels::no_siblings(alloc);
    let mut from: usize = 0;
    while from < payload.len() {
        let rest = &payload[from..];
        match tree_at(alloc, rest, at + from, depth, &mut siblings, rows) {
            Ok(total) => from += total,
            Err(fault) => return Err(labels::first_fault(siblings, fault)),
        }
    }
    labels::none_repeated(siblings)
}

/// The records of the tree that the bytes spell.
fn rows_of(alloc: Global, bytes: &[u8]) -> Result<Vec<Row>, JumbfError>
    ensures ok { IfOk result (λ rows. IsParsed bytes.now rows.items) }
    ensures err { IfErr result (λ e. (e ≡ JumbfError.NoMemory) ⊎ JumbfFault bytes.now e) }
{
    let mut rows = Vec::new(alloc);
    let mut siblings = labels::no_siblings(alloc);
    let total = tree_at(alloc, bytes, 0, 1, &mut siblings, &mut rows)?;
    if total < bytes.len() {
        return Err(JumbfError::Trailing(total));
    }
    Ok(rows)
}

/// The tree that the bytes spell, or the first failing test.
fn read<'t>(alloc: Global, bytes: &'t [u8]) -> Result<Tree<'t>, JumbfError>
    ensures ok { IfOk result (λ tree. SpellsTree bytes.now tree) }
    ensures err { IfErr result (λ e. (e ≡ JumbfError.NoMemory) ⊎ JumbfFault bytes.now e) }
{
    let rows = rows_of(alloc, bytes)?;
    Ok(Tree { bytes, rows })
}

/// The tree that the bytes spell, borrowed from them; where there is none, the first failing test with its place
/// (ISO/IEC 19566-5; the limit on the depth of superboxes and the refusal of equal sibling labels are c2's own). Takes n log n
/// steps for n labels side by side, and 32 bytes for each box that has an index.
pub fn parse<'t>(alloc: Global, bytes: &'t [u8]) -> Result<Tree<'t>, JumbfError>
    // What is read is the legal tree that these bytes spell.
    ensures ok { IfOk result (λ tree. SpellsTree bytes.now tree) }
    ensures err { IfErr result (λ e. (e ≡ JumbfError.NoMemory) ⊎ JumbfFault bytes.now e) }

    // A legal tree that they spell is read, and a first failing test is answered, unless memory runs out.
    ensures only_tree { (t : format.Tree) → SpellsTree bytes.now t
        → MatchResult result (λ tree. tree ≡ t) (λ e. e ≡ JumbfError.NoMemory) }
    ensures only_fault { (f : JumbfError) → JumbfFault bytes.now f
        → MatchResult result (λ _. ⊥) (λ e. (e ≡ JumbfError.NoMemory) ⊎ (e ≡ f)) }
{
    read(alloc, bytes)
}
