// Exclusions as a walk over boxes uses them: by their paths, those that differ in their parts alone as one, with their parts and their
// byte tests put in order once.
ghost use Rattle.std.specs.Prelude.{◌≡◌, true, ◌||◌, [], ℕ, List, OnOk, IfOk, IfSome, option_map};
ghost use Rattle.std.specs.List.{list_any};
ghost use Rattle.std.specs.List.Sorted.{IsPermutation};
ghost use Rattle.c2_spec.specs.Bmff.Hash.{in_subset};
ghost use Rattle.c2_bmff_excluded.specs.Marks.{excludes_any, excludes_row};
ghost use Rattle.c2_bmff_excluded.specs.Parts.{AreRising, AskSame, ExcludeSame, MarkSame};
ghost use Rattle.c2_bmff_excluded.specs.Parts.{ShareSame};
ghost use Rattle.c2_bmff_rows.specs.declared.row.RootBox.{RootBox};

use crate::parts::merged;
use crate::runs::{Runs, runs_of};
use c2_base::{NoMemory, Range, Ranges};
use c2_bmff_paths::{ByteTests, Exclusion, Path};
use std::alloc::Global;
use std::marker::Model;

/// What an exclusion asks of the boxes on its path, with its parts in the order of their starts; None where no box meets its byte tests.
#[derive(Drop)]
pub struct Ask {
    pub length: Option<u64>,
    pub tests: Option<Runs>,
    pub parts: Option<Vec<Range>>,
}

impl Model for Ask {
    ghost use Rattle.std.specs.Prelude.{[], IfSome, option_map};
    ghost use Rattle.c2_spec.specs.Bmff.Hash as hash;
    ghost use Rattle.c2_bmff_excluded.specs.Parts.{AreRising};
    ghost use Rattle.c2_bmff_excluded.specs.Runs.{AreRunsWithin, asked};

    ghost Value = { hash.Exclusion };

    ghost view = { λ e. record {
      path = [];
      length = e.length;
      tests = asked e.tests;
      subset = option_map (λ parts. parts.items) e.parts;
    } };

    ghost invariant = { λ e.
        IfSome e.parts (λ parts. AreRising parts.items) × IfSome e.tests AreRunsWithin };
}

/// The exclusions of one path.
#[derive(Drop)]
pub struct Entry<'e> {
    pub path: &'e Path,
    pub asks: Vec<Ask>,
}

impl<'e> Model for Entry<'e> {
    ghost use Rattle.c2_bmff_excluded.specs.Marks.{SharedPath};

    ghost Value = { SharedPath };

    ghost view = { λ e. record { path = e.path.now; exclusions = e.asks.items } };
}

// An exclusion in a list of them.
#[derive(Drop)]
pub struct Member<'e> {
    exclusion: &'e Exclusion,
}

impl<'e> Model for Member<'e> {
    ghost use Rattle.c2_spec.specs.Bmff.Hash as hash;

    ghost Value = { hash.Exclusion };

    ghost view = { λ l. l.exclusion.now };
}

// Exclusions that ask the same of a box, as one: the first of them, and the parts of all; None where one of them has the whole box.
#[derive(Drop)]
pub struct Group<'e> {
    first: &'e Exclusion,
    parts: Option<Vec<Range>>,
}

impl<'e> Model for Group<'e> {
    ghost use Rattle.std.specs.Prelude.{option_map};
    ghost use Rattle.c2_spec.specs.Bmff.Hash as hash;

    ghost Value = { hash.Exclusion };

    ghost view = { λ g. record {
      path = g.first.now.path;
      length = g.first.now.length;
      tests = g.first.now.tests;
      subset = option_map (λ parts. parts.items) g.parts;
    } };
}

// Whether two paths are the same.
fn is_same_path(first: &Path, other: &Path) -> bool
    ensures { result ≡ true → first.now ≡ other.now }
{
    first.text() == other.text()
}

// Whether there are no byte tests.
fn has_none(tests: &ByteTests) -> bool
    ensures { result ≡ true → tests.now ≡ [] }
{
    tests.as_slice().is_empty()
}

// Whether two lengths are the same.
fn is_same_length(first: Option<u64>, other: Option<u64>) -> bool
    ensures { result ≡ true → first ≡ other }
{
    first == other
}

// Whether two exclusions have one path and one length, and no byte tests.
fn is_alike(first: &Exclusion, other: &Exclusion) -> bool
    ensures { result ≡ true → AskSame first.now other.now }
{
    if !has_none(&first.tests) || !has_none(&other.tests) {
        return false;
    }
    is_same_length(first.length, other.length) && is_same_path(&first.path, &other.path)
}

// The parts of a subset, where there is one.
fn copied(alloc: Global, subset: &Option<Ranges>) -> Result<Option<Vec<Range>>, NoMemory>
    ensures { IfOk result (λ parts. option_map (λ all. all.items) parts ≡ subset.now) }
{
    let Some(parts) = subset else {
        return Ok(None);
    };
    let parts = Vec::from_slice(alloc, parts.as_slice())?;
    Ok(Some(parts))
}

// The parts of two subsets together.
fn united(parts: Option<Vec<Range>>, more: &Option<Ranges>) -> Result<Option<Vec<Range>>, NoMemory>
    ensures { IfOk result (λ all. (i : ℕ) → in_subset i (option_map (λ a. a.items) all)
        ≡ (in_subset i (option_map (λ p. p.items) parts) || in_subset i more.now)) }
{
    let Some(mut all) = parts else {
        return Ok(None);
    };
    let Some(others) = more else {
        return Ok(None);
    };
    all.extend_from_slice(others.as_slice())?;
    Ok(Some(all))
}

// Adds an exclusion, to the last group where it is alike.
fn add_exclusion<'e>(
    alloc: Global,
    groups: &mut Vec<Group<'e>>,
    exclusion: &'e Exclusion,
) -> Result<(), NoMemory>
    ensures { OnOk result ((file : List ℕ) (rows : List RootBox) (i : ℕ)
        → list_any (excludes_row file rows i) groups.new.items
        ≡ (list_any (excludes_row file rows i) groups.old.items
        || excludes_row file rows i exclusion.now)) }
{
    if let Some(last) = groups.pop() {
        if is_alike(last.first, exclusion) {
            let first = last.first;
            let parts = united(last.parts, &exclusion.subset)?;
            groups.push(Group { first, parts })?;
            return Ok(());
        }
        groups.push(last)?;
    }
    let parts = copied(alloc, &exclusion.subset)?;
    groups.push(Group {
        first: exclusion,
        parts,
    })?;
    Ok(())
}

// These exclusions, where those that may be alike stand beside one another.
fn sorted<'e>(alloc: Global, exclusions: &'e [Exclusion]) -> Result<Vec<Member<'e>>, NoMemory>
    ensures { IfOk result (λ list. IsPermutation exclusions.now list.items) }
{
    let mut list = members(alloc, exclusions)?;
    list.sort_unstable_by_key(|member| {
        let exclusion = member.exclusion;
        (
            exclusion.path.text(),
            exclusion.tests.as_slice().len(),
            exclusion.length,
        )
    });
    Ok(list)
}

// These exclusions, in their order.
fn members<'e>(alloc: Global, exclusions: &'e [Exclusion]) -> Result<Vec<Member<'e>>, NoMemory>
    ensures { IfOk result (λ list. list.items ≡ exclusions.now) }
{
    let mut list = Vec::new(alloc);
    for exclusion in exclusions {
        list.push(Member { exclusion })?;
    }
    Ok(list)
}

// The groups of these exclusions.
fn groups_of<'e>(alloc: Global, list: &[Member<'e>]) -> Result<Vec<Group<'e>>, NoMemory>
    ensures { IfOk result (λ groups. ExcludeSame groups.items list.now) }
{
    let mut groups = Vec::new(alloc);
    for member in list {
        add_exclusion(alloc, &mut groups, member.exclusion)?;
    }
    Ok(groups)
}

// These parts in order, where there are any.
fn parts_of(alloc: Global, parts: &Option<Vec<Range>>) -> Result<Option<Vec<Range>>, NoMemory>
    ensures same { IfOk result (λ ordered. (i : ℕ)
        → in_subset i (option_map (λ all. all.items) ordered)
        ≡ in_subset i (option_map (λ all. all.items) parts.now)) }
    ensures rising { IfOk result (λ ordered. IfSome ordered (λ all. AreRising all.items)) }
{
    let Some(all) = parts else {
        return Ok(None);
    };
    let ordered = merged(alloc, all.as_slice())?;
    Ok(Some(ordered))
}

// What the exclusion of a group asks, with its parts and its byte tests in order.
fn ask_of(alloc: Global, group: &Group<'_>) -> Result<Ask, NoMemory>
    ensures { IfOk result (λ ask. MarkSame ask group.now) }
{
    let parts = parts_of(alloc, &group.parts)?;
    let first = group.first;
    let tests = runs_of(alloc, first.tests.as_slice())?;
    Ok(Ask {
        length: first.length,
        tests,
        parts,
    })
}

// Adds the exclusion of a group, which asks this, as the first of its path.
fn begin_path<'e>(
    alloc: Global,
    entries: &mut Vec<Entry<'e>>,
    group: &Group<'e>,
    ask: Ask,
) -> Result<(), NoMemory>
    requires { MarkSame ask group.now }
    ensures { OnOk result ((file : List ℕ) (rows : List RootBox) (i : ℕ)
        → list_any (excludes_any file rows i) entries.new.items
        ≡ (list_any (excludes_any file rows i) entries.old.items
        || excludes_row file rows i group.now)) }
{
    let first = group.first;
    let path = &first.path;
    let mut asks = Vec::new(alloc);
    asks.push(ask)?;
    entries.push(Entry { path, asks })?;
    Ok(())
}

// Adds the exclusion of a group, to the last ones where it has their path.
fn add_group<'e>(
    alloc: Global,
    entries: &mut Vec<Entry<'e>>,
    group: &Group<'e>,
) -> Result<(), NoMemory>
    ensures { OnOk result ((file : List ℕ) (rows : List RootBox) (i : ℕ)
        → list_any (excludes_any file rows i) entries.new.items
        ≡ (list_any (excludes_any file rows i) entries.old.items
        || excludes_row file rows i group.now)) }
{
    let ask = ask_of(alloc, group)?;
    let first = group.first;
    if let Some(last) = entries.pop() {
        if is_same_path(last.path, &first.path) {
            let path = last.path;
            let mut asks = last.asks;
            asks.push(ask)?;
            entries.push(Entry { path, asks })?;
            return Ok(());
        }
        entries.push(last)?;
    }
    begin_path(alloc, entries, group, ask)
}

// The exclusions of these groups by their paths, with their parts and their byte tests in order.
fn entries_in<'e>(alloc: Global, groups: &[Group<'e>]) -> Result<Vec<Entry<'e>>, NoMemory>
    ensures { IfOk result (λ entries. ShareSame entries.items groups.now) }
{
    let mut entries = Vec::new(alloc);
    for group in groups {
        add_group(alloc, &mut entries, group)?;
    }
    Ok(entries)
}

/// The exclusions by their paths, as one where they differ in their parts alone and have no byte tests, with their parts and their byte
/// tests in order.
pub fn entries_of<'e>(
    alloc: Global,
    exclusions: &'e [Exclusion],
) -> Result<Vec<Entry<'e>>, NoMemory>
    ensures { IfOk result (λ entries. ShareSame entries.items exclusions.now) }
{
    let list = sorted(alloc, exclusions)?;
    let groups = groups_of(alloc, list.as_slice())?;
    let entries = entries_in(alloc, groups.as_slice())?;
    Ok(entries)
}
