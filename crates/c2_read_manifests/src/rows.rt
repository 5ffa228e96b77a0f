// Rows of bits: which manifests are reached from which.
ghost use Rattle.std.specs.Prelude.{◌≡◌, ◌<◌, ◌+◌, IfOk, false, length, slice_index_or};
ghost use Rattle.c2_spec.specs.C2pa.Manifest.{IsStoreOf, manifests_of};
ghost use Rattle.c2_rules.specs.Readings.{AreReadings};
ghost use Rattle.c2_rules.specs.Chains as form;
ghost use Rattle.c2_read_manifests.specs.Rows.{bit, is_below, row_bits, AreRows};

use crate::labelled::{Manifests, kept, named_manifests};
use crate::places::children_among;
use c2_base::NoMemory;
use c2_jumbf::Tree;
use c2_store::Store;
use std::alloc::Global;
use std::marker::Model;

/// Which manifests are reached from one, by their places.
#[derive(Drop)]
pub struct Row {
    bits: Vec<bool>,
}

impl Model for Row {
    ghost use Rattle.std.specs.Prelude.{Bool, List};

    ghost Value = { List Bool };

    ghost view = { λ r. r.bits.items };
}

/// The bit of a row at a place; false where there is none.
fn bit_at(row: &Row, m: usize) -> bool
    ensures { result ≡ slice_index_or row.now m false }
{
    match row.bits.get(m) {
        Some(bit) => *bit,
        None => false,
    }
}

/// The bit of row `n` at place `m`; false where there is none.
fn is_marked(rows: &[Row], n: usize, m: usize) -> bool
    ensures { result ≡ bit rows.now n m }
{
    match rows.get(n) {
        Some(row) => bit_at(row, m),
        None => false,
    }
}

/// Whether a manifest is one of these children, or is reached from one.
fn is_child_or_below(rows: &[Row], children: &[usize], m: usize) -> bool
    ensures { result ≡ is_below rows.now children.now m }
{
    children.iter().any(|c| *c == m || is_marked(rows, *c, m))
}

/// The row of a manifest with these children, one bit for each of so many manifests.
fn row_of(alloc: Global, rows: &[Row], children: &[usize], count: usize) -> Result<Row, NoMemory>
    ensures { IfOk result (λ row. row ≡ row_bits rows.now children.now count) }
{
    let bits = (0..count)
        .map(|m| is_child_or_below(rows, children, m))
        .collect(alloc)?;
    Ok(Row { bits })
}

/// One row more, of the manifest that is next.
fn next_row(alloc: Global, all: &Manifests<'_>, rows: &[Row]) -> Result<Row, NoMemory>
    requires { length rows.now < length all.now }
    ensures { IfOk result
        (λ row. row ≡ row_bits rows.now (form.children all.now (length rows.now))
        (length all.now)) }
{
    let below = children_among(alloc, all, rows.len())?;
    let row = row_of(alloc, rows, below.as_slice(), kept(all).len())?;
    Ok(row)
}

/// The rows of all manifests, from the first one up: children stand earlier.
fn fill_rows(alloc: Global, all: &Manifests<'_>) -> Result<Vec<Row>, NoMemory>
    ensures { IfOk result (λ rows. AreRows all.now rows.items) }
{
    let mut rows = Vec::new(alloc);
    for n in 0..kept(all).len() {
        let row = next_row(alloc, all, rows.as_slice())?;
        rows.push(row)?;
    }
    Ok(rows)
}

/// The manifests, and which are reached from which.
#[derive(Drop)]
pub struct Reaching<'t> {
    manifests: Manifests<'t>,
    below: Vec<Row>,
}

impl<'t> Model for Reaching<'t> {
    ghost use Rattle.std.specs.Prelude.{List};
    ghost use Rattle.std.specs.Coded.{codes};
    ghost use Rattle.c2_rules.proofs.ItemCode.{item_code};
    ghost use Rattle.c2_rules.specs.Readings.{Reading};
    ghost use Rattle.c2_read_manifests.specs.Rows.{AreRows};

    ghost Value = { List Reading };

    ghost coded = { Prim.hlevel (codes, item_code) };

    ghost view = { λ c. c.manifests };

    ghost invariant = { λ c. AreRows c.manifests c.below.items };
}

/// What is read of the manifests of a store, and which are reached from which.
pub fn reaching_manifests<'t>(
    alloc: Global,
    tree: &'t Tree<'_>,
    store: &Store,
) -> Result<Reaching<'t>, NoMemory>
    requires { IsStoreOf tree.now store.now }
    ensures { IfOk result (λ all. AreReadings (manifests_of tree.now) all) }
{
    let manifests = named_manifests(alloc, tree, store)?;
    let below = fill_rows(alloc, &manifests)?;
    Ok(Reaching { manifests, below })
}

/// The manifests.
pub fn named_of<'c, 't>(all: &'c Reaching<'t>) -> &'c Manifests<'t>
    ensures { result.now ≡ all.now }
{
    &all.manifests
}

/// Whether a manifest is reached from another by one or more child steps.
pub fn is_below_of(all: &Reaching<'_>, n: usize, m: usize) -> bool
    requires n { n < length all.now }
    requires m { m < length all.now }
    ensures { result ≡ form.reaches all.now n m }
{
    is_marked(all.below.as_slice(), n, m)
}

/// Whether a manifest is the active one.
pub fn is_last(all: &Reaching<'_>, n: usize) -> bool
    requires { n < length all.now }
    ensures { result ≡ form.is_active all.now n }
{
    let count = kept(&all.manifests).len();
    n + 1 == count
}

/// Whether a manifest is reached from the active one, or is it.
pub fn is_in_reach(all: &Reaching<'_>, n: usize) -> bool
    requires { n < length all.now }
    ensures { result ≡ form.is_reached all.now n }
{
    is_last(all, n) || is_below_of(all, kept(&all.manifests).len() - 1, n)
}
