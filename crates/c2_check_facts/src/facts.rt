// What the rule on ingredients needs of each manifest that they name, found out once however many ingredients name it:
// whether it is touched, and the digests of its contents and of the contents of its signature box, by the algorithms that the
// ingredients name.
ghost use Rattle.std.specs.Prelude.{◌≡◌, ◌<◌, IfOk, IfSome, length, option_and_then, slice_get};
ghost use Rattle.c2_check_facts.specs.Facts.{AreDigestsOf, AreFacts, AreSignatureDigestsOf};
ghost use Rattle.c2_check_facts.specs.Facts.{IsFactAt, IsFactOf};

use crate::digests::alg_name;
use crate::kept_digests::{AlgSet, Digests, digests_by};
use c2_base::NoMemory;
use c2_hash::{Hashing, alg_of};
use c2_read_manifests::{
    ReadManifest, ReadManifests, boxes, children, ingredient, is_touched, manifests, reaches,
};
use c2_rules::Parsed;
use c2_spec::Ref;
use std::alloc::Global;
use std::marker::Model;

/// What is found out of a manifest.
#[derive(Drop)]
pub struct ChildFact {
    /// Whether its claim lists a label that is redacted in it.
    pub touched: bool,

    /// Digests of its contents.
    pub whole: Digests,

    /// Digests of the contents of its signature box; none where it has no such box.
    pub signed: Digests,
}

impl Model for ChildFact {
    ghost use Rattle.c2_check_facts.specs.Facts.{ChildFact as AnyFact};

    ghost Value = { AnyFact };

    ghost view = { λ f. record { touched = f.touched; whole = f.whole; signed = f.signed } };
}

/// What was found out of manifests, each at its place; of some nothing was.
#[derive(Drop)]
pub struct Facts {
    found: Vec<Option<ChildFact>>,
}

impl Model for Facts {
    ghost use Rattle.std.specs.Prelude.{List, Option};
    ghost use Rattle.c2_check_facts.specs.Facts.{ChildFact as AnyFact};

    ghost Value = { List (Option AnyFact) };

    ghost view = { λ f. f.found.items };
}

/// The digests of a manifest's contents.
fn contents_digests<H: Hashing>(hashing: &H, algs: AlgSet, own: &ReadManifest<'_>) -> Digests
    ensures { AreDigestsOf H.digest_of own.now.manifest.contents result }
{
    digests_by(hashing, algs, own.contents)
}

/// The digests of the contents of a signature box, where there is one.
#[tactic(auto, using(crate::proofs::DigestLemmas::box_digests, crate::proofs::DigestLemmas::no_box))]
fn signature_digests<H: Hashing>(hashing: &H, algs: AlgSet, own: &ReadManifest<'_>) -> Digests
    ensures { AreSignatureDigestsOf H.digest_of own.now result }
{
    match &own.signature {
        Some(found) => digests_by(hashing, algs, found.contents),
        None => Digests::none(),
    }
}

/// What is found out of this manifest, which is touched or isn't.
fn fact_from<H: Hashing>(
    hashing: &H,
    algs: AlgSet,
    own: &ReadManifest<'_>,
    touched: bool,
) -> ChildFact
    ensures { IsFactOf H.digest_of touched own.now result }
{
    ChildFact {
        touched,
        whole: contents_digests(hashing, algs, own),
        signed: signature_digests(hashing, algs, own),
    }
}

/// What is found out of the manifest at a place.
fn find_fact<H: Hashing>(hashing: &H, algs: AlgSet, all: &ReadManifests<'_>, m: usize) -> ChildFact
    requires { m < length all.now }
    ensures { IsFactAt H.digest_of all.now m result }
{
    fact_from(hashing, algs, &manifests(all)[m], is_touched(all, m))
}

/// What is found out of the manifest at a place, where it is a child.
fn some_fact<H: Hashing>(
    hashing: &H,
    algs: AlgSet,
    all: &ReadManifests<'_>,
    m: usize,
    is_child: bool,
) -> Option<ChildFact>
    requires { m < length all.now }
    ensures { IfSome result (λ fact. IsFactAt H.digest_of all.now m fact) }
{
    if is_child {
        return Some(find_fact(hashing, algs, all, m));
    }
    None
}

/// What is found out of the manifests at these marks.
#[tactic(auto, using(crate::proofs::FactLemmas::no_facts, crate::proofs::FactLemmas::are_facts))]
fn find_facts<H: Hashing>(
    alloc: Global,
    hashing: &H,
    algs: AlgSet,
    all: &ReadManifests<'_>,
    marks: &[bool],
) -> Result<Facts, NoMemory>
    ensures { IfOk result (λ facts. AreFacts H.digest_of all.now facts) }
{
    let mut found = Vec::new(alloc);
    for m in 0..manifests(all).len() {
        let fact = some_fact(hashing, algs, all, m, is_marked(marks, m));
        found.push(fact)?;
    }
    Ok(Facts { found })
}

/// Whether a place is marked.
fn is_marked(marks: &[bool], m: usize) -> bool {
    match marks.get(m) {
        Some(mark) => *mark,
        None => false,
    }
}

/// Marks at these places, of so many.
fn marks_at(alloc: Global, count: usize, places: &[usize]) -> Result<Vec<bool>, NoMemory> {
    let mut marks = vec![in alloc; false; count]?;
    for place in places {
        if *place < marks.len() {
            marks[*place] = true;
        }
    }
    Ok(marks)
}

/// Takes in the algorithm of this reference, where it is there and its algorithm is known.
fn insert_named(algs: &mut AlgSet, own: &ReadManifest<'_>, reference: &Option<Ref>) {
    if let Some(reference) = reference {
        if let Some(alg) = alg_of(alg_name(own, &reference.alg)) {
            algs.insert(alg);
        }
    }
}

/// Takes in the algorithms that the ingredients of a manifest name.
fn insert_own(algs: &mut AlgSet, own: &ReadManifest<'_>) {
    for b in boxes(own) {
        if let Parsed::Value(found) = ingredient(b) {
            insert_named(algs, own, &found.manifest);
            insert_named(algs, own, &found.signature);
        }
    }
}

/// The algorithms that the ingredients of a store name.
fn named_algs(all: &ReadManifests<'_>) -> AlgSet {
    let mut algs = AlgSet::empty();
    for own in manifests(all) {
        insert_own(&mut algs, own);
    }
    algs
}

/// What is found out of the children of manifest `i`.
pub fn facts_below<H: Hashing>(
    alloc: Global,
    hashing: &H,
    all: &ReadManifests<'_>,
    i: usize,
) -> Result<Facts, NoMemory>
    requires { i < length all.now }
    ensures { IfOk result (λ facts. AreFacts H.digest_of all.now facts) }
{
    let places = children(alloc, all, i)?;
    let marks = marks_at(alloc, manifests(all).len(), places.as_slice())?;
    let mut algs = AlgSet::empty();
    insert_own(&mut algs, &manifests(all)[i]);
    let facts = find_facts(alloc, hashing, algs, all, marks.as_slice())?;
    Ok(facts)
}

/// Whether a manifest is a child: it is reached from another by one step or more, the last of which names it.
fn is_child(all: &ReadManifests<'_>, m: usize) -> bool
    requires { m < length all.now }
{
    for n in 0..manifests(all).len() {
        if reaches(all, n, m) {
            return true;
        }
    }
    false
}

/// Marks at the manifests that are children.
fn child_marks(alloc: Global, all: &ReadManifests<'_>) -> Result<Vec<bool>, NoMemory> {
    let mut marks = Vec::new(alloc);
    for m in 0..manifests(all).len() {
        marks.push(is_child(all, m))?;
    }
    Ok(marks)
}

/// What is found out of all manifests that are children.
pub fn facts_of_children<H: Hashing>(
    alloc: Global,
    hashing: &H,
    all: &ReadManifests<'_>,
) -> Result<Facts, NoMemory>
    ensures { IfOk result (λ facts. AreFacts H.digest_of all.now facts) }
{
    let marks = child_marks(alloc, all)?;
    let facts = find_facts(alloc, hashing, named_algs(all), all, marks.as_slice())?;
    Ok(facts)
}

/// The same value once more.
fn same_fact(fact: &ChildFact) -> ChildFact
    ensures { result ≡ fact.now }
{
    ChildFact {
        touched: fact.touched,
        whole: fact.whole,
        signed: fact.signed,
    }
}

/// What is known of the manifest at a place, where that was found out.
fn known_fact(facts: &Facts, m: usize) -> Option<ChildFact>
    ensures { result ≡ option_and_then (λ o. o) (slice_get facts.now m) }
{
    match facts.found.get(m) {
        Some(found) => match found {
            Some(fact) => Some(same_fact(fact)),
            None => None,
        },
        None => None,
    }
}

/// What is found out of the manifest at a place: before, or else now, without digests.
pub fn fact_at<H: Hashing>(
    hashing: &H,
    all: &ReadManifests<'_>,
    facts: &Facts,
    m: usize,
) -> ChildFact
    requires inside { m < length all.now }
    requires known { AreFacts H.digest_of all.now facts.now }
    ensures { IsFactAt H.digest_of all.now m result }
{
    match known_fact(facts, m) {
        Some(fact) => fact,
        None => find_fact(hashing, AlgSet::empty(), all, m),
    }
}
