// The manifests of a store, and the public calls on them.
ghost use Rattle.std.specs.Prelude.{◌≡◌, ◌≢◌, ◌<◌, ◌↔◌, IsTrue, None, Some, length, map, slice_get};
ghost use Rattle.std.specs.Prelude.{option_map, IfOk, IfSome};
ghost use Rattle.c2_base.specs.declared.values.Question.{Question as AnyQuestion};
ghost use Rattle.c2_spec.specs.C2pa.Manifest.{IsStoreOf, HasClaim, manifests_of, store_of};
ghost use Rattle.c2_spec.specs.Judges.Panel.{panel_says};
ghost use Rattle.c2_rules.specs.Asking.{HearsPanel};
ghost use Rattle.c2_rules.specs.BoxPlaces.{child_at, ingredient_at};
ghost use Rattle.c2_rules.specs.Chains as form;
ghost use Rattle.c2_rules.specs.Chains.{IsRedacted, IsTouched, Reached, Reaches};
ghost use Rattle.c2_rules.specs.CheckList.{judged_tests, questions_of, tests_of};
ghost use Rattle.c2_rules.specs.Claims.{HaveClaims};
ghost use Rattle.c2_rules.specs.Questions.{HasQuestion, IsQuestionOf};
ghost use Rattle.c2_rules.specs.Readings.{AreReadings, question_in};
ghost use Rattle.c2_rules.specs.Rules.{claim_tests};
ghost use Rattle.c2_rules.specs.Tests.{first_failing};
ghost use Rattle.c2_calls_spec.specs.Asks.{AsksThese};
ghost use Rattle.c2_chain.specs.Checked.{chain_heard};
ghost use Rattle.c2_check_facts.specs.Facts.{AreFacts};

use crate::asking::{ChainError, own_question};
use crate::manifest::{check_alone, check_place};
use c2_base::{NoMemory, Question};
use c2_check_facts::{Facts, child_in, facts_of_children, ingredient_in};
use c2_hash::Hashing;
use c2_judge::Judge;
use c2_jumbf::{Tree, count};
use c2_read_manifests::{
    ReadManifests, is_reached, is_redacted, is_touched, manifests, reaches as is_below,
    read_claim_at, read_manifests,
};
use c2_rules::{Failing, tests_decide_chains};
use c2_spec::{Claim, Ingredient};
use c2_store::Store;
use std::alloc::Global;
use std::marker::Model;

/// The manifests of a store, as they are read. It borrows the tree and the store.
#[derive(Drop)]
pub struct Chain<'t> {
    store: &'t Store,
    all: ReadManifests<'t>,
}

impl<'t> Model for Chain<'t> {
    ghost use Rattle.std.specs.Coded.{codes};
    ghost use Rattle.c2_rules.proofs.ItemCode.{item_code};
    ghost use Rattle.c2_rules.specs.Claims.{Chained, chained_of};
    ghost use Rattle.c2_chain.specs.Kept.{IsChain};

    ghost Value = { Chained };

    ghost coded = { Prim.hlevel (codes, item_code) };

    ghost view = { λ c. chained_of c.store.now c.all };

    ghost invariant = { λ c. IsChain c.all };
}

/// The chain of a store: each claim, each signed message and each ingredient is read once.
pub fn of_store<'t>(
    alloc: Global,
    tree: &'t Tree<'t>,
    store: &'t Store,
) -> Result<Chain<'t>, NoMemory>
    requires { IsStoreOf tree.now store.now }
    ensures manifests { IfOk result (λ chain. chain.manifests ≡ manifests_of tree.now) }
    ensures claims { IfOk result (λ chain. HaveClaims chain.manifests chain.claims) }
    ensures reads { IfOk result (λ chain. AreReadings (manifests_of tree.now) chain.readings) }
    ensures boxes { IfOk result (λ chain. chain.boxes ≡ store_of tree.now) }
{
    // Only the prover needs these laws, and the count: it takes from here that the tree is legal.
    let _boxes = count(tree);
    let all = read_manifests(alloc, tree, store)?;
    Ok(Chain { store, all })
}

/// The number of manifests, which is that of the claims and of the readings. Takes no memory.
pub fn manifest_count(chain: &Chain<'_>) -> usize
    ensures count { result ≡ length chain.now.manifests }
    // As many manifests were read as a store has.
    ensures read { result ≡ length chain.now.readings }
    // A store has a manifest.
    ensures some { 0 < result }
{
    manifests(&chain.all).len()
}

/// What is read of the manifests.
pub fn all<'c, 't>(chain: &'c Chain<'t>) -> &'c ReadManifests<'t>
    ensures is { result.now ≡ chain.now.readings }
    ensures some { 0 < length result.now }
{
    &chain.all
}

/// The claim of a manifest. None exactly where it has none: it has no claim box or more than one, or one whose label is that
/// of no version that is read, or one without an item, or that item isn't one CBOR item, or a field of it is refused under
/// that version. Takes no memory.
pub fn claim_of<'t>(chain: &'t Chain<'_>, i: usize) -> Option<&'t Claim>
    requires { i < length chain.now.manifests }
    ensures value { slice_get chain.now.claims i ≡ Some (option_map (λ c. c.now) result) }
    ensures holds { IfSome (slice_get chain.now.manifests i)
        (λ m. HasClaim m (option_map (λ c. c.now) result)) }
{
    read_claim_at(&chain.all, i)
}

/// What judges are asked of a manifest: the signed message in its signature box, over the bytes of its claim.
///
/// None exactly where there is nothing to ask: the manifest has no claim; the claim's `signature` isn't the URI of the
/// signature of this manifest; or the signature box is missing, has no item, or its item is no signed message.
pub fn question_of(alloc: Global, chain: &Chain<'_>, i: usize) -> Result<Option<Question>, NoMemory>
    requires { i < length chain.now.manifests }
    // What is answered is the manifest's question, and none is where it has none.
    ensures holds { IfOk result
        (λ found. IfSome (slice_get chain.now.manifests i) (λ m. IsQuestionOf m found)) }
    // A question that the manifest has is answered, unless memory runs out.
    ensures only { IfSome (slice_get chain.now.manifests i)
        (λ m. (q : AnyQuestion) → HasQuestion m q → IfOk result (λ found. found ≡ Some q)) }
    ensures value { IfOk result
        (λ found. IfSome (slice_get chain.now.readings i) (λ r. found ≡ question_in r)) }
{
    own_question(alloc, &manifests(&chain.all)[i])
}

/// Whether a manifest is the active one, or is reached from it by child steps. Takes no memory.
pub fn reached(chain: &Chain<'_>, i: usize) -> bool
    requires { i < length chain.now.readings }
    ensures is { IsTrue result ↔ Reached chain.now.readings i }
    // The answer is that of the test `is_reached`, by which the rules go.
    ensures value { result ≡ form.is_reached chain.now.readings i }
{
    tests_decide_chains();
    is_reached(&chain.all, i)
}

/// Whether manifest `m` is reached from manifest `n` by one or more child steps. Takes no memory.
pub fn reaches(chain: &Chain<'_>, n: usize, m: usize) -> bool
    requires n { n < length chain.now.readings }
    requires m { m < length chain.now.readings }
    ensures is { IsTrue result ↔ Reaches chain.now.readings n m }
    // The answer is that of the test `reaches`, by which the rules go.
    ensures value { result ≡ form.reaches chain.now.readings n m }
{
    tests_decide_chains();
    is_below(&chain.all, n, m)
}

/// Whether this label is redacted in manifest `i`: a reached manifest, from which it is reached, has a claim that redacts
/// the assertion with this label in it by an absolute URI. Takes no memory.
pub fn redacted(chain: &Chain<'_>, i: usize, label: &str) -> bool
    requires { i < length chain.now.readings }
    ensures is { IsTrue result ↔ IsRedacted chain.now.readings i label.now }
    // The answer is that of the test `is_redacted`, by which the rules go.
    ensures value { result ≡ form.is_redacted chain.now.readings i label.now }
{
    tests_decide_chains();
    is_redacted(&chain.all, i, label)
}

/// Whether the claim of manifest `i` lists a label that is redacted in it. Takes no memory.
pub fn touched(chain: &Chain<'_>, i: usize) -> bool
    requires { i < length chain.now.readings }
    ensures is { IsTrue result ↔ IsTouched chain.now.readings i }
    // The answer is that of the test `is_touched`, by which the rules go.
    ensures value { result ≡ form.is_touched chain.now.readings i }
{
    tests_decide_chains();
    is_touched(&chain.all, i)
}

/// The first rule of manifest `i` that fails, from those on its claim to those on its ingredients' form; None where all
/// hold. It is checked whether or not it is reached.
///
/// The panel is asked the manifest's question once, after the rules on the claim and the signature; where one of these
/// fails, no judge is asked. `JudgeFault` comes only where a judge that was due failed.
pub fn check_manifest<H: Hashing>(
    alloc: Global,
    hashing: &H,
    chain: &Chain<'_>,
    i: usize,
    judges: &mut Vec<Box<dyn Judge>>,
) -> Result<Option<Failing>, ChainError>
    requires { i < length chain.now.readings }
    ensures answer { let said = panel_says (map says judges.old.items) in
        let rs = chain.now.readings in
        let tests = tests_of (judged_tests H.digest_of said) rs i (slice_get rs i) in
        IfOk result (λ found. found ≡ first_failing tests) }
    ensures panel { HearsPanel says asked_times judge_faults chain_heard
        (AsksThese (questions_of (slice_get chain.now.readings i))) judges.old judges.new result }
    ensures quiet { IfSome (slice_get chain.now.readings i)
        (λ r. first_failing (claim_tests r) ≢ None → judges.new ≡ judges.old) }
{
    check_alone(alloc, hashing, all(chain), i, judges)
}

/// What is found out, once, of all manifests that are a child of some manifest: whether they are touched, and the digests
/// of their contents and of the contents of their signature boxes, by the algorithms that ingredients name. With it
/// `check_known` hashes no manifest again. The clause says that what was found out is true; `check_known` finds out by itself
/// what is missing.
pub fn child_facts<H: Hashing>(
    alloc: Global,
    hashing: &H,
    chain: &Chain<'_>,
) -> Result<Facts, NoMemory>
    ensures { IfOk result (λ facts. AreFacts H.digest_of chain.now.readings facts) }
{
    let facts = facts_of_children(alloc, hashing, all(chain))?;
    Ok(facts)
}

/// The first rule of manifest `i` that fails, as `check_manifest` answers it, where it was found out before what is asked of children.
pub fn check_known<H: Hashing>(
    alloc: Global,
    hashing: &H,
    chain: &Chain<'_>,
    facts: &Facts,
    i: usize,
    judges: &mut Vec<Box<dyn Judge>>,
) -> Result<Option<Failing>, ChainError>
    requires inside { i < length chain.now.readings }
    requires known { AreFacts H.digest_of chain.now.readings facts.now }
    ensures answer { let said = panel_says (map says judges.old.items) in
        let rs = chain.now.readings in
        let tests = tests_of (judged_tests H.digest_of said) rs i (slice_get rs i) in
        IfOk result (λ found. found ≡ first_failing tests) }
    ensures panel { HearsPanel says asked_times judge_faults chain_heard
        (AsksThese (questions_of (slice_get chain.now.readings i))) judges.old judges.new result }
    ensures quiet { IfSome (slice_get chain.now.readings i)
        (λ r. first_failing (claim_tests r) ≢ None → judges.new ≡ judges.old) }
{
    check_place(alloc, hashing, all(chain), facts, i, judges)
}

/// The ingredient in the box with tree index `at`. Some exactly where that box stands in the assertion store of a
/// manifest, has the label of an ingredient of a version that is read, and has an item that is one under that version.
/// Takes no memory.
pub fn ingredient_of<'t>(chain: &'t Chain<'_>, at: usize) -> Option<&'t Ingredient>
    ensures { option_map (λ g. g.now) result ≡ ingredient_at chain.now at }
{
    ingredient_in(chain.store, &chain.all, at)
}

/// The position of the child that the box with tree index `at` names. None exactly where it names none. Takes no memory.
pub fn child_of(chain: &Chain<'_>, at: usize) -> Option<usize>
    ensures { result ≡ child_at chain.now at }
{
    child_in(chain.store, &chain.all, at)
}
