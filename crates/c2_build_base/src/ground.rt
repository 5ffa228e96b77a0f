// What a new file is built over.
ghost use Rattle.std.specs.Prelude.{◌≡◌, ℕ, List, IfErr, IfOk, None, Some, Ok, OnOk, false, map};
ghost use Rattle.std.specs.Option.{ForSome};
ghost use Rattle.c2_base.specs.Source.{ReadsSource};
ghost use Rattle.c2_base.specs.declared.values.Question.{Question};
ghost use Rattle.c2_spec.specs.declared.digest.Alg.{Alg as AnyAlg};
ghost use Rattle.c2_spec.specs.declared.panel.Verdict.{Verdict};
ghost use Rattle.c2_rules.specs.Asking.{HearsPanel};
ghost use Rattle.c2_rules.specs.Chains.{LabelsDiffer};
ghost use Rattle.c2_container.specs.Contained.{HasRootsInside};
ghost use Rattle.c2_without_store.specs.Clears.{cleared};
ghost use Rattle.c2_build_refusals.specs.declared.error.BuildError.TheVariants.{LabelTaken};
ghost use Rattle.c2_spec.specs.C2pa.Manifest.{IsStoreOf, manifests_of};
ghost use Rattle.c2_spec.specs.Judges.Panel.{panel_says};
ghost use Rattle.c2_new_file_spec.specs.Built.{HasDigestLen};
ghost use Rattle.c2_new_file_spec.specs.Manifests.{supers_in};
ghost use Rattle.c2_new_file_spec.specs.Redacting.{boxes_in, redacted_boxes};
ghost use Rattle.c2_new_file_spec.specs.Refusing as form;
ghost use Rattle.c2_new_file_spec.specs.Store.{NamedManifest, ingredient_assertion, new_alg};
ghost use Rattle.c2_new_file_spec.specs.Store.{parent_ingredient};
ghost use Rattle.c2_parent.specs.Parents.{AreDigests};
ghost use Rattle.c2_rules.specs.Readings.{AreReadings, Reading};
ghost use Rattle.c2_validate.specs.Checked.{IsOpenedFrom, StoreAsks};
ghost use Rattle.c2_build_refusals.specs.Kinds.{ComesAs, IsAskCause, IsOlderQuiet, IsQuiet};
ghost use Rattle.c2_build_refusals.specs.Kinds.{WithoutFault, build_heard};
ghost use Rattle.c2_build_refusals.specs.Stages.{IsGroundStage, MediaKind, fresh};
ghost use Rattle.c2_build_base.specs.Grounds.{AreOwnIngredients, IsCarriedOver, IsCheckRefusal};
ghost use Rattle.c2_build_base.specs.Grounds.{IsChecked, IsGround, IsKind, IsOver, IsOverRefusal};
ghost use Rattle.c2_build_base.specs.Grounds.{IsReadIn, IsSomeGround, KindHears};

use crate::media::{MediaRead, OlderStore};
use c2_base::{NoMemory, Range, Source, Text};
use c2_build_refusals::{BuildBase, BuildError, fault};
use c2_chain::{Chain, of_store, readings};
use c2_definition::{Definition, NewAssertion};
use c2_hash::{Alg, Hashing};
use c2_judge::Judge;
use c2_jumbf::{Tree, count};
use c2_layout::{Carried, ManifestRefs, ingredient};
use c2_parent::{
    ParentDigests, Redactions, carried_boxes, has_manifest, parent_digests, redactions_of,
    refused_redaction, refused_without_store,
};
use c2_read_manifests::manifests;
use c2_spec::Relationship;
use c2_store::Store;
use c2_validate::{Checked, Container, OpenedStore, a_store_answers_for_its_file, check};
use c2_without_store::Clearing;
use std::alloc::Global;

// The ground over a media file without a store, of which nothing is cleared away.
fn fresh_ground(
    alloc: Global,
    definition: &Definition,
    clearing: Clearing,
) -> Result<BuildBase, BuildError>
    ensures ground { (hash : AnyAlg → List ℕ → List ℕ) (said : Question → Verdict) (file : List ℕ)
        → HasDigestLen (new_alg definition.now) (hash (new_alg definition.now))
        → cleared clearing file ≡ file → ComesAs (IsGround (hash (new_alg definition.now)) file
        definition.now)
        (IsGroundStage hash said file definition.now fresh) result }
    ensures some { (hash : List ℕ → List ℕ) → HasDigestLen (new_alg definition.now) hash
        → IfOk result (IsSomeGround hash definition.now clearing) }
    ensures quiet { IfErr result IsQuiet }
{
    let own = definition.label.as_str();
    match refused_without_store(alloc, own, definition.redact.as_slice()) {
        Ok(None) => Ok(BuildBase {
            clearing,
            carried: Carried::nothing(alloc),
            manifests: 1,
        }),
        Ok(Some(refused)) => Err(BuildError::RedactionRefused(refused.text, refused.code)),
        Err(NoMemory) => Err(BuildError::NoMemory),
    }
}

/// A store in this range of a media file in this container, as it is checked against the file.
pub fn opened_in<'c, 't>(
    container: &'c Container,
    range: Range,
    chain: &'c Chain<'t>,
) -> OpenedStore<'c, 't>
    ensures container { result.container.now ≡ container.now }
    ensures range { result.range ≡ range }
    ensures chain { result.chain.now ≡ chain.now }
{
    OpenedStore {
        container,
        range,
        chain,
    }
}

/// Checks the store of a media file under these judges. `ParentFails` tells the first rule that fails. `ReadFault` comes only where the file's
/// count of faults rose in this call, `JudgeFault` only where that of a judge did, and `NoMemory` where memory ran out.
pub fn check_parent<A: Source, H: Hashing>(
    alloc: Global,
    hashing: &H,
    media: &mut A,
    store: &OpenedStore<'_, '_>,
    judges: &mut Vec<Box<dyn Judge>>,
) -> Result<(), BuildError>
    requires { HasRootsInside (A.len media.old) store.now.container.now }
    ensures checked { let said = panel_says (map says judges.old.items) in
        ForSome (A.known media.old) (λ file. IsOpenedFrom file store.now
        → OnOk result (IsChecked H.digest_of said file)) }
    ensures refused { let said = panel_says (map says judges.old.items) in
        ForSome (A.known media.old) (λ file. IsOpenedFrom file store.now
        → IfErr result (λ e. WithoutFault e (IsCheckRefusal H.digest_of said file e))) }
    ensures reads { ReadsSource A.len A.known A.faults IsAskCause media.old media.new result }
    ensures panel { HearsPanel says asked_times judge_faults build_heard
        (StoreAsks H.digest_of store.now) judges.old judges.new result }
{
    a_store_answers_for_its_file();
    let checked = match check(alloc, hashing, media, store, judges) {
        Ok(checked) => checked,
        Err(error) => return Err(fault(error)),
    };
    match checked {
        Checked::Valid(_, _) => Ok(()),
        Checked::Failing(failing) => Err(BuildError::ParentFails(failing.code, failing.uri)),
    }
}

// The assertion of the ingredient that the parent with these digests is.
fn parent_assertion(alloc: Global, parent: &ParentDigests<'_>) -> Result<NewAssertion, NoMemory>
    ensures { IfOk result (λ a. (hash : List ℕ → List ℕ) (p : NamedManifest)
        → AreDigests hash p parent.now → a ≡ ingredient_assertion hash (parent_ingredient p)) }
{
    let refs = ManifestRefs {
        label: Text::copied(alloc, parent.label)?,
        contents: parent.contents,
        signed: parent.signed,
    };
    ingredient(alloc, "c2pa.ingredient.v3", Relationship::ParentOf, &refs)
}

// The ingredients of a new manifest over a store with these redactions: the parent alone.
fn parent_ingredients<'u, H: Hashing>(
    alloc: Global,
    hashing: &H,
    tree: &'u Tree<'_>,
    store: &Store,
    alg: Alg,
    redactions: &Redactions<'u>,
) -> Result<Vec<NewAssertion>, NoMemory>
    requires { IsStoreOf tree.now store.now }
    ensures { IfOk result (λ list. AreOwnIngredients (H.digest_of alg)
        (supers_in (redacted_boxes redactions.now (boxes_in tree.now))) list.items) }
{
    // Matched and not handed up by `?`: each way out has clauses of its own.
    let parent = match parent_digests(alloc, hashing, alg, tree, store, redactions) {
        Ok(parent) => parent,
        Err(NoMemory) => return Err(NoMemory),
    };
    let own = parent_assertion(alloc, &parent)?;
    let mut ingredients = Vec::new(alloc);
    ingredients.push(own)?;
    Ok(ingredients)
}

// What is taken over of a store with these redactions.
fn carried_with<'u, H: Hashing>(
    alloc: Global,
    hashing: &H,
    tree: &'u Tree<'_>,
    store: &Store,
    definition: &Definition,
    redactions: &Redactions<'u>,
) -> Result<Carried, NoMemory>
    requires store { IsStoreOf tree.now store.now }
    requires redactions { redactions.now ≡ definition.now.redact }
    ensures { IfOk result (IsCarriedOver (H.digest_of (new_alg definition.now)) definition.now
        tree.now) }
{
    // The parent first: its contents are let go before the boxes are copied.
    let ingredients = parent_ingredients(alloc, hashing, tree, store, definition.alg, redactions)?;
    let boxes = carried_boxes(alloc, tree, redactions)?;
    Ok(Carried { boxes, ingredients })
}

// What is taken over of a store.
fn carried_of<'u, H: Hashing>(
    alloc: Global,
    hashing: &H,
    tree: &'u Tree<'_>,
    store: &Store,
    definition: &'u Definition,
) -> Result<Carried, NoMemory>
    requires { IsStoreOf tree.now store.now }
    ensures { IfOk result (IsCarriedOver (H.digest_of (new_alg definition.now)) definition.now
        tree.now) }
{
    // Matched and not handed up by `?`: each way out has clauses of its own.
    let redactions = match redactions_of(alloc, definition.redact.as_slice()) {
        Ok(redactions) => redactions,
        Err(NoMemory) => return Err(NoMemory),
    };
    carried_with(alloc, hashing, tree, store, definition, &redactions)
}

// Refuses a label that a manifest of an older store has, and then the first redaction that can't be made there.
fn check_over(alloc: Global, chain: &Chain<'_>, definition: &Definition) -> Result<(), BuildError>
    requires { LabelsDiffer chain.now.readings }
    ensures passed { OnOk result
        ((form.has_manifest chain.now.readings definition.now.label ≡ false)
        × (form.redaction_refusal definition.now.label chain.now.readings definition.now.redact
        ≡ None)) }
    ensures refused { IfErr result (IsOverRefusal definition.now chain.now.readings) }
    ensures quiet { IfErr result IsOlderQuiet }
{
    let own = definition.label.as_str();
    if has_manifest(chain, own) {
        return Err(label_taken(alloc, definition));
    }
    match refused_redaction(alloc, chain, own, definition.redact.as_slice()) {
        Ok(None) => Ok(()),
        Ok(Some(taken)) => Err(BuildError::RedactionRefused(taken.text, taken.code)),
        Err(NoMemory) => Err(BuildError::NoMemory),
    }
}

// The ground over a store whose manifests all rules hold of, in a media file that is cleared so of it.
fn over_store<H: Hashing>(
    alloc: Global,
    hashing: &H,
    clearing: Clearing,
    older: &OlderStore<'_>,
    chain: &Chain<'_>,
    definition: &Definition,
) -> Result<BuildBase, BuildError>
    requires boxes { IsStoreOf older.now.tree older.now.store }
    requires reads { AreReadings (manifests_of older.now.tree) chain.now.readings }
    ensures over { (rs : List Reading) → AreReadings (manifests_of older.now.tree) rs
        → IfOk result (IsOver (H.digest_of (new_alg definition.now)) definition.now older.now.tree
        clearing rs) }
    ensures refused { IfErr result (λ e. (rs : List Reading)
        → AreReadings (manifests_of older.now.tree) rs → IsOverRefusal definition.now rs e) }
    ensures some { IfOk result (IsSomeGround (H.digest_of (new_alg definition.now))
        definition.now clearing) }
    ensures quiet { IfErr result IsOlderQuiet }
{
    // Only the prover needs these laws, and the count: it takes from here that the tree is legal.
    let _boxes = count(&older.tree);
    match check_over(alloc, chain, definition) {
        Ok(()) => {}
        Err(error) => return Err(error),
    }
    let manifests = manifests(readings(chain)).len() as u64 + 1;
    match carried_of(alloc, hashing, &older.tree, &older.store, definition) {
        Ok(carried) => Ok(BuildBase {
            clearing,
            carried,
            manifests,
        }),
        Err(NoMemory) => Err(BuildError::NoMemory),
    }
}

// The label of a definition, which a manifest has already.
fn label_taken(alloc: Global, definition: &Definition) -> BuildError
    ensures told { WithoutFault result (result ≡ LabelTaken definition.now.label) }
    ensures quiet { IsOlderQuiet result }
{
    match Text::copied(alloc, definition.label.as_str()) {
        Ok(label) => BuildError::LabelTaken(label),
        Err(_) => BuildError::NoMemory,
    }
}

/// What a new file is built over, where this was read of a media file.
///
/// A file with a store is checked first, by what was read of it, under these judges: they are asked what that check asks, and nothing
/// otherwise. `ParentFails` comes where a rule of the check fails, then `LabelTaken` where a manifest of the store has the new label, and over
/// all files then `RedactionRefused` where a redaction can't be made. `ReadFault` comes only where the file's count of faults rose in this call,
/// `JudgeFault` only where that of a judge did, and `NoMemory` where memory ran out.
pub fn grounded<A: Source, H: Hashing>(
    alloc: Global,
    hashing: &H,
    media: &mut A,
    file: &MediaRead<'_>,
    definition: &Definition,
    judges: &mut Vec<Box<dyn Judge>>,
) -> Result<BuildBase, BuildError>
    requires { IsReadIn (A.len media.old) file.now }
    ensures ground { let said = panel_says (map says judges.old.items) in
        ForSome (A.known media.old) (λ bytes. (kind : MediaKind) → IsKind bytes file.now kind
        → ComesAs (IsGround (H.digest_of (new_alg definition.now)) bytes definition.now)
        (IsGroundStage H.digest_of said bytes definition.now kind) result) }
    ensures some { IfOk result (IsSomeGround (H.digest_of (new_alg definition.now))
        definition.now file.now.clearing) }
    ensures reads { ReadsSource A.len A.known A.faults IsAskCause media.old media.new result }
    ensures panel { HearsPanel says asked_times judge_faults build_heard
        (KindHears H.digest_of (A.known media.old) file.now) judges.old judges.new result }
{
    let Some(older) = &file.older else {
        return fresh_ground(alloc, definition, file.clearing);
    };
    let chain = match of_store(alloc, &older.tree, &older.store) {
        Ok(chain) => chain,
        Err(NoMemory) => return Err(BuildError::NoMemory),
    };
    let store = opened_in(&file.contained.container, older.range, &chain);
    match check_parent(alloc, hashing, media, &store, judges) {
        Ok(()) => {}
        Err(error) => return Err(error),
    }
    over_store(alloc, hashing, file.clearing, older, &chain, definition)
}
