// What `questions` asks, before anybody is asked.
ghost use Rattle.std.specs.Prelude.{◌≡◌, ◌<◌, ◌++◌, length, IfOk, IfErr, OnOk, [], ◌∷◌, slice_get};
ghost use Rattle.std.specs.Option.{ForSome};
ghost use Rattle.c2_base.specs.Source.{ReadsSource};
ghost use Rattle.c2_spec.specs.C2pa.Manifest.{IsStoreOf};
ghost use Rattle.c2_rules.specs.CheckList as form;
ghost use Rattle.c2_cmd_outcome.specs.Reply.{IsMediaCause};
ghost use Rattle.c2_cmd_reading.specs.Reading.{HasNoUsage, IsChainOf, PreparesFound, PreparesMedia};
ghost use Rattle.c2_cmd_reading.specs.Reading.{PreparesTree};

use crate::open::{Stored, open};
use c2_base::{Found, NoMemory, Question, Source, Text};
use c2_chain::{Chain, manifest_count, of_store, question_of, reached};
use c2_cmd_outcome::{Fault, Reply, refused_reply};
use c2_jumbf::Tree;
use c2_store::{Store, label};
use c2_validate::read_store;
use c2_validate::types::StoreRead;
use std::alloc::Global;
use std::marker::Model;

/// A manifest that is asked of: its label, and its question where it has one.
#[derive(Drop)]
pub struct Asked {
    label: Text,
    question: Option<Question>,
}

impl Model for Asked {
    ghost use Rattle.c2_rules.specs.CheckList as form;

    ghost Value = { form.Asked };

    ghost view = { λ a. record { label = a.label; question = a.question } };
}

/// The label of a manifest that is asked of.
pub fn asked_label(asked: &Asked) -> &str
    ensures { result.now ≡ asked.now.label }
{
    asked.label.as_str()
}

/// The question that is asked of a manifest, where it has one.
pub fn asked_question(asked: &Asked) -> &Option<Question>
    ensures { result.now ≡ asked.now.question }
{
    &asked.question
}

/// What `questions` asks.
#[derive(Drop)]
pub enum Prepared {
    /// Nothing: this is the reply.
    Reply(Reply),

    /// The questions of these manifests, in order, for a line each.
    Ask(Vec<Asked>),
}

/// What `questions` asks of a media file.
pub fn prepare<S: Source>(alloc: Global, media: &mut S) -> Result<Prepared, Fault>
    ensures prepared { ForSome (S.known media.old) (λ file. IfOk result (PreparesMedia file)) }
    ensures words { IfOk result HasNoUsage }
    ensures media { ReadsSource S.len S.known S.faults IsMediaCause media.old media.new result }
{
    match open(alloc, media)? {
        Stored::Here(found) => prepare_found(alloc, &found),
        Stored::Reply(reply) => Ok(Prepared::Reply(reply)),
    }
}

// What is asked over a store that was found.
fn prepare_found(alloc: Global, found: &Found) -> Result<Prepared, Fault>
    ensures prepared { IfOk result (PreparesFound found.now) }
    ensures words { IfOk result HasNoUsage }
    ensures memory { IfErr result (λ e. e ≡ Fault.Memory) }
{
    match read_store(alloc, found)? {
        StoreRead::Here(tree, store) => prepare_store(alloc, &tree, &store),
        StoreRead::Refused(reason, number) => {
            Ok(Prepared::Reply(refused_reply(alloc, reason, number)?))
        }
    }
}

// What is asked over the manifests of a store.
fn prepare_store(alloc: Global, tree: &Tree<'_>, store: &Store) -> Result<Prepared, Fault>
    requires { IsStoreOf tree.now store.now }
    ensures prepared { IfOk result (PreparesTree tree.now) }
    ensures words { IfOk result HasNoUsage }
    ensures memory { IfErr result (λ e. e ≡ Fault.Memory) }
{
    let chain = of_store(alloc, tree, store)?;
    let asked = all_asked(alloc, tree, store, &chain)?;
    Ok(Prepared::Ask(asked))
}

// The reached manifests, the last first.
fn all_asked(
    alloc: Global,
    tree: &Tree<'_>,
    store: &Store,
    chain: &Chain<'_>,
) -> Result<Vec<Asked>, NoMemory>
    requires { IsChainOf tree.now store.now chain.now }
    ensures { IfOk result (λ asked. asked.items ≡ form.all_asked chain.now.readings) }
{
    let mut asked = Vec::new(alloc);
    for i in (0..manifest_count(chain)).rev() {
        push_asked(alloc, &mut asked, tree, store, chain, i)?;
    }
    Ok(asked)
}

// Appends the manifest at place `i`, where it is reached.
fn push_asked(
    alloc: Global,
    asked: &mut Vec<Asked>,
    tree: &Tree<'_>,
    store: &Store,
    chain: &Chain<'_>,
    i: usize,
) -> Result<(), NoMemory>
    requires chain { IsChainOf tree.now store.now chain.now }
    requires inside { i < length chain.now.manifests }
    ensures { let here = form.asked_at chain.now.readings i in
        OnOk result (asked.new.items ≡ asked.old.items ++ here) }
{
    if reached(chain, i) {
        let one = asked_of(alloc, tree, store, chain, i)?;
        asked.push(one)?;
    }
    Ok(())
}

// The manifest at place `i`, as it is asked of.
fn asked_of(
    alloc: Global,
    tree: &Tree<'_>,
    store: &Store,
    chain: &Chain<'_>,
    i: usize,
) -> Result<Asked, NoMemory>
    requires chain { IsChainOf tree.now store.now chain.now }
    requires inside { i < length chain.now.manifests }
    ensures { IfOk result
        (λ one. form.asked_of (slice_get chain.now.readings i) ≡ one ∷ []) }
{
    let question = question_of(alloc, chain, i)?;
    let label = Text::copied(alloc, label(tree, store, i))?;
    Ok(Asked { label, question })
}
