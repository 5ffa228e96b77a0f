// The stores that are joined.
ghost use Rattle.std.specs.Prelude.{◌≡◌, ◌∷◌, ◌++◌, [], IfOk, OnOk};
ghost use Rattle.c2_rules.specs.Chains.{LabelsDiffer};
ghost use Rattle.c2_build_collect_base.specs.Steps.{AreFlags};

use c2_base::NoMemory;
use c2_build_base::OlderStore;
use c2_chain::{Chain, manifest_count, reached};
use c2_without_store::Clearing;
use std::alloc::Global;

/// A store that was read: its box tree and the boxes of its manifests, and what these are read as.
#[derive(Clone, Copy)]
pub(crate) struct ReadStore<'s, 't, 'c> {
    /// The tree and the boxes of the store.
    pub(crate) older: &'s OlderStore<'t>,

    /// What its manifests are read as.
    pub(crate) chain: &'s Chain<'c>,
}

/// What is joined of a media file.
#[derive(Clone, Copy)]
pub(crate) struct Ours<'s, 't, 'c> {
    /// How the file is cleared of its store.
    pub(crate) clearing: Clearing,

    /// The store of the media file, where it has one.
    pub(crate) store: Option<ReadStore<'s, 't, 'c>>,
}

/// A store with its chain.
pub(crate) fn store_with<'s, 't, 'c>(
    older: &'s OlderStore<'t>,
    chain: &'s Chain<'c>,
) -> ReadStore<'s, 't, 'c>
    ensures older { result.older.now ≡ older.now }
    ensures chain { result.chain.now ≡ chain.now }
{
    ReadStore { older, chain }
}

// One flag more at the end of a list.
fn push_flag(flags: &mut Vec<bool>, flag: bool) -> Result<(), NoMemory>
    ensures { OnOk result (flags.new.items ≡ flags.old.items ++ flag ∷ []) }
{
    flags.push(flag)?;
    Ok(())
}

/// One flag for each manifest of a store: whether it is reached.
pub(crate) fn flags_of(alloc: Global, chain: &Chain<'_>) -> Result<Vec<bool>, NoMemory>
    requires { LabelsDiffer chain.now.readings }
    ensures { IfOk result (λ flags. AreFlags chain.now.readings flags.items) }
{
    let mut flags = Vec::new(alloc);
    for i in 0..manifest_count(chain) {
        push_flag(&mut flags, reached(chain, i))?;
    }
    Ok(flags)
}
