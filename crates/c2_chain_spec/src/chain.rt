// The laws of chains that are seen from roots, and of joined ones.
ghost use Rattle.c2_chain_spec.specs.Joined.{ChainsJoin};
ghost use Rattle.c2_chain_spec.specs.Rooted.{RedactionsDecide, RootsDecide, StoreIsRooted};

/// Where the manifests have different labels, the tests say what is reached from some places, and what is redacted where these
/// manifests are reached.
pub fn tests_decide_from_roots()
    ensures reached { RootsDecide }
    ensures redacted { RedactionsDecide }
{}

/// The chain of one store is rooted at its last manifest, where all rules but the verdicts hold of its manifests.
pub fn a_store_is_rooted_at_its_last_manifest()
    ensures { StoreIsRooted }
{}

/// Two chains that don't clash join to one: where the rules but the verdicts hold of what is reached in each, they hold of what is
/// reached in the joined chain; and that is what was reached in the first, and all that is carried of the second.
pub fn chains_join()
    ensures { ChainsJoin }
{}
