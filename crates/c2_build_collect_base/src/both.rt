// Both files, once their stores are read and checked.
ghost use Rattle.std.specs.Prelude.{◌≡◌, ℕ, Bool, List, IfErr, IfOk};
ghost use Rattle.c2_new_file_spec.specs.Store.{new_alg};
ghost use Rattle.c2_collect_spec.specs.Collected.{JoinedReaches, collected_readings};
ghost use Rattle.c2_collect_spec.specs.Order.{MediaFile, OtherFile};
ghost use Rattle.c2_collect_spec.specs.Outcomes.{IsJoinedStage};
ghost use Rattle.c2_chain_spec.specs.Joined as joined;
ghost use Rattle.c2_build_refusals.specs.declared.error.BuildError.TheVariants.{LabelTaken};
ghost use Rattle.c2_build_refusals.specs.Kinds.{WithoutFault};
ghost use Rattle.c2_spec.specs.declared.digest.Alg.{Alg as AnyAlg};
ghost use Rattle.c2_build_base.specs.Grounds.{IsSomeGround};
ghost use Rattle.c2_build_collect_base.specs.Grounds.{IsGroundOf};
ghost use Rattle.c2_build_collect_base.specs.Steps.{AreTested, IsFirstRefusedOf, IsInner, IsOurs};
ghost use Rattle.c2_build_collect_base.specs.Steps.{IsReadOrNone, IsReadStore, IsTheirs};
ghost use Rattle.c2_build_collect_base.specs.Steps.{joined_tests, old_readings, readings_of};

use crate::joining::joined_boxes;
use crate::stores::{Ours, ReadStore};
use crate::types::Collector;
use c2_base::{NoMemory, Text};
use c2_build_refusals::{BuildBase, BuildError};
use c2_chain::labels_of_a_store_differ;
use c2_hash::Hashing;
use c2_jumbf::count;
use c2_layout::Carried;
use c2_new_file_spec::RefusedRedaction;
use c2_parent::{
    has_joined_manifest, has_reached_manifest, redactions_of, refused_in_both, refused_in_carried,
};

impl<'d, H: Hashing> Collector<'d, H> {
    // Whether one of the joined manifests has the new label.
    fn has_label(
        &self,
        ours: &Option<ReadStore<'_, '_, '_>>,
        theirs: &ReadStore<'_, '_, '_>,
    ) -> bool
        requires { IsReadStore theirs.now }
        ensures { result ≡ joined.has_manifest
            (collected_readings (old_readings ours.now) (readings_of theirs.now))
            self.now.definition.now.label }
    {
        // Only the prover needs this law, and the count: it takes from here that the tree is legal.
        labels_of_a_store_differ();
        let _boxes = count(&theirs.older.tree);
        let label = self.definition.label.as_str();
        match ours {
            Some(ours) => has_joined_manifest(ours.chain, theirs.chain, label),
            None => has_reached_manifest(theirs.chain, label),
        }
    }

    // The first redaction that can't be made over the joined manifests.
    fn refused(
        &self,
        ours: &Option<ReadStore<'_, '_, '_>>,
        theirs: &ReadStore<'_, '_, '_>,
    ) -> Result<Option<RefusedRedaction>, NoMemory>
        requires ours { IsReadOrNone ours.now }
        requires theirs { IsReadStore theirs.now }
        ensures { let d = self.now.definition.now in
            IfOk result (IsFirstRefusedOf d (old_readings ours.now) (readings_of theirs.now)) }
    {
        // Only the prover needs this law, and the count: it takes from here that the tree is legal.
        labels_of_a_store_differ();
        let _boxes = count(&theirs.older.tree);
        let own = self.definition.label.as_str();
        let redact = self.definition.redact.as_slice();
        match ours {
            Some(ours) => {
                let _our_boxes = count(&ours.older.tree);
                refused_in_both(self.alloc, ours.chain, theirs.chain, own, redact)
            }
            None => refused_in_carried(self.alloc, theirs.chain, own, redact),
        }
    }

    // The new label, which one of the joined manifests has already.
    fn label_taken(&self) -> BuildError
        ensures told { WithoutFault result (result ≡ LabelTaken self.now.definition.now.label) }
        ensures inner { IsInner result }
    {
        match Text::copied(self.alloc, self.definition.label.as_str()) {
            Ok(label) => BuildError::LabelTaken(label),
            Err(_) => BuildError::NoMemory,
        }
    }

    // Refuses what can't be built over the joined manifests: `LabelTaken`, and `RedactionRefused`.
    fn check_joined(
        &self,
        ours: &Option<ReadStore<'_, '_, '_>>,
        theirs: &ReadStore<'_, '_, '_>,
    ) -> Result<(), BuildError>
        requires ours { IsReadOrNone ours.now }
        requires theirs { IsReadStore theirs.now }
        ensures tested { let old_rs = old_readings ours.now in
            let other_rs = readings_of theirs.now in
            (is_in : ℕ → Bool) → JoinedReaches old_rs other_rs is_in → AreTested
            (joined_tests self.now.definition.now (collected_readings old_rs other_rs) is_in)
            result }
        ensures inner { IfErr result IsInner }
    {
        if self.has_label(ours, theirs) {
            return Err(self.label_taken());
        }
        match self.refused(ours, theirs) {
            Ok(None) => Ok(()),
            Ok(Some(refused)) => Err(BuildError::RedactionRefused(refused.text, refused.code)),
            Err(NoMemory) => Err(BuildError::NoMemory),
        }
    }

    /// What a new file is built over, of what was read of both files. `LabelClash` comes first, then `LabelTaken` and `RedactionRefused`.
    pub(crate) fn joined(
        &self,
        ours: &Ours<'_, '_, '_>,
        theirs: &ReadStore<'_, '_, '_>,
    ) -> Result<BuildBase, BuildError>
        requires ours { IsReadOrNone ours.now.store }
        requires theirs { IsReadStore theirs.now }
        ensures ground { let d = self.now.definition.now in
            (hash : AnyAlg → List ℕ → List ℕ) (file : List ℕ) (m : MediaFile) (o : OtherFile)
            → IsOurs hash file ours.now m → IsTheirs hash theirs.now o
            → IsGroundOf (H.digest_of (new_alg d)) file d (IsJoinedStage d m o) result }
        ensures some { let d = self.now.definition.now in
            IfOk result (IsSomeGround (H.digest_of (new_alg d)) d ours.now.clearing) }
        ensures inner { IfErr result IsInner }
    {
        let redactions = match redactions_of(self.alloc, self.definition.redact.as_slice()) {
            Ok(redactions) => redactions,
            Err(NoMemory) => return Err(BuildError::NoMemory),
        };
        // Made before the boxes are joined: what they are digested from is let go before.
        let ingredients = match self.ingredients(&ours.store, theirs, &redactions) {
            Ok(ingredients) => ingredients,
            Err(NoMemory) => return Err(BuildError::NoMemory),
        };
        let joined = match joined_boxes(self.alloc, &ours.store, theirs, &redactions) {
            Ok(joined) => joined,
            Err(error) => return Err(error),
        };
        match self.check_joined(&ours.store, theirs) {
            Ok(()) => Ok(BuildBase {
                clearing: ours.clearing,
                carried: Carried {
                    boxes: joined.boxes,
                    ingredients,
                },
                manifests: joined.manifests,
            }),
            Err(error) => Err(error),
        }
    }
}
