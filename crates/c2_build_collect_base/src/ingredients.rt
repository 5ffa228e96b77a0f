// The ingredients of the new manifest.
ghost use Rattle.std.specs.Prelude.{IfOk, None, Some};
ghost use Rattle.c2_new_file_spec.specs.Store.{new_alg};
ghost use Rattle.c2_build_collect_base.specs.Steps.{AreLastRefs, IsLastIngredient, IsReadOrNone};
ghost use Rattle.c2_build_collect_base.specs.Steps.{IsReadStore, NameLast, boxes_of};
ghost use Rattle.c2_build_collect_base.specs.Steps.{ingredient_stores, left_in};

use crate::stores::ReadStore;
use crate::types::Collector;
use c2_base::{NoMemory, Text};
use c2_definition::NewAssertion;
use c2_hash::Hashing;
use c2_layout::{ManifestRefs, ingredient};
use c2_parent::{Redactions, parent_digests};
use c2_spec::Relationship;

impl<'d, H: Hashing> Collector<'d, H> {
    // References to the last manifest of a store, less what is redacted of it.
    fn refs_of<'s>(
        &self,
        store: &ReadStore<'s, '_, '_>,
        redactions: &Redactions<'s>,
    ) -> Result<ManifestRefs, NoMemory>
        requires { IsReadStore store.now }
        ensures { IfOk result (AreLastRefs (H.digest_of (new_alg self.now.definition.now))
            (left_in redactions.now (boxes_of store.now))) }
    {
        let alg = self.definition.alg;
        // Matched and not handed up by `?`: what it holds borrows a text.
        match parent_digests(
            self.alloc,
            self.hashing,
            alg,
            &store.older.tree,
            &store.older.store,
            redactions,
        ) {
            Ok(last) => Ok(ManifestRefs {
                label: Text::copied(self.alloc, last.label)?,
                contents: last.contents,
                signed: last.signed,
            }),
            Err(NoMemory) => Err(NoMemory),
        }
    }

    // The assertion, under this label, of an ingredient that is the last manifest of a store, less what is redacted of it.
    fn last_ingredient<'s>(
        &self,
        label: &str,
        relationship: Relationship,
        store: &ReadStore<'s, '_, '_>,
        redactions: &Redactions<'s>,
    ) -> Result<NewAssertion, NoMemory>
        requires { IsReadStore store.now }
        ensures { IfOk result (IsLastIngredient (H.digest_of (new_alg self.now.definition.now))
            (left_in redactions.now (boxes_of store.now)) label.now relationship) }
    {
        let refs = self.refs_of(store, redactions)?;
        ingredient(self.alloc, label, relationship, &refs)
    }

    // The assertion of the component alone.
    fn component<'s>(
        &self,
        theirs: &ReadStore<'s, '_, '_>,
        redactions: &Redactions<'s>,
    ) -> Result<Vec<NewAssertion>, NoMemory>
        requires { IsReadStore theirs.now }
        ensures { IfOk result (λ all. NameLast (H.digest_of (new_alg self.now.definition.now))
            redactions.now (ingredient_stores None theirs.now) all.items) }
    {
        let mut all = Vec::new(self.alloc);
        let label = "c2pa.ingredient.v3";
        let one = self.last_ingredient(label, Relationship::ComponentOf, theirs, redactions)?;
        all.push(one)?;
        Ok(all)
    }

    // The ingredient assertions of the parent and of the component.
    fn parent_and_component<'s>(
        &self,
        ours: &ReadStore<'s, '_, '_>,
        theirs: &ReadStore<'s, '_, '_>,
        redactions: &Redactions<'s>,
    ) -> Result<Vec<NewAssertion>, NoMemory>
        requires ours { IsReadStore ours.now }
        requires theirs { IsReadStore theirs.now }
        ensures { IfOk result (λ all. NameLast (H.digest_of (new_alg self.now.definition.now))
            redactions.now (ingredient_stores (Some ours.now) theirs.now) all.items) }
    {
        let mut all = Vec::new(self.alloc);
        let label = "c2pa.ingredient.v3";
        let parent = self.last_ingredient(label, Relationship::ParentOf, ours, redactions)?;
        all.push(parent)?;
        let label = "c2pa.ingredient.v3__1";
        let component = self.last_ingredient(label, Relationship::ComponentOf, theirs, redactions)?;
        all.push(component)?;
        Ok(all)
    }

    /// The assertions of the new manifest's ingredients: of the parent, which is the last manifest of the media file's store, where it has
    /// one, and of the component, which is the last of the other file's, as they stand in the new store.
    pub(crate) fn ingredients<'s>(
        &self,
        ours: &Option<ReadStore<'s, '_, '_>>,
        theirs: &ReadStore<'s, '_, '_>,
        redactions: &Redactions<'s>,
    ) -> Result<Vec<NewAssertion>, NoMemory>
        requires ours { IsReadOrNone ours.now }
        requires theirs { IsReadStore theirs.now }
        ensures { IfOk result (λ all. NameLast (H.digest_of (new_alg self.now.definition.now))
            redactions.now (ingredient_stores ours.now theirs.now) all.items) }
    {
        match ours {
            Some(ours) => self.parent_and_component(ours, theirs, redactions),
            None => self.component(theirs, redactions),
        }
    }
}
