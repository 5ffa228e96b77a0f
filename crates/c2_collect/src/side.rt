// One of two stores that are joined.
ghost use Rattle.std.specs.Prelude.{◌≡◌, ◌++◌, ◌<◌, OnOk, Some, length, slice_get};
ghost use Rattle.c2_spec.specs.C2pa.Manifest.{IsStoreOf};
ghost use Rattle.c2_spec.specs.Jumbf.Tree.{AreDistinctLabels, Tree as AnyTree, tree_bytes};
ghost use Rattle.c2_spec.specs.Jumbf.Tree.{trees_bytes};
ghost use Rattle.c2_new_file_spec.specs.Redacting.{redacted_box, redacted_boxes};
ghost use Rattle.c2_collect.specs.Marked.{box_bytes, box_labels, is_marked, manifests_in, marked};

use c2_base::NoMemory;
use c2_jumbf::{Tree, bytes_of, contents, count, total};
use c2_parent::{Redactions, append_carried, append_less};
use c2_store::{Store, label, manifest_count, whole};
use std::marker::Model;

/// One of two stores that are joined: the store, the tree that it was read from, and which of its manifests are reached. Clauses see the
/// boxes of the tree's root behind its description, and the flags.
#[derive(Drop)]
pub struct Side<'s, 't, 'r> {
    tree: &'s Tree<'t>,
    store: &'s Store,
    reached: &'r [bool],
}

impl<'s, 't, 'r> Model for Side<'s, 't, 'r> {
    ghost use Rattle.c2_collect.specs.Marked.{IsSide, MarkedStore, marked};
    ghost use Rattle.c2_collect.specs.MarkedCode.{marked_code};

    ghost Value = { MarkedStore };

    ghost coded = { marked_code };

    ghost view = { λ s. marked s.tree.now s.reached.now };

    ghost invariant = { λ s. IsSide s.tree.now s.store.now s.reached.now };
}

impl<'s, 't, 'r> Side<'s, 't, 'r> {
    /// The store that was read from this tree, with a flag for each of its manifests that says whether it is reached. Takes no memory.
    pub fn new(tree: &'s Tree<'t>, store: &'s Store, reached: &'r [bool]) -> Side<'s, 't, 'r>
        requires same { IsStoreOf tree.now store.now }
        requires count { length reached.now ≡ length store.now }
        ensures { result ≡ marked tree.now reached.now }
    {
        Side {
            tree,
            store,
            reached,
        }
    }

    /// The number of manifests, whose labels differ.
    pub(crate) fn len(&self) -> usize
        ensures count { result ≡ length (manifests_in self.now) }
        ensures distinct { AreDistinctLabels (box_labels (manifests_in self.now)) }
    {
        // Only the prover needs this: a tree is legal.
        let _count = count(self.tree);
        manifest_count(self.store)
    }

    /// The flags, one for each manifest.
    pub(crate) fn reached(&self) -> &'r [bool]
        ensures flags { result.now ≡ self.now.reached }
        ensures count { length result.now ≡ length (manifests_in self.now) }
    {
        self.reached
    }

    /// Whether a manifest is reached.
    pub(crate) fn is_reached(&self, i: usize) -> bool
        requires { i < length (manifests_in self.now) }
        ensures { result ≡ is_marked self.now i }
    {
        self.reached[i]
    }

    /// The label of the manifest at this place of the store. Takes no memory.
    pub fn label(&self, i: usize) -> &'s str
        requires { i < length (manifests_in self.now) }
        ensures { slice_get (box_labels (manifests_in self.now)) i ≡ Some (Some result.now) }
    {
        label(self.tree, self.store, i)
    }

    /// The bytes of a manifest's box, with its header.
    pub(crate) fn manifest(&self, i: usize) -> &'s [u8]
        requires { i < length (manifests_in self.now) }
        ensures { slice_get (box_bytes (manifests_in self.now)) i ≡ Some result.now }
    {
        bytes_of(self.tree, whole(self.store, i))
    }

    /// The bytes of all boxes.
    pub(crate) fn boxes(&self) -> &'s [u8]
        ensures { result.now ≡ trees_bytes self.now.boxes }
    {
        // Only the prover needs this: a tree has a box.
        let _count = count(self.tree);
        contents(self.tree, 0).split_at(total(self.tree, 1)).1
    }

    /// Appends a manifest's box less what is redacted of it.
    pub(crate) fn append_less(
        &self,
        out: &mut Vec<u8>,
        i: usize,
        redactions: &Redactions<'s>,
    ) -> Result<(), NoMemory>
        requires { i < length (manifests_in self.now) }
        ensures { OnOk result ((manifest : AnyTree)
            → slice_get (manifests_in self.now) i ≡ Some manifest → out.new.items
            ≡ out.old.items ++ tree_bytes (redacted_box redactions.now manifest)) }
    {
        append_less(out, self.tree, whole(self.store, i), redactions)
    }

    /// Appends all boxes, each manifest less what is redacted of it.
    pub(crate) fn append_boxes_less(
        &self,
        out: &mut Vec<u8>,
        redactions: &Redactions<'s>,
    ) -> Result<(), NoMemory>
        ensures { OnOk result (out.new.items ≡ out.old.items
            ++ trees_bytes (redacted_boxes redactions.now self.now.boxes)) }
    {
        append_carried(out, self.tree, redactions)
    }
}
