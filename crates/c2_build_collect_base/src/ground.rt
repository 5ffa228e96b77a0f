// What a new file is built over, of a media file and of another file.
ghost use Rattle.std.specs.Prelude.{◌≡◌, ℕ, List, IfOk, Some, map};
ghost use Rattle.std.specs.Option.{ForSome};
ghost use Rattle.c2_lemmas.specs.Stages.{Then};
ghost use Rattle.c2_base.specs.Causes.{Rose};
ghost use Rattle.c2_base.specs.Source.{ReadsSource};
ghost use Rattle.c2_spec.specs.C2pa.Manifest.{IsStoreOf};
ghost use Rattle.c2_spec.specs.Judges.Panel.{panel_says};
ghost use Rattle.c2_rules.specs.Asking.{HearsPanel};
ghost use Rattle.c2_calls_spec.specs.Asks.{AsksKnown};
ghost use Rattle.c2_new_file_spec.specs.Store.{new_alg};
ghost use Rattle.c2_collect_spec.specs.Order.{MediaFile};
ghost use Rattle.c2_collect_spec.specs.Outcomes.{IsJoinedStage, IsOtherStage, IsPairStage};
ghost use Rattle.c2_container.specs.Contained.{HasRootsInside};
ghost use Rattle.c2_build_refusals.specs.Kinds.{build_heard};
ghost use Rattle.c2_build_refusals.specs.Stages.{MediaKind};
ghost use Rattle.c2_build_base.specs.Grounds.{IsKind, IsReadIn, IsSomeGround};
ghost use Rattle.c2_validate.specs.Validation.{FileAsks};
ghost use Rattle.c2_build_collect_base.specs.Grounds.{IsGroundCause, IsGroundOf, IsOtherTold};
ghost use Rattle.c2_build_collect_base.specs.Grounds.{IsParentRefused, PairHears, opening_of};
ghost use Rattle.c2_build_collect_base.specs.Steps.{IsFoundThere, IsOurs, IsReadOrNone};
ghost use Rattle.c2_build_collect_base.specs.Steps.{IsReadThere};

use crate::other::{check_other, open_other, read_other};
use crate::stores::{Ours, store_with};
use crate::types::Collector;
use c2_base::{NoMemory, Source};
use c2_build_base::{MediaRead, OlderStore, check_parent, opened_in};
use c2_build_refusals::{BuildBase, BuildError};
use c2_chain::of_store;
use c2_hash::Hashing;
use c2_judge::Judge;
use c2_opening::types::Media;
use c2_validate::{Container, a_store_answers_for_its_file};

impl<'d, H: Hashing> Collector<'d, H> {
    // What a new file is built over, where this was read of the other file in this container.
    fn with_read<D: Source>(
        &self,
        ours: &Ours<'_, '_, '_>,
        other: &mut D,
        container: &Container,
        read: &OlderStore<'_>,
        judges: &mut Vec<Box<dyn Judge>>,
    ) -> Result<BuildBase, BuildError>
        requires ours { IsReadOrNone ours.now.store }
        requires inside { HasRootsInside (D.len other.old) container.now }
        requires boxes { IsStoreOf read.now.tree read.now.store }
        requires there { ForSome (D.known other.old) (λ file.
            IsReadThere file container.now read.now) }
        ensures ground { let said = panel_says (map says judges.old.items) in
            let d = self.now.definition.now in
            ForSome (D.known other.old) (λ others. (file : List ℕ) (m : MediaFile)
            → IsOurs H.digest_of file ours.now m → IsGroundOf (H.digest_of (new_alg d)) file d
            (Then (IsOtherStage H.digest_of said others) (IsJoinedStage d m)) result) }
        ensures some { let d = self.now.definition.now in
            IfOk result (IsSomeGround (H.digest_of (new_alg d)) d ours.now.clearing) }
        ensures reads { ReadsSource D.len D.known D.faults (IsGroundCause ⊥)
            other.old other.new result }
        ensures panel { HearsPanel says asked_times judge_faults build_heard
            (AsksKnown (D.known other.old) (FileAsks H.digest_of))
            judges.old judges.new result }
    {
        a_store_answers_for_its_file();
        let chain = match of_store(self.alloc, &read.tree, &read.store) {
            Ok(chain) => chain,
            Err(NoMemory) => return Err(BuildError::NoMemory),
        };
        let store = opened_in(container, read.range, &chain);
        match check_other(self.alloc, self.hashing, other, &store, judges) {
            Ok(()) => {}
            Err(error) => return Err(error),
        }
        let theirs = store_with(read, &chain);
        self.joined(ours, &theirs)
    }

    // What a new file is built over, where this was found of the other file.
    fn with_found<D: Source>(
        &self,
        ours: &Ours<'_, '_, '_>,
        other: &mut D,
        found: &Media,
        judges: &mut Vec<Box<dyn Judge>>,
    ) -> Result<BuildBase, BuildError>
        requires ours { IsReadOrNone ours.now.store }
        requires inside { HasRootsInside (D.len other.old) found.now.container }
        requires found { ForSome (D.known other.old) (λ file. IsFoundThere file found.now) }
        ensures ground { let said = panel_says (map says judges.old.items) in
            let d = self.now.definition.now in
            ForSome (D.known other.old) (λ others. (file : List ℕ) (m : MediaFile)
            → IsOurs H.digest_of file ours.now m → IsGroundOf (H.digest_of (new_alg d)) file d
            (Then (IsOtherStage H.digest_of said others) (IsJoinedStage d m)) result) }
        ensures some { let d = self.now.definition.now in
            IfOk result (IsSomeGround (H.digest_of (new_alg d)) d ours.now.clearing) }
        ensures reads { ReadsSource D.len D.known D.faults (IsGroundCause ⊥)
            other.old other.new result }
        ensures panel { HearsPanel says asked_times judge_faults build_heard
            (AsksKnown (D.known other.old) (FileAsks H.digest_of))
            judges.old judges.new result }
    {
        let read = match read_other(self.alloc, found) {
            Ok(read) => read,
            Err(error) => return Err(error),
        };
        self.with_read(ours, other, &found.container, &read, judges)
    }

    // What a new file is built over, where this is joined of the media file.
    fn with_other<D: Source>(
        &self,
        ours: &Ours<'_, '_, '_>,
        other: &mut D,
        judges: &mut Vec<Box<dyn Judge>>,
    ) -> Result<BuildBase, BuildError>
        requires { IsReadOrNone ours.now.store }
        ensures ground { let said = panel_says (map says judges.old.items) in
            let d = self.now.definition.now in
            ForSome (D.known other.old) (λ others. (file : List ℕ) (m : MediaFile)
            → IsOurs H.digest_of file ours.now m → IsGroundOf (H.digest_of (new_alg d)) file d
            (Then (IsOtherStage H.digest_of said others) (IsJoinedStage d m)) result) }
        ensures some { let d = self.now.definition.now in
            IfOk result (IsSomeGround (H.digest_of (new_alg d)) d ours.now.clearing) }
        ensures reads { ReadsSource D.len D.known D.faults (IsGroundCause ⊥)
            other.old other.new result }
        ensures panel { HearsPanel says asked_times judge_faults build_heard
            (AsksKnown (D.known other.old) (FileAsks H.digest_of))
            judges.old judges.new result }
    {
        let found = match open_other(self.alloc, other) {
            Ok(found) => found,
            Err(error) => return Err(error),
        };
        self.with_found(ours, other, &found, judges)
    }

    // What a new file is built over, of a media file with this store.
    fn over_store<A: Source, D: Source>(
        &self,
        media: &mut A,
        file: &MediaRead<'_>,
        older: &OlderStore<'_>,
        other: &mut D,
        judges: &mut Vec<Box<dyn Judge>>,
    ) -> Result<BuildBase, BuildError>
        requires read { IsReadIn (A.len media.old) file.now }
        requires older { file.now.older ≡ Some older.now }
        ensures ground { let said = panel_says (map says judges.old.items) in
            let d = self.now.definition.now in
            ForSome (A.known media.old) (λ bytes. (kind : MediaKind) → IsKind bytes file.now kind
            → (others : List ℕ)
            → IsOtherTold H.digest_of said bytes (opening_of kind) (D.known other.old) others
            → IsGroundOf (H.digest_of (new_alg d)) bytes d
            (IsPairStage H.digest_of said bytes others (opening_of kind) d) result) }
        ensures not_due { let said = panel_says (map says judges.old.items) in
            ForSome (A.known media.old) (λ bytes. (kind : MediaKind) → IsKind bytes file.now kind
            → IsParentRefused H.digest_of said bytes (opening_of kind)
            → other.new ≡ other.old) }
        ensures some { let d = self.now.definition.now in
            IfOk result (IsSomeGround (H.digest_of (new_alg d)) d file.now.clearing) }
        ensures media { ReadsSource A.len A.known A.faults
            (IsGroundCause (Rose (D.faults other.old) (D.faults other.new)))
            media.old media.new result }
        ensures other { ReadsSource D.len D.known D.faults
            (IsGroundCause (Rose (A.faults media.old) (A.faults media.new)))
            other.old other.new result }
        ensures panel { HearsPanel says asked_times judge_faults build_heard
            (PairHears H.digest_of (A.known media.old) (D.known other.old) file.now)
            judges.old judges.new result }
    {
        let chain = match of_store(self.alloc, &older.tree, &older.store) {
            Ok(chain) => chain,
            Err(NoMemory) => return Err(BuildError::NoMemory),
        };
        let store = opened_in(&file.contained.container, older.range, &chain);
        match check_parent(self.alloc, self.hashing, media, &store, judges) {
            Ok(()) => {}
            Err(error) => return Err(error),
        }
        let ours = Ours {
            clearing: file.clearing,
            store: Some(store_with(older, &chain)),
        };
        self.with_other(&ours, other, judges)
    }

    /// What a new file is built over, where this was read of a media file, and its new store collects from that and from another file.
    ///
    /// A media file with a store is checked first, by what was read of it: `ParentFails` comes where a rule of its check fails. Then the other
    /// file is opened and checked, once: `OtherRefused` comes where its check doesn't find it valid, with what the check answers. Then come
    /// `LabelClash`, where the two stores clash, with the label at which they clash first; `LabelTaken`, where one of the joined manifests has
    /// the new label; and `RedactionRefused`, where a redaction can't be made. `ReadFault` comes only where the count of faults of one of both
    /// files rose in this call, `JudgeFault` only where that of a judge did, and `NoMemory` where memory ran out.
    ///
    /// The judges are asked what the check of the media's store asks, where it has one, and then, where no rule of that fails, what the check
    /// of the other file asks. The other file isn't read where a rule fails of the media's store.
    pub fn ground<A: Source, D: Source>(
        &self,
        media: &mut A,
        file: &MediaRead<'_>,
        other: &mut D,
        judges: &mut Vec<Box<dyn Judge>>,
    ) -> Result<BuildBase, BuildError>
        requires { IsReadIn (A.len media.old) file.now }
        // Where the bytes are known that are due: this is what both files come to.
        ensures ground { let said = panel_says (map says judges.old.items) in
            let d = self.now.definition.now in
            ForSome (A.known media.old) (λ bytes. (kind : MediaKind) → IsKind bytes file.now kind
            → (others : List ℕ)
            → IsOtherTold H.digest_of said bytes (opening_of kind) (D.known other.old) others
            → IsGroundOf (H.digest_of (new_alg d)) bytes d
            (IsPairStage H.digest_of said bytes others (opening_of kind) d) result) }
        ensures not_due { let said = panel_says (map says judges.old.items) in
            ForSome (A.known media.old) (λ bytes. (kind : MediaKind) → IsKind bytes file.now kind
            → IsParentRefused H.digest_of said bytes (opening_of kind)
            → other.new ≡ other.old) }

        // These hold of every two files.
        ensures some { let d = self.now.definition.now in
            IfOk result (IsSomeGround (H.digest_of (new_alg d)) d file.now.clearing) }
        ensures media { ReadsSource A.len A.known A.faults
            (IsGroundCause (Rose (D.faults other.old) (D.faults other.new)))
            media.old media.new result }
        ensures other { ReadsSource D.len D.known D.faults
            (IsGroundCause (Rose (A.faults media.old) (A.faults media.new)))
            other.old other.new result }
        ensures panel { HearsPanel says asked_times judge_faults build_heard
            (PairHears H.digest_of (A.known media.old) (D.known other.old) file.now)
            judges.old judges.new result }
    {
        let Some(older) = &file.older else {
            let ours = Ours {
                clearing: file.clearing,
                store: None,
            };
            return self.with_other(&ours, other, judges);
        };
        self.over_store(media, file, older, other, judges)
    }
}
