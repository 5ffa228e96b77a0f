// Opening the media file.
ghost use Rattle.std.specs.Prelude.{◌≡◌, ℕ, List, Err, Some, IfErr, IfOk};
ghost use Rattle.std.specs.Option.{ForSome};
ghost use Rattle.c2_base.specs.Source.{ReadsSource};
ghost use Rattle.c2_spec.specs.C2pa.Manifest.{IsStoreOf};
ghost use Rattle.c2_spec.specs.Located.{here};
ghost use Rattle.c2_rules.specs.Opened.{IsManifestStore};
ghost use Rattle.c2_container.specs.Contained.{IsWithin};
ghost use Rattle.c2_build_refusals.specs.Kinds.{ComesAs, IsQuiet, IsReadCause, WithoutFault};
ghost use Rattle.c2_build_refusals.specs.Stages.{IsMediaStage, stored};
ghost use Rattle.c2_build_base.specs.Grounds.{IsFoundIn, IsKind, IsReadIn};

use c2_base::{Found, NoMemory, Range, Source};
use c2_build_place::cleared_of;
use c2_build_refusals::{BuildError, media_error};
use c2_container::{Contained, locate};
use c2_jumbf::Tree;
use c2_store::Store;
use c2_validate::read_store;
use c2_validate::types::StoreRead;
use c2_without_store::Clearing;
use std::alloc::Global;

/// The store of a media file. It borrows the store's bytes.
#[derive(Drop)]
pub struct OlderStore<'t> {
    /// The embedded range of the store.
    pub range: Range,

    /// The box tree of the store.
    pub tree: Tree<'t>,

    /// The boxes of its manifests.
    pub store: Store,
}

/// What was read of a media file that isn't refused. It borrows what was found of the file.
#[derive(Drop)]
pub struct MediaRead<'t> {
    /// What was found of the file.
    pub contained: &'t Contained,

    /// The store of the media file, where it has one.
    pub older: Option<OlderStore<'t>>,

    /// How the media file is cleared of its store.
    pub clearing: Clearing,
}

// What is read of a media file with this store.
fn with_store<'t>(
    file: &'t Contained,
    found: &'t Found,
    tree: Tree<'t>,
    store: Store,
) -> MediaRead<'t>
    requires { file.now.found ≡ Some found.now }
    ensures kind { (bytes : List ℕ) → IsFoundIn bytes file.now
        → IsManifestStore found.now.start found.now.length found.now.store
        (here found.now.start found.now.length tree.entry)
        → IsKind bytes result (stored found.now.start found.now.length tree.entry) }
    ensures inside { (len : ℕ) → IsWithin len file.now → IsStoreOf tree.entry store
        → IsReadIn len result }
{
    let range = Range {
        start: found.start,
        length: found.length,
    };
    MediaRead {
        contained: file,
        clearing: cleared_of(file),
        older: Some(OlderStore { range, tree, store }),
    }
}

/// Finds the container of a media file, its store, and what tells where another goes in what is left. `MediaRefused` comes where the container
/// is refused, or the box or the packets of the store; `ReadFault` only where the file's count of faults rose in this call, and `NoMemory` where
/// memory ran out.
pub fn open_media<A: Source>(alloc: Global, media: &mut A) -> Result<Contained, BuildError>
    ensures found { ForSome (A.known media.old) (λ file. IfOk result (IsFoundIn file)) }
    ensures refused { ForSome (A.known media.old) (λ file.
        IfErr result (λ e. WithoutFault e (IsMediaStage file (Err e)))) }
    ensures inside { IfOk result (IsWithin (A.len media.old)) }
    ensures reads { ReadsSource A.len A.known A.faults IsReadCause media.old media.new result }
{
    // Matched and not handed up by `?`: each way out has clauses of its own.
    match locate(alloc, media) {
        Ok(file) => Ok(file),
        Err(error) => Err(media_error(error)),
    }
}

/// Reads the store that was found in a media file, as a store of manifests. Its bytes are in memory; the file isn't read. `MediaRefused` comes
/// where the store is refused, and `NoMemory` where memory ran out.
pub fn read_media<'t>(alloc: Global, file: &'t Contained) -> Result<MediaRead<'t>, BuildError>
    ensures stage { (bytes : List ℕ) → IsFoundIn bytes file.now
        → ComesAs (IsKind bytes) (IsMediaStage bytes) result }
    ensures inside { (len : ℕ) → IsWithin len file.now → IfOk result (IsReadIn len) }
    ensures quiet { IfErr result IsQuiet }
{
    let Some(found) = &file.found else {
        return Ok(MediaRead {
            contained: file,
            clearing: cleared_of(file),
            older: None,
        });
    };
    let read = match read_store(alloc, found) {
        Ok(read) => read,
        Err(NoMemory) => return Err(BuildError::NoMemory),
    };
    match read {
        StoreRead::Here(tree, store) => Ok(with_store(file, found, tree, store)),
        StoreRead::Refused(reason, number) => Err(BuildError::MediaRefused(reason, number)),
    }
}
