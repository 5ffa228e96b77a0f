// What is ready to be written of what was drafted, before anything is.
ghost use Rattle.std.specs.Prelude.{◌<◌, IfErr, IfOk, length};
ghost use Rattle.c2_base.specs.Source.{ReadsSource};
ghost use Rattle.c2_spec.specs.Jpeg.Writing.{IsPacketStore};
ghost use Rattle.c2_build_refusals.specs.Kinds.{IsReadCause, SaysNothing};
ghost use Rattle.c2_build_in_place.specs.Writings.{CanWrite};
ghost use Rattle.c2_build_drafts.specs.Drafts.{FitsMedia, IsReadyOf, IsStoreFor};

use c2_base::limits::PIECE_LEN;
use c2_base::{Blob, NoMemory, Source};
use c2_build_in_place::Ready;
use c2_build_parts::parts_for;
use c2_build_refusals::{BuildError, Drafted};
use c2_definition::Definition;
use c2_hash::Hashing;
use c2_layout::new_store;
use std::alloc::Global;

/// What is to be built, with a message: all that a new file is made of besides the media. Nothing of it is borrowed of what was opened.
#[derive(Debug, Drop)]
pub struct DraftedBuild {
    /// The definition.
    pub definition: Definition,

    /// What is to be built, and over what.
    pub drafted: Drafted,

    /// The message, padded to what the definition reserves for it.
    pub message: Blob,
}

// The new store of what was drafted over a media file, which is read through a buffer that isn't empty.
fn made_store<A: Source, H: Hashing>(
    alloc: Global,
    hashing: &H,
    media: &mut A,
    build: &DraftedBuild,
    buffer: &mut [u8],
) -> Result<Blob, BuildError>
    requires fits { FitsMedia H.digest_of (A.len media.old) build.now }
    requires room { 0 < length buffer.old }
    ensures made { IfOk result (IsStoreFor H.digest_of (A.known media.old) build.now) }
    ensures packs { IfOk result IsPacketStore }
    ensures nothing { IfErr result SaysNothing }
    ensures reads { ReadsSource A.len A.known A.faults IsReadCause media.old media.new result }
{
    let definition = &build.definition;
    let drafted = &build.drafted;
    // Matched and not handed up by `?`, here and below: each way out has clauses of its own.
    let parts = match parts_for(alloc, hashing, media, definition, drafted, buffer) {
        Ok(parts) => parts,
        Err(error) => return Err(error),
    };
    let message = build.message.as_slice();
    match new_store(alloc, definition, &drafted.ground.carried, &parts, message) {
        Ok(store) => Ok(store),
        Err(NoMemory) => Err(BuildError::NoMemory),
    }
}

// What is to be written, of what was drafted over a media file that is lent.
fn ready_of<A: Source, H: Hashing>(
    alloc: Global,
    hashing: &H,
    media: &mut A,
    build: &DraftedBuild,
) -> Result<Ready, BuildError>
    requires { FitsMedia H.digest_of (A.len media.old) build.now }
    ensures ready { IfOk result (IsReadyOf H.digest_of (A.known media.old) build.now) }
    ensures nothing { IfErr result SaysNothing }
    ensures can_write { IfOk result (CanWrite (A.len media.old)) }
    ensures reads { ReadsSource A.len A.known A.faults IsReadCause media.old media.new result }
{
    let Ok(mut buffer) = vec![in alloc; 0u8; PIECE_LEN] else {
        return Err(BuildError::NoMemory);
    };
    match made_store(alloc, hashing, media, build, &mut buffer) {
        Ok(store) => Ok(Ready {
            store,
            draft: build.drafted.draft,
            clearing: build.drafted.ground.clearing,
            buffer,
        }),
        Err(error) => Err(error),
    }
}

/// What is to be written, of what was drafted over a media file. What was taken over of older stores is let go once the new one holds it.
/// The media is read in pieces. `ReadFault` comes only where its count of faults rose in this call, and `NoMemory` where memory ran out.
pub fn make_ready<A: Source, H: Hashing>(
    alloc: Global,
    hashing: &H,
    media: &mut A,
    build: DraftedBuild,
) -> Result<Ready, BuildError>
    requires { FitsMedia H.digest_of (A.len media.old) build }
    ensures ready { IfOk result (IsReadyOf H.digest_of (A.known media.old) build) }
    ensures nothing { IfErr result SaysNothing }
    ensures can_write { IfOk result (CanWrite (A.len media.old)) }
    ensures reads { ReadsSource A.len A.known A.faults IsReadCause media.old media.new result }
{
    ready_of(alloc, hashing, media, &build)
}
