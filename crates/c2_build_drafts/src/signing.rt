// What is to be signed of what was drafted.
ghost use Rattle.std.specs.Prelude.{IfErr, IfOk};
ghost use Rattle.c2_base.specs.Source.{ReadsSource};
ghost use Rattle.c2_new_file_spec.specs.Store.{new_alg};
ghost use Rattle.c2_without_store.specs.Clears.{cleared_len};
ghost use Rattle.c2_definition.specs.DefinitionFile.{IsWellFormed};
ghost use Rattle.c2_build_refusals.specs.Kinds.{IsReadCause, SaysNothing};
ghost use Rattle.c2_build_parts.specs.Bound.{IsSmall};
ghost use Rattle.c2_build_drafts.specs.Drafts.{IsSignedOf};

use c2_base::limits::PIECE_LEN;
use c2_base::{Blob, NoMemory, Source};
use c2_build_parts::parts_for;
use c2_build_refusals::{BuildError, Drafted, signed_over};
use c2_definition::Definition;
use c2_hash::Hashing;
use std::alloc::Global;

/// The bytes that are to be signed of what was drafted over a media file: the Sig_structure of the new claim, with the protected header of the
/// definition (RFC 9052, section 4.4). The media is read in pieces. `ReadFault` comes only where its count of faults rose in this call, and
/// `NoMemory` where memory ran out.
pub fn signed_draft<A: Source, H: Hashing>(
    alloc: Global,
    hashing: &H,
    media: &mut A,
    definition: &Definition,
    drafted: &Drafted,
) -> Result<Blob, BuildError>
    requires formed { IsWellFormed definition.now }
    requires small { IsSmall (H.digest_of (new_alg definition.now))
        (cleared_len drafted.now.ground.clearing (A.len media.old)) definition.now drafted.now }
    ensures signed { IfOk result (IsSignedOf (H.digest_of (new_alg definition.now))
        (A.known media.old) definition.now drafted.now) }
    ensures nothing { IfErr result SaysNothing }
    ensures reads { ReadsSource A.len A.known A.faults IsReadCause media.old media.new result }
{
    let Ok(mut buffer) = vec![in alloc; 0u8; PIECE_LEN] else {
        return Err(BuildError::NoMemory);
    };
    // Matched and not handed up by `?`, here and below: each way out has clauses of its own.
    let parts = match parts_for(alloc, hashing, media, definition, drafted, &mut buffer) {
        Ok(parts) => parts,
        Err(error) => return Err(error),
    };
    match signed_over(alloc, definition, parts.claim.as_slice()) {
        Ok(tbs) => Ok(tbs),
        Err(NoMemory) => Err(BuildError::NoMemory),
    }
}
