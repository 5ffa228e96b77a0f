// The parts of a new manifest whose store stands in front.
ghost use Rattle.std.specs.Prelude.{◌≡◌, ◌<◌, ◌≤◌, IfErr, IfOk, length};
ghost use Rattle.std.specs.Option.{ForSome};
ghost use Rattle.c2_base.specs.Source.{ReadsSource};
ghost use Rattle.c2_base.specs.declared.limits.TheConstants.{MAX_STORE_LEN};
ghost use Rattle.c2_new_file_spec.specs.Fresh.{fresh_content};
ghost use Rattle.c2_new_file_spec.specs.Store.{new_alg};
ghost use Rattle.c2_definition.specs.DefinitionFile.{IsWellFormed};
ghost use Rattle.c2_new_file_spec.specs.Films as films;
ghost use Rattle.c2_bmff_binding_front.specs.Putting.{FitsIn};
ghost use Rattle.c2_layout.specs.Parts.{AreParts, parts_size};
ghost use Rattle.c2_build_refusals.specs.Kinds.{SaysNothing};
ghost use Rattle.c2_spec.specs.Digest.{digest_len};
ghost use Rattle.c2_spec.specs.Located.{Opening};
ghost use Rattle.c2_spec.specs.Jumbf.Tree.{Tree};
ghost use Rattle.c2_build_front.specs.Steps.{AreFrontParts, IsDraftedOver, IsPlanStep, store_size};

use c2_base::{NoMemory, Source};
use c2_bmff_binding::new_bmff_binding;
use c2_bmff_binding_front::{Front, front_digest};
use c2_build_refusals::{BuildError, media_error};
use c2_definition::Definition;
use c2_hash::{Digest, Hashing};
use c2_layout::{Carried, NewParts, bound_parts};
use std::alloc::Global;

// The parts of the new manifest of a definition, whose store isn't too large, with this digest of what its binding binds.
fn parts_with<H: Hashing>(
    alloc: Global,
    hashing: &H,
    definition: &Definition,
    digest: &Digest,
) -> Result<NewParts, NoMemory>
    requires formed { IsWellFormed definition.now }
    requires small { store_size definition.now ≤ MAX_STORE_LEN }
    requires digest { length digest.now ≡ digest_len (new_alg definition.now) }
    ensures parts { IfOk result (AreParts (H.digest_of (new_alg definition.now))
        (fresh_content definition.now)
        (films.new_bmff_binding (new_alg definition.now) digest.now)) }
    ensures size { IfOk result (λ p. parts_size definition.now.label p definition.now.reserve
        ≡ store_size definition.now) }
{
    let binding = new_bmff_binding(alloc, definition.alg, digest.as_slice())?;
    let nothing = Carried::nothing(alloc);
    bound_parts(alloc, hashing, definition, &nothing, &binding)
}

/// The parts of the new manifest of what was drafted over a media file, which is digested once, with moved chunk offsets, through a buffer
/// that isn't empty.
pub(crate) fn parts_over<A: Source, H: Hashing>(
    alloc: Global,
    hashing: &H,
    media: &mut A,
    front: &Front,
    definition: &Definition,
    buf: &mut [u8],
) -> Result<NewParts, BuildError>
    requires formed { IsWellFormed definition.now }
    requires fits { FitsIn (A.len media.old) front.now }
    requires store { front.now.store_len ≡ store_size definition.now }
    requires room { 0 < length buf.old }
    ensures parts { IfOk result (AreFrontParts (H.digest_of (new_alg definition.now))
        (A.known media.old) definition.now front.now) }
    ensures size { IfOk result (λ p. parts_size definition.now.label p definition.now.reserve
        ≡ store_size definition.now) }
    ensures nothing { IfErr result (λ e. ForSome (A.known media.old) (λ file.
        (what : Opening Tree) → IsDraftedOver file what definition.now front.now
        → SaysNothing e)) }
    ensures reads { ReadsSource A.len A.known A.faults IsPlanStep media.old media.new result }
{
    // Matched and not handed up by `?`, here and below: each way out has clauses of its own.
    let digest = match front_digest(alloc, hashing, definition.alg, media, front, buf) {
        Ok(digest) => digest,
        Err(error) => return Err(media_error(error)),
    };
    match parts_with(alloc, hashing, definition, &digest) {
        Ok(parts) => Ok(parts),
        Err(NoMemory) => Err(BuildError::NoMemory),
    }
}
