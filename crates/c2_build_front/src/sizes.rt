// The size of a new store that stands in front, and of the new file, before anything is digested.
ghost use Rattle.std.specs.Prelude.{◌≡◌, ℕ, ◌-◌, ◌<◌, ◌≤◌, ◌^◌, [], min, IfErr, IfOk, OnOk};
ghost use Rattle.c2_base.specs.declared.limits.TheConstants as limits;
ghost use Rattle.c2_new_front_spec.specs.Order.{size_refusals};
ghost use Rattle.c2_build_front.specs.Steps.{HasSize, IsFirstError, store_size};
ghost use Rattle.c2_build_refusals.specs.Kinds.{IsQuiet, WithoutFault};

use c2_base::NoMemory;
use c2_base::limits::{FILE_LEN_LIMIT, MAX_ROOT_BOXES, MAX_STORE_LEN};
use c2_bmff_binding::new_bmff_binding;
use c2_build_refusals::BuildError;
use c2_definition::Definition;
use c2_hash::Digest;
use c2_layout::{Carried, bound_size};
use c2_spec::Reason;
use std::alloc::Global;

// The length of the new store of a definition; 2^64 - 1 where 64 bits can't hold it.
fn told_store_len(alloc: Global, definition: &Definition) -> Result<u64, NoMemory>
    ensures { IfOk result (λ n. n ≡ min (store_size definition.now) (2 ^ 64 - 1)) }
{
    let blank = Digest::zeros(definition.alg);
    let binding = new_bmff_binding(alloc, definition.alg, blank.as_slice())?;
    let nothing = Carried::nothing(alloc);
    bound_size(alloc, definition, &nothing, &binding)
}

/// The length of the new store of a definition, where it isn't too large.
pub(crate) fn small_store_len(alloc: Global, definition: &Definition) -> Result<u64, BuildError>
    ensures len { IfOk result (λ n. n ≡ store_size definition.now) }
    ensures small { IfOk result (λ n. n ≤ MAX_STORE_LEN) }
    ensures refused { IfErr result (λ e. HasSize definition.now → (file boxes : ℕ)
        → WithoutFault e (IsFirstError (size_refusals (store_size definition.now) file boxes) e)) }
    ensures quiet { IfErr result IsQuiet }
{
    let len = match told_store_len(alloc, definition) {
        Ok(len) => len,
        Err(NoMemory) => return Err(BuildError::NoMemory),
    };
    if len > MAX_STORE_LEN {
        return Err(BuildError::StoreTooLarge(len));
    }
    Ok(len)
}

/// Refuses a new file that would have so many bytes, or whose media has as many root boxes as a file may have. Its store isn't too large.
pub(crate) fn check_sizes(file_len: u64, boxes: usize) -> Result<(), BuildError>
    ensures passed { OnOk result ((store : ℕ) → store ≤ limits.MAX_STORE_LEN
        → size_refusals store file_len boxes ≡ []) }
    ensures refused { IfErr result (λ e. (store : ℕ) → store ≤ limits.MAX_STORE_LEN
        → IsFirstError (size_refusals store file_len boxes) e) }
    ensures short { OnOk result (file_len < limits.FILE_LEN_LIMIT) }
    ensures quiet { IfErr result IsQuiet }
{
    if file_len >= FILE_LEN_LIMIT {
        return Err(BuildError::MediaRefused(Reason::FileTooLarge, file_len));
    }
    if boxes as u64 >= MAX_ROOT_BOXES {
        return Err(BuildError::MediaRefused(Reason::TooManyBoxes, MAX_ROOT_BOXES));
    }
    Ok(())
}
