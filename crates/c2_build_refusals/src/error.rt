// Why nothing is built.
ghost use Rattle.std.specs.Prelude.{◌≡◌};
ghost use Rattle.c2_build_refusals.specs.Kinds.{fault_of, media_error_of};

use c2_base::{MediaError, NoMemory as OutOfMemory, Text};
use c2_definition::DefinitionField;
use c2_new_signature::SignaturePart;
use c2_opening::ValidateError;
use c2_rules::{Answer, Code};
use c2_spec::{Reason, Refusal};

/// Why nothing is built. A variant further up is tested earlier, but for these: the length and the number of root boxes of the new file,
/// which are tested after `StoreTooLarge`, in this order; and `OpenBox`, which is tested before `RedactionRefused` where the store is to stand
/// at the front of a BMFF file. The last four have no place in this order, since they say nothing of the inputs.
///
/// `NotBmff`, `HasStore`, `OffsetTable`, `BadTree`, `BadTable` and `Overflow` come only where the store is to stand at the front of a BMFF file,
/// where `ParentFails`, `LabelTaken`, `NoInstance` and `TooManyManifests` don't come; and `OtherRefused` and `LabelClash` only where another file
/// is to be collected.
#[derive(Debug, Drop)]
pub enum BuildError {
    /// The container, a box or the store of the media file is refused for this reason, with its number. `FileTooLarge` also tells
    /// the length of a file that would be built too long, and `TooManyBoxes` comes also of a BMFF file that would get one root box too
    /// many.
    MediaRefused(Reason, u64),

    /// What is refused of the definition file first.
    BadDefinition(DefinitionField),

    /// The test that the signed message fails first.
    BadSignature(SignaturePart),

    /// The media file is a JPEG file, and the new store is to stand at the front of a BMFF file.
    NotBmff,

    /// The media file has a store already, and the new one is to stand at the front.
    HasStore,

    /// The first rule that fails of the check of the media file's store, with the URI of what it fails at.
    ParentFails(Code, Text),

    /// The check of the other file, which is to be collected, doesn't find it valid: this is what it answers.
    OtherRefused(Answer),

    /// A manifest of the other file that is reached there has this label, and the media file's store has a manifest of this label that
    /// isn't reached there or whose box has other bytes. It is the first such label in the other file's store.
    LabelClash(Text),

    /// A manifest of the media file's store has the label of the new one; or one of the manifests that would be carried of both files,
    /// where another file is to be collected.
    LabelTaken(Text),

    /// The first redaction, in the definition's own spelling, and why it can't be made.
    RedactionRefused(Text, Code),

    /// The last root box of a BMFF file states no size and runs to the end of the file, so that nothing can stand behind it: this is
    /// the place where it begins.
    OpenBox(u64),

    /// Packets of the media file have taken each box instance number from `LEAST_NUMBER` on; those of its older store, which are
    /// taken out, don't count.
    NoInstance,

    /// A box whose offsets into the file can't be moved begins at this place: a root box `moof`, `mfra` or `meta`, or a `saio` among the
    /// boxes of a sample table.
    OffsetTable(u64),

    /// The box that begins at this place, on the way to the chunk tables, doesn't hold a list of boxes.
    BadTree(u64),

    /// The chunk table in the box that begins at this place is malformed.
    BadTable(u64),

    /// So many manifests are too many for a store: `MAX_MANIFESTS` is the most.
    TooManyManifests(u64),

    /// So many bytes are too many for a store: `MAX_STORE_LEN` is the most.
    StoreTooLarge(u64),

    /// The chunk offset in the field at this place, moved behind the new store, doesn't fit into the field.
    Overflow(u64),

    /// The signed message doesn't fit into the bytes that are reserved for it: so many are needed.
    ReserveTooSmall(u64),

    /// A source failed.
    ReadFault,

    /// A judge failed.
    JudgeFault,

    /// The sink failed.
    WriteFault,

    /// Memory ran out.
    NoMemory,
}

impl From<OutOfMemory> for BuildError {
    ghost use Rattle.std.specs.Prelude.{◌≡◌};
    ghost use Rattle.c2_build_refusals.specs.declared.error.BuildError.TheVariants.{NoMemory};

    ghost from_gives = { λ _ e. e ≡ NoMemory };

    fn from(_: OutOfMemory) -> BuildError {
        BuildError::NoMemory
    }
}

/// The fault of a build that a fault of the check of a media file is.
pub fn fault(error: ValidateError) -> BuildError
    ensures { result ≡ fault_of error }
{
    match error {
        ValidateError::ReadFault => BuildError::ReadFault,
        ValidateError::JudgeFault => BuildError::JudgeFault,
        ValidateError::NoMemory => BuildError::NoMemory,
    }
}

/// The error of a build that an error of a walk over a media file is: `MediaRefused`, `ReadFault` or `NoMemory`.
pub fn media_error(error: MediaError) -> BuildError
    ensures { result ≡ media_error_of error }
{
    match Refusal::of_media(error) {
        Some(refusal) => BuildError::MediaRefused(refusal.reason, refusal.number),
        None => match error {
            MediaError::ReadFault => BuildError::ReadFault,
            _ => BuildError::NoMemory,
        },
    }
}
