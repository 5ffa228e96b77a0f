// Reading the definition file and the signed message.
ghost use Rattle.std.specs.Prelude.{◌≡◌, IfErr, IfOk, OnOk};
ghost use Rattle.std.specs.Option.{ForSome};
ghost use Rattle.c2_base.specs.Source.{StaysSource};
ghost use Rattle.c2_spec.specs.C2pa.Message.{CanBePadded};
ghost use Rattle.c2_spec.specs.C2pa.Sign1.{parts_of};
ghost use Rattle.c2_spec.specs.Cbor.Item.{Pairs};
ghost use Rattle.c2_definition.specs.DefinitionFile.{IsWellFormed};
ghost use Rattle.c2_build_refusals.specs.Kinds.{ComesAs, HasOutcome, IsMessageCause, IsReadCause};
ghost use Rattle.c2_build_refusals.specs.Stages.{HasTextsIn, IsDefinitionStage, IsMessageStage};

use crate::BuildError;
use crate::texts::see_texts;
use c2_base::limits::MAX_INPUT_LEN;
use c2_base::{ReadAllError, Source, read_all};
use c2_definition::{Definition, DefinitionError, DefinitionField, read_definition};
use c2_new_signature::{MessageError, SignaturePart, read_message};
use c2_sigstruct::Sign1;
use std::alloc::Global;

/// The definition that a file is, or what of it is refused first, by `BadDefinition`. `ReadFault` comes only where the file's count of faults
/// rose in this call, and `NoMemory` where memory ran out.
pub fn read_definition_file<B: Source>(
    alloc: Global,
    file: &mut B,
) -> Result<Definition, BuildError>
    ensures stage { ForSome (B.known file.old)
        (λ bytes. HasOutcome (IsDefinitionStage bytes) result) }
    ensures formed { IfOk result IsWellFormed }
    ensures texts { ForSome (B.known file.old) (λ bytes. OnOk result (HasTextsIn bytes)) }
    ensures cause { IfErr result (IsReadCause (B.faults file.old) (B.faults file.new)) }
    ensures count { OnOk result (B.faults file.new ≡ B.faults file.old) }
    ensures stays { StaysSource B.len B.known B.faults file.old file.new }
{
    let bytes = match read_all(alloc, file, MAX_INPUT_LEN) {
        Ok(bytes) => bytes,
        Err(ReadAllError::TooLong(_)) => {
            return Err(BuildError::BadDefinition(DefinitionField::Size));
        }
        Err(ReadAllError::ReadFault) => return Err(BuildError::ReadFault),
        Err(ReadAllError::NoMemory) => return Err(BuildError::NoMemory),
    };
    match read_definition(alloc, bytes.as_slice()) {
        Ok(definition) => {
            see_texts(&definition);
            Ok(definition)
        }
        Err(DefinitionError::BadDefinition(field)) => Err(BuildError::BadDefinition(field)),
        Err(DefinitionError::NoMemory) => Err(BuildError::NoMemory),
    }
}

/// The signed message that a file is, where the definition has this protected header, or the test that it fails first, by `BadSignature`.
/// `ReadFault` comes only where the file's count of faults rose in this call, and `NoMemory` where memory ran out.
pub fn read_message_file<C: Source>(
    alloc: Global,
    protected: &[u8],
    file: &mut C,
) -> Result<Sign1, BuildError>
    ensures stage { ForSome (C.known file.old) (λ bytes.
        ComesAs (λ sign p. parts_of sign ≡ p) (IsMessageStage protected.now bytes) result) }
    ensures padded { IfOk result (λ sign. (entries : Pairs) × CanBePadded (parts_of sign) entries) }
    ensures protected { IfOk result (λ sign. sign.protected ≡ protected.now) }
    ensures cause { IfErr result (IsMessageCause (C.faults file.old) (C.faults file.new)) }
    ensures count { OnOk result (C.faults file.new ≡ C.faults file.old) }
    ensures stays { StaysSource C.len C.known C.faults file.old file.new }
{
    let bytes = match read_all(alloc, file, MAX_INPUT_LEN) {
        Ok(bytes) => bytes,
        Err(ReadAllError::TooLong(_)) => {
            return Err(BuildError::BadSignature(SignaturePart::Size));
        }
        Err(ReadAllError::ReadFault) => return Err(BuildError::ReadFault),
        Err(ReadAllError::NoMemory) => return Err(BuildError::NoMemory),
    };
    match read_message(alloc, protected, bytes.as_slice()) {
        Ok(sign) => Ok(sign),
        Err(MessageError::BadSignature(part)) => Err(BuildError::BadSignature(part)),
        Err(MessageError::NoMemory) => Err(BuildError::NoMemory),
        // Nothing is reserved for a message that is read.
        Err(MessageError::ReserveTooSmall(_)) => unreachable!(),
    }
}
