// Why a message is refused.
use c2_base::NoMemory as OutOfMemory;

/// What is refused of a signed message, in the order in which it is tested.
#[derive(Clone, Copy, Debug, PartialEq, Eq)]
pub enum SignaturePart {
    /// The message is longer than `MAX_INPUT_LEN` bytes.
    Size,

    /// The bytes are no COSE_Sign1 message with a detached payload (RFC 9052, section 4.2).
    Form,

    /// Two keys of a map in the message come to the same bytes in deterministic encoding (RFC 8949, section 4.2.1): a reader of what is
    /// written of it would find the key twice.
    Plain,

    /// The protected header of the message isn't the wanted one.
    Protected,

    /// More than `MAX_HEADER_ENTRIES` parameters stand in the unprotected header of the message.
    Entries,

    /// One of these parameters is named `pad` or `pad2`, as the padding is.
    Pad,
}

/// Why a message isn't taken, or isn't padded.
#[derive(Clone, Copy, Debug, PartialEq, Eq)]
pub enum MessageError {
    /// The message fails this test first.
    BadSignature(SignaturePart),

    /// The message doesn't fit into the bytes that are reserved for it; so many are needed.
    ReserveTooSmall(u64),

    /// Memory ran out.
    NoMemory,
}

impl From<OutOfMemory> for MessageError {
    ghost use Rattle.std.specs.Prelude.{◌≡◌};
    ghost use Rattle.c2_new_signature.specs.declared.error.MessageError.TheVariants.{NoMemory};

    ghost from_gives = { λ _ e. e ≡ NoMemory };

    fn from(_: OutOfMemory) -> MessageError {
        MessageError::NoMemory
    }
}
