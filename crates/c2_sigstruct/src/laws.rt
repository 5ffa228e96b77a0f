//! Laws of messages.

ghost use Rattle.std.specs.Prelude.{◌⊎◌};
ghost use Rattle.c2_spec.specs.Cbor.Item.{Item};
ghost use Rattle.c2_spec.specs.C2pa.Sign1.{SignParts, IsMessage};
ghost use Rattle.c2_sigstruct.specs.Padded.{PaddingAddsItsCost, PaddedIsRead};
ghost use Rattle.c2_sigstruct.specs.Padded.{PaddingIsAllThatIsAdded};

/// An item is a message, with its parts, or is none.
pub fn each_item_is_a_message_or_not()
    ensures { (v : Item) → ((parts : SignParts) × IsMessage v parts)
        ⊎ ((parts : SignParts) → IsMessage v parts → ⊥) }
{}

/// A message that can be padded is longer by what its fill costs, and is read again: with the same protected header, the same
/// signature, and the same unprotected header but for the padding.
pub fn padded_messages_are_read()
    ensures longer { PaddingAddsItsCost }
    ensures read { PaddedIsRead }
    ensures same { PaddingIsAllThatIsAdded }
{}
