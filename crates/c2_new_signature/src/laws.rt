// Laws of what is refused, and of what fills a reserve.
ghost use Rattle.c2_new_signature.specs.Message.{AcceptedAreWanted, RefusedForOne};
ghost use Rattle.c2_new_signature.specs.Signed.{FillsOrNeedsMore};

/// A list of bytes is accepted as a message, or is refused for one test, and never both.
pub fn each_message_is_accepted_or_refused_for_one_test()
    ensures { RefusedForOne }
{}

/// The message that accepted bytes spell has the wanted protected header, and can be padded.
pub fn accepted_messages_can_be_padded()
    ensures { AcceptedAreWanted }
{}

/// A message that can be padded fills a reserve in one way, or needs more bytes than are reserved, and never both.
pub fn a_message_fills_its_reserve_or_needs_more()
    ensures { FillsOrNeedsMore }
{}
