// The media of a command that reads.
ghost use Rattle.std.specs.Prelude.{IfOk};
ghost use Rattle.std.specs.Option.{ForSome};
ghost use Rattle.c2_base.specs.Source.{ReadsSource};
ghost use Rattle.c2_cmd_outcome.specs.Reply.{IsMediaCause};
ghost use Rattle.c2_cmd_reading.specs.Reading.{IsStored, IsStoredIn};

use c2_base::{Found, Source};
use c2_cmd_outcome::{Fault, Reply, none_reply, refused_reply};
use c2_validate::find_store;
use c2_validate::types::Opened;
use std::alloc::Global;

/// The media of a command that reads.
#[derive(Drop)]
pub enum Stored {
    /// The media has this store.
    Here(Found),

    /// The media has no store, or is refused: this is the reply.
    Reply(Reply),
}

/// Makes the tests of the container.
pub fn open<S: Source>(alloc: Global, media: &mut S) -> Result<Stored, Fault>
    ensures stored { ForSome (S.known media.old) (λ file. IfOk result (IsStored file)) }
    ensures within { IfOk result (IsStoredIn (S.len media.old)) }
    ensures media { ReadsSource S.len S.known S.faults IsMediaCause media.old media.new result }
{
    match find_store(alloc, media)? {
        Opened::Here(media) => Ok(Stored::Here(media.found)),
        Opened::NoStore(_) => Ok(Stored::Reply(none_reply(alloc)?)),
        Opened::Refused(reason, number) => {
            Ok(Stored::Reply(refused_reply(alloc, reason, number)?))
        }
    }
}
