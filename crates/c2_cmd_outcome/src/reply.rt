// Replies: the answer and the text of a run without a fault, before it is written.
ghost use Rattle.std.specs.Prelude.{◌≡◌};
ghost use Rattle.c2_cmd_outcome.specs.Reply.{fault_of};
ghost use Rattle.c2_cmd_outcome.specs.declared.reply.Fault.TheVariants.{Input, Memory};

use crate::types::Answer;
use c2_base::{Failed, NoMemory};
use c2_opening::ValidateError;
use std::alloc::AllocError;

/// Why a run has no reply.
#[derive(Clone, Copy, Debug, PartialEq, Eq)]
pub enum Fault {
    /// A source failed.
    Input,

    /// The report failed, or the new file.
    Output,

    /// A judge failed.
    Judge,

    /// Memory ran out.
    Memory,
}

/// An answer and its report.
#[derive(Drop)]
pub struct Reply {
    pub answer: Answer,
    pub text: String,
}

impl From<AllocError> for Fault {
    ghost from_gives = { λ _ e. e ≡ Memory };

    fn from(_error: AllocError) -> Fault {
        Fault::Memory
    }
}

impl From<NoMemory> for Fault {
    ghost from_gives = { λ _ e. e ≡ Memory };

    fn from(_failed: NoMemory) -> Fault {
        Fault::Memory
    }
}

impl From<Failed> for Fault {
    ghost from_gives = { λ _ e. e ≡ Input };

    fn from(_failed: Failed) -> Fault {
        Fault::Input
    }
}

impl From<ValidateError> for Fault {
    ghost from_gives = { λ error e. e ≡ fault_of error };

    fn from(error: ValidateError) -> Fault {
        match error {
            ValidateError::ReadFault => Fault::Input,
            ValidateError::JudgeFault => Fault::Judge,
            ValidateError::NoMemory => Fault::Memory,
        }
    }
}
