//! What a command answers: its status and its text.
ghost use Rattle.std.specs.Prelude.{◌≡◌, IfOk};
ghost use Rattle.bg_answers.specs.Answer.{answer_of};
ghost use Rattle.bg_answers.specs.Refusal.{refusing};

use crate::{Failure, Refusal, Status};
use bg_lists::{Mem, OutOfMemory};
use std::alloc::Global;

/// An answer, made whole before its first byte is written.
#[derive(Debug, Drop)]
pub struct Reply {
    pub status: Status,
    pub text: Vec<u8>,
}

impl Reply {
    ghost use Rattle.std.specs.Prelude.{IfOk};
    ghost use Rattle.bg_answers.specs.Answer.{answer_of};
    ghost use Rattle.bg_answers.specs.Promise.{StandsForReply};

    /// The answer to an input of which a command made this, or which it refused: then it is `Refused` (1), with the line
    /// of the refusal. Costs the time of a line.
    pub fn of(alloc: Global, made: Result<Reply, Failure>) -> Mem<Reply>
        ensures { IfOk result (λ reply. StandsForReply made (answer_of reply)) }
    {
        match made {
            Ok(reply) => Ok(reply),
            Err(Failure::Refused(refusal)) => refuse(alloc, refusal),
            Err(Failure::OutOfMemory) => Err(OutOfMemory),
        }
    }
}

/// The answer to an input that is refused.
fn refuse(alloc: Global, refusal: Refusal) -> Mem<Reply>
    ensures { IfOk result (λ reply. answer_of reply ≡ refusing refusal) }
{
    let mut text = refusal.to_string(alloc)?;
    text.push('\n')?;
    Ok(Reply {
        status: Status::Refused,
        text: text.into_bytes(),
    })
}
