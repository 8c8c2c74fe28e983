//! What `compose` answers.
ghost use Rattle.std.specs.Prelude.{◌-◌, ◌<◌, ◌^◌, length, IfOk};
ghost use Rattle.bg_answers.specs.Answer.{answer_of};
ghost use Rattle.bg_answers.specs.Promise.{IsRightAnswer, Keeps};
ghost use Rattle.command_compose.specs.Compose.{compose_promise};

use crate::composition::composition;
use bg_answers::{Failure, Reply, Status};
use bg_lists::Mem;
use std::alloc::Global;

/// What `compose` answers to its input, the listings of a signature and of two bigraphs under it, G and then F: `Done`
/// (0) with the listing of G after F (Milner, chapter 2), or `Refused` (1) with the line of the refusal: of the first
/// fault of the listings with its code and its line, 8 for a line behind the second bigraph, then `FacesDiffer` (11),
/// then `SupportMeets` (12). Costs the time of reading, of `compose` and of writing.
pub fn answer_compose(alloc: Global, input: &[u8]) -> Mem<Reply>
    requires { length input.now < 2 ^ 32 - 1 }
    ensures { IfOk result (λ reply. IsRightAnswer compose_promise input.now (answer_of reply)) }
{
    Reply::of(alloc, reply(alloc, input))
}

fn reply(alloc: Global, input: &[u8]) -> Result<Reply, Failure>
    requires { length input.now < 2 ^ 32 - 1 }
    ensures { Keeps compose_promise result input.now }
{
    let text = composition(alloc, input)?;
    Ok(Reply {
        status: Status::Done,
        text,
    })
}
