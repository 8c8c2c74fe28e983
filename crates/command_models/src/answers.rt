//! What `check` and `show` answer.
ghost use Rattle.std.specs.Prelude.{◌≡◌, ◌-◌, ◌<◌, ◌^◌, IfOk, length};
ghost use Rattle.bg_answers.specs.Answer.{answer_of};
ghost use Rattle.bg_answers.specs.Promise.{IsRightAnswer, Keeps};
ghost use Rattle.command_models.specs.Check as check;
ghost use Rattle.command_models.specs.Models.{check_promise, show_promise};

use crate::counts::counts_of;
use bg_answers::{Failure, Reply, Status, system_of};
use bg_lists::Mem;
use bg_rules::System;
use bg_show_text::write_system;
use std::alloc::Global;

/// What `check` answers to its input: `Done` (0) with a line that tells how much there is of everything in the system
/// that the input describes, or `Refused` (1) with the line of the refusal. Costs what reading costs.
pub fn answer_check(alloc: Global, input: &[u8]) -> Mem<Reply>
    requires { length input.now < 2 ^ 32 - 1 }
    ensures { IfOk result (λ reply. IsRightAnswer check_promise input.now (answer_of reply)) }
{
    Reply::of(alloc, check(alloc, input))
}

fn check(alloc: Global, input: &[u8]) -> Result<Reply, Failure>
    requires { length input.now < 2 ^ 32 - 1 }
    ensures { Keeps check_promise result input.now }
{
    let system = system_of(alloc, input)?;
    let text = counts_line(alloc, &system)?;
    Ok(Reply {
        status: Status::Done,
        text,
    })
}

/// The line that counts a system.
fn counts_line(alloc: Global, system: &System) -> Mem<Vec<u8>>
    ensures { IfOk result (λ text. text.items ≡ check.check_text system.now) }
{
    let mut text = counts_of(system).to_string(alloc)?;
    text.push('\n')?;
    Ok(text.into_bytes())
}

/// What `show` answers to its input: `Done` (0) with the listing of the system that the input describes, or `Refused` (1)
/// with the line of the refusal. Costs what reading costs, and time in proportion to the listing.
pub fn answer_show(alloc: Global, input: &[u8]) -> Mem<Reply>
    requires { length input.now < 2 ^ 32 - 1 }
    ensures { IfOk result (λ reply. IsRightAnswer show_promise input.now (answer_of reply)) }
{
    Reply::of(alloc, show(alloc, input))
}

fn show(alloc: Global, input: &[u8]) -> Result<Reply, Failure>
    requires { length input.now < 2 ^ 32 - 1 }
    ensures { Keeps show_promise result input.now }
{
    let system = system_of(alloc, input)?;
    let mut text = Vec::new(alloc);
    write_system(alloc, &system, &mut text)?;
    Ok(Reply {
        status: Status::Done,
        text,
    })
}
