//! What `trial` answers.
ghost use Rattle.std.specs.Prelude.{◌-◌, ◌<◌, ◌≤◌, ◌^◌, length, IfOk};
ghost use Rattle.bg_answers.specs.Answer.{answer_of};
ghost use Rattle.bg_answers.specs.Promise.{IsRightAnswer, Keeps};
ghost use Rattle.command_trial.specs.Model.{trial_model};
ghost use Rattle.command_trial.specs.Trial.{trial_promise};

use crate::model::model_of;
use crate::summary::summary_of;
use bg_answers::{Failure, Reply, Status, system_of};
use bg_lists::Mem;
use std::alloc::Global;
use std::thread::Threads;

/// What `trial` answers for a size from 1 to 300: `Done` (0) with how many nodes and edges the host of the model of that size
/// has, how many occurrences each rule has there, listed by four workers, how many steps the run makes that seed 0 draws, at most 1,000, how it ends,
/// and how many nodes and edges the last host has; or `Refused` (1) with the line of the refusal, if the model describes no system. Costs what reading
/// the model, the occurrences and the run cost. (Milner, chapter 8.)
pub fn answer_trial<R: Threads + Sync>(rt: &R, alloc: Global, size: u32) -> Mem<Reply>
    requires { (1 ≤ size) × (size ≤ 300) }
    ensures { IfOk result (λ reply. IsRightAnswer (trial_promise size) (trial_model size) (answer_of reply)) }
{
    let model = model_of(alloc, size)?;
    let made = reply(rt, alloc, model.as_slice(), size);
    Reply::of(alloc, made)
}

fn reply<R: Threads + Sync>(
    rt: &R,
    alloc: Global,
    model: &[u8],
    size: u32,
) -> Result<Reply, Failure>
    requires { length model.now < 2 ^ 32 - 1 }
    ensures { Keeps (trial_promise size) result model.now }
{
    let system = system_of(alloc, model)?;
    let text = summary_of(rt, alloc, &system, size)?;
    Ok(Reply {
        status: Status::Done,
        text,
    })
}
