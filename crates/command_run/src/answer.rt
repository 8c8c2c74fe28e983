//! What `run` answers.
ghost use Rattle.std.specs.Prelude.{◌≡◌, ◌-◌, ◌<◌, ◌≤◌, ◌^◌, length, map, Err, IfOk, OnErr};
ghost use Rattle.bg_answers.specs.Answer.{answer_of};
ghost use Rattle.bg_answers.specs.Promise.{IsRightAnswer, StandsForReply};
ghost use Rattle.bg_base.specs.Limits.{most_steps};
ghost use Rattle.command_run.specs.Run.{run_promise, HaveStayed};

use crate::text::text_of;
use bg_answers::{Failure, Reply, Status, system_of};
use bg_cond::Gate;
use bg_lists::Mem;
use bg_watch::Watcher;
use std::alloc::Global;
use std::sync::Wait;
use std::thread::Threads;

/// What `run` answers to its input: `Done` (0) with the journal of a run of the system that the input describes, by so many
/// workers, from 1 to 64, and of at most `most` steps, how the run ends, a line for each predicate, the lines of the watchers
/// and the last host; or `Refused` (1) with the line of the refusal. With one worker it is the run that the seed draws. The
/// watchers are told of each entry, with the number of nodes of the host after it; where the input is refused, or there is no
/// memory, they are told of nothing. The gate is told of the moments of the workers. Costs what reading costs, and at each
/// step a pick and a reaction in place for each worker and one more, or two where a rule of the run copies, drops or reorders
/// parts of its parameter. Holds the journal and the text beside the host, and for each worker a host of its own, indexed, with the
/// lists that it keeps. It may wait. (Milner, chapter 8; conditions and classes are those of docs/LANGUAGE.md, picks those of
/// docs/FORMATS.md.)
pub fn answer_run<G: Gate + Sync, R: Threads + Wait + Sync>(
    rt: &R,
    alloc: Global,
    input: &[u8],
    most: u32,
    workers: u32,
    seed: u64,
    watchers: &mut Vec<Box<dyn Watcher>>,
    gate: &G,
) -> Mem<Reply>
    requires small { length input.now < 2 ^ 32 - 1 }
    requires few { most ≤ most_steps }
    requires workers { (1 ≤ workers) × (workers ≤ 64) }
    ensures right { IfOk result (λ reply. IsRightAnswer (run_promise most workers seed (map (λ w. state w) watchers.old.items)) input.now (answer_of reply)) }
    ensures stay { IfOk result (λ reply. HaveStayed most workers seed (map (λ w. state w) watchers.old.items) (map (λ w. state w) watchers.new.items) input.now (answer_of reply)) }
    ensures no_memory { OnErr result (watchers.new ≡ watchers.old) }
{
    let system = match system_of(alloc, input) {
        Ok(system) => system,
        Err(failure) => return refusal_of(alloc, failure),
    };
    let text = text_of(rt, alloc, system, most, workers, seed, watchers, gate)?;
    Ok(Reply {
        status: Status::Done,
        text,
    })
}

/// The answer to an input that describes no system.
fn refusal_of(alloc: Global, failure: Failure) -> Mem<Reply>
    ensures { IfOk result (λ reply. StandsForReply (Err failure) (answer_of reply)) }
{
    Reply::of(alloc, Err(failure))
}
