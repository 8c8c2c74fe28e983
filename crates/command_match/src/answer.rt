//! What `match` answers.
ghost use Rattle.std.specs.Prelude.{◌-◌, ◌<◌, ◌≤◌, ◌^◌, length, IfOk};
ghost use Rattle.bg_answers.specs.Answer.{answer_of};
ghost use Rattle.bg_answers.specs.Promise.{IsRightAnswer, Keeps};
ghost use Rattle.command_match.specs.Match.{match_promise};

use crate::matches::matches_of;
use bg_answers::{Failure, Reply, system_of};
use bg_cond::Gate;
use bg_lists::Mem;
use std::alloc::Global;
use std::thread::Threads;

/// What `match` answers to its input: `Done` (0) with, for each rule of the system that the input describes, its line and
/// all occurrences of its redex in the system's host, each once, in dictionary order, where explained with the
/// decomposition of the host there; `TooMany` (6) with the line of the first rule that has more than `most` occurrences;
/// or `Refused` (1) with the line of the refusal. The occurrences of a rule are sought by `workers` threads at once, which
/// call the gate, as `list_parallel` of `bg_par` says; the answer is the same for each number of them. Costs what reading
/// costs, one index of the host, a walk over the occurrences of each rule and, where they are explained, `split` for each,
/// and time in proportion to the text. Holds the text once, beside the index and the maps of one rule. (Milner, chapter
/// 8.)
pub fn answer_match<G: Gate + Sync, R: Threads + Sync>(
    rt: &R,
    alloc: Global,
    input: &[u8],
    workers: u32,
    most: u32,
    explain: bool,
    gate: &G,
) -> Mem<Reply>
    requires input { length input.now < 2 ^ 32 - 1 }
    requires workers { (1 ≤ workers) × (workers ≤ 64) }
    ensures { IfOk result (λ reply. IsRightAnswer (match_promise most explain) input.now (answer_of reply)) }
{
    let made = reply(rt, alloc, input, workers, most, explain, gate);
    Reply::of(alloc, made)
}

fn reply<G: Gate + Sync, R: Threads + Sync>(
    rt: &R,
    alloc: Global,
    input: &[u8],
    workers: u32,
    most: u32,
    explain: bool,
    gate: &G,
) -> Result<Reply, Failure>
    requires input { length input.now < 2 ^ 32 - 1 }
    requires workers { (1 ≤ workers) × (workers ≤ 64) }
    ensures { Keeps (match_promise most explain) result input.now }
{
    let system = system_of(alloc, input)?;
    let reply = matches_of(rt, alloc, &system, workers, most, explain, gate)?;
    Ok(reply)
}
