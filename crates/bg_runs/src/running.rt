//! A run by workers on a shared host.
ghost use Rattle.std.specs.Prelude.{◌≡◌, ◌≤◌, IfOk};
ghost use Rattle.bg_base.specs.Limits.{most_steps};
ghost use Rattle.bg_cond.specs.Steps.{IsRun};
ghost use Rattle.bg_runs.specs.Finished.{CameFrom, IsFinished};
ghost use Rattle.bg_shared.specs.Shared.{IsHistory};

use crate::finishing::{FinishedRun, finish};
use crate::teams::{parted, run_team};
use bg_cond::{Closed, Gate, HostName};
use bg_lists::Mem;
use bg_rules::System;
use bg_shared::{HostParts, SharedHost};
use bg_workers::{Ended, Picker};
use std::alloc::Global;
use std::marker::Brand;
use std::sync::Wait;
use std::thread::Threads;

/// A run of the system by so many workers, from 1 to 64, of at most `limit` steps, and at most 100,000. The workers run at
/// once on a host that they share, each with a generator of its own, made by the sum of the seed and its number. When all
/// have ended, and entries came since worker 0 did, the calling thread goes on as worker 0, until no step is legal, there are as many
/// entries as may be, or the picked step passes a limit of a host.
///
/// With one worker the run is the one that the seed draws; with more it is some run. It refuses for want of memory alone. It
/// may wait. Each turn of a worker costs the entries that came, a pick, and a reaction in place; each worker holds a host of its own,
/// indexed, and the lists that it keeps.
pub fn run<G: Gate + Sync, R: Threads + Wait + Sync>(
    rt: &R,
    alloc: Global,
    system: System,
    limit: u32,
    workers: u32,
    seed: u64,
    gate: &G,
) -> Mem<FinishedRun>
    requires limit { limit ≤ most_steps }
    requires workers { (1 ≤ workers) × (workers ≤ 64) }
    ensures { IfOk result (λ run. IsFinished system limit workers seed run) }
{
    let parts = HostParts::new(alloc, system, limit, workers)?;
    let (closed, picker, ended) = run_shared::<Brand, G, R>(
        rt, alloc, parts, limit, workers, seed, gate,
    )?;
    finish(alloc, closed, picker, ended, limit, workers, seed)
}

/// The workers' part of the run, on a host of that name: what is left of the host, and the generator and the end of worker
/// 0.
fn run_shared<N: HostName + Send + Sync, G: Gate + Sync, R: Threads + Wait + Sync>(
    rt: &R,
    alloc: Global,
    parts: HostParts,
    limit: u32,
    workers: u32,
    seed: u64,
    gate: &G,
) -> Mem<(Closed, Picker, Ended)>
    requires name { (N.table ≡ parts.table) × (N.system ≡ parts.system) × (N.limit ≡ parts.limit) × (N.passes ≡ parts.passes) }
    requires limit { limit ≡ parts.limit }
    requires workers { (workers ≡ parts.passes) × (1 ≤ workers) }
    ensures system { IfOk result (λ left. left.0.system ≡ parts.system) }
    ensures run { IfOk result (λ left. IsRun parts.system.rules parts.system.init left.0.journal left.0.host) }
    ensures history { IfOk result (λ left. IsHistory parts.system limit workers left.0.journal) }
    ensures came { IfOk result (λ left. CameFrom parts.system limit seed left.0.journal left.2) }
{
    let (host, passes) = SharedHost::<N>::start(parts);
    let members = run_team(rt, alloc, &host, passes, limit, seed, gate)?;
    let (passes, picker, ended) = parted(alloc, members)?;
    let closed = host.close(passes)?;
    Ok((closed, picker, ended))
}
