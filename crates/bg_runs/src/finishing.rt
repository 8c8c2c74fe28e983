//! How a run is finished on the calling thread.
ghost use Rattle.std.specs.Prelude.{◌≡◌, ◌≢◌, ◌≤◌, ◌<◌, ◌++◌, ℕ, length, IfOk, MatchOption};
ghost use Rattle.bg_base.specs.Limits.{most_steps};
ghost use Rattle.bg_base.specs.declared.history.Step.{Step};
ghost use Rattle.bg_cond.specs.Steps.{IsRun};
ghost use Rattle.bg_runs.specs.Finished.{CameFrom, IsAt, IsDrawnOn, IsFinished};
ghost use Rattle.bg_shared.specs.Shared.{IsHistory};
ghost use Rattle.bg_workers.specs.Working.{run_end_of};
ghost use Rattle.bg_workers.specs.declared.ends.Ended.TheVariants.{Full};

use bg_base::Journal;
use bg_cond::{Closed, End};
use bg_lists::{Mem, Rows};
use bg_rules::{Host, System};
use bg_workers::{DrawnRun, Ended, Picker, draw};
use std::alloc::Global;

/// A run that came to its end.
#[derive(Debug, Drop)]
pub struct FinishedRun {
    /// The system that was run.
    pub system: System,
    /// All entries, of all workers, in the order in which they were committed.
    pub journal: Journal,
    /// Why there are no more.
    pub end: End,
    /// The host after all entries.
    pub host: Host,
}

/// Finishes a run that workers have left: where no entry came since worker 0 ended, its end is that of the run; else worker 0 goes
/// on drawing.
pub(crate) fn finish(
    alloc: Global,
    closed: Closed,
    picker: Picker,
    ended: Ended,
    limit: u32,
    workers: u32,
    seed: u64,
) -> Mem<FinishedRun>
    requires limit { limit ≤ most_steps }
    requires run { IsRun closed.system.rules closed.system.init closed.journal closed.host }
    requires history { IsHistory closed.system limit workers closed.journal }
    requires came { CameFrom closed.system limit seed closed.journal ended }
    requires some { 0 < workers }
    ensures { IfOk result (λ run. IsFinished closed.system limit workers seed run) }
{
    // These two are named by contracts alone.
    let _ = (workers, seed);
    let _signature = closed.system.signature();
    match end_at(ended, closed.journal.len(), limit) {
        Some(end) => Ok(ended_with(closed, end)),
        None => {
            let run = drawn_on(alloc, closed, picker, limit)?;
            Ok(run)
        }
    }
}

/// The worker's end as that of a run, where it ended after so many entries, or at the limit and these are as many.
fn end_at(ended: Ended, count: u32, limit: u32) -> Option<End>
    ensures { MatchOption result ((version : ℕ) (step : Step) → ended ≡ Full version step → version ≢ count)
        (λ end. (end ≡ run_end_of ended) × IsAt ended count limit) }
{
    match ended {
        Ended::Quiet { version } if version == count => Some(End::Quiet),
        Ended::Limit if count == limit => Some(End::Limit),
        Ended::Full { version, step } if version == count => Some(End::Full { step }),
        _ => None,
    }
}

/// The run with that end.
fn ended_with(closed: Closed, end: End) -> FinishedRun
    ensures { result ≡ record { system = closed.system; journal = closed.journal; end = end; host = closed.host } }
{
    let Closed {
        system,
        host,
        journal,
    } = closed;
    FinishedRun {
        system,
        journal,
        end,
        host,
    }
}

/// Worker 0 goes on drawing, until there are so many entries at most.
fn drawn_on(alloc: Global, closed: Closed, mut picker: Picker, limit: u32) -> Mem<FinishedRun>
    requires limit { limit ≤ most_steps }
    requires few { length closed.journal ≤ limit }
    ensures { IfOk result (λ run. IsDrawnOn closed limit picker run) }
{
    let Closed {
        system,
        host,
        journal,
    } = closed;
    let room = limit - journal.len();
    let rest = draw(alloc, &system, host, room, &mut picker)?;
    let DrawnRun {
        journal: more,
        end,
        host,
    } = rest;
    let journal = joined(journal, more)?;
    Ok(FinishedRun {
        system,
        journal,
        end,
        host,
    })
}

/// The entries of both, one behind the other.
fn joined(journal: Journal, more: Journal) -> Mem<Journal>
    ensures { IfOk result (λ all. all ≡ journal ++ more) }
{
    let mut entries = journal.into_vec();
    for entry in more.into_vec() {
        entries.push(entry)?;
    }
    let all = Rows::try_from_vec(entries)?;
    Ok(all)
}
