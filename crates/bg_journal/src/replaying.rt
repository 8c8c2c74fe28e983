//! Whether a journal is a run of a system.
ghost use Rattle.std.specs.Prelude.{◌≡◌, ◌≤◌, ◌<◌, ◌+◌, ◌^◌, IfOk};
ghost use Rattle.bg_cond.specs.Steps.{IsLegal, step_of};
ghost use Rattle.bg_incr.specs.Finders.{StandsFor};
ghost use Rattle.bg_journal.specs.Replays.{IsReplayOf};
ghost use Rattle.bg_journal.specs.Tried.{IsTried};

use crate::outcome::{Replay, Why};
use bg_base::{Entry, Journal, Step};
use bg_cond::Verdict;
use bg_incr::KeptFinder;
use bg_lists::{Duplicate, Mem, OutOfMemory};
use bg_rules::{ReactFault, System};
use std::alloc::Global;

/// Whether the journal is a run of the system from its first host: the host after it, or the first entry that is not taken,
/// with its reason. The host is indexed once and rewritten in place. Costs for each entry up to that one what
/// [`KeptFinder::judge`] and [`KeptFinder::take`] cost; holds one host, indexed.
pub fn replay(alloc: Global, system: &System, journal: &Journal) -> Mem<Replay>
    ensures { IfOk result (λ replay. IsReplayOf system.now journal.now replay) }
{
    let mut finder = KeptFinder::at(alloc, 0, system.init())?;
    for (number, entry) in journal.as_slice().iter().enumerate() {
        if let Some(why) = try_entry(alloc, &mut finder, system, entry)? {
            return Ok(Replay::Illegal {
                step: number as u32,
                why,
            });
        }
    }
    let host = finder.host().to_host(alloc)?;
    Ok(Replay::Legal { host })
}

/// The finder's host becomes that after the entry, or the reason is told why the entry is not taken.
fn try_entry(
    alloc: Global,
    finder: &mut KeptFinder,
    system: &System,
    entry: &Entry,
) -> Mem<Option<Why>>
    requires stands { StandsFor finder.old system.now }
    requires few { finder.old.version + 1 < 2 ^ 32 }
    ensures stands { StandsFor finder.new system.now }
    ensures version { IfOk result (λ why. finder.new.version ≤ finder.old.version + 1) }
    ensures tried { IfOk result (λ why. IsTried system.now.rules finder.old.host (step_of entry.now) why finder.new.host) }
{
    let step = Step {
        rule: entry.rule,
        map: entry.map.copy(alloc)?,
    };
    match finder.judge(alloc, system, &step)? {
        Verdict::Legal => take(alloc, finder, system, &step),
        verdict => Ok(Some(Why::Judged { verdict })),
    }
}

/// The finder's host becomes that after the legal step, but where that passes a limit.
fn take(alloc: Global, finder: &mut KeptFinder, system: &System, step: &Step) -> Mem<Option<Why>>
    requires stands { StandsFor finder.old system.now }
    requires few { finder.old.version + 1 < 2 ^ 32 }
    requires legal { IsLegal finder.old.host system.now.rules step.now }
    ensures stands { StandsFor finder.new system.now }
    ensures version { IfOk result (λ why. finder.new.version ≤ finder.old.version + 1) }
    ensures tried { IfOk result (λ why. IsTried system.now.rules finder.old.host step.now why finder.new.host) }
{
    match finder.take(alloc, system, step) {
        Ok(()) => Ok(None),
        Err(ReactFault::Full) => Ok(Some(Why::TooLarge)),
        Err(ReactFault::OutOfMemory) => Err(OutOfMemory),
    }
}
