//! Drawing a run on the calling thread.
ghost use Rattle.std.specs.Prelude.{◌≡◌, ◌≤◌, ◌<◌, ◌+◌, ◌^◌, ◌++◌, ◌∷◌, [], length, IfOk, OnOk};
ghost use Rattle.bg_base.specs.Limits.{most_steps};
ghost use Rattle.bg_cond.specs.Drawn.{Draws};
ghost use Rattle.bg_incr.specs.Finders.{StandsFor};
ghost use Rattle.bg_workers.specs.Turns.{IsLater, Turns, after_words, behind_end};

use bg_base::{Entry, Journal, Step};
use bg_cond::{End, Follower, Picker};
use bg_incr::KeptFinder;
use bg_lists::{Mem, OutOfMemory, Rows};
use bg_rules::{Host, ReactFault, System};
use std::alloc::Global;

/// A run that came to its end.
#[derive(Debug, Drop)]
pub struct DrawnRun {
    /// Each entry has the worker 0.
    pub journal: Journal,
    /// Why there are no more.
    pub end: End,
    /// The host after all entries.
    pub host: Host,
}

/// The run that the generator draws from the host on, of at most so many entries, all of worker 0: at each host the first
/// 4,096 legal steps are the candidates, and the next word of the generator, modulo their number, is the place of the one
/// that is taken. The generator is then a word further for each entry, and one more where the picked step passes a limit.
/// The host is indexed once, and taken from the index at the end; each turn costs what [`KeptFinder`] pays to pick and to take
/// a step. It refuses for want of memory alone; the generator is then some words further.
pub fn draw(
    alloc: Global,
    system: &System,
    host: Host,
    most: u32,
    picker: &mut Picker,
) -> Mem<DrawnRun>
    requires { most ≤ most_steps }
    ensures drawn { IfOk result (λ run. Draws system.now.rules 0 most host picker.old run.journal run.end run.host) }
    ensures words { IfOk result (λ run. picker.new ≡ behind_end run.end (after_words (length run.journal) picker.old)) }
    ensures later { IsLater picker.old picker.new }
{
    let mut finder = KeptFinder::at(alloc, 0, &host)?;
    drop(host);
    let (entries, end) = draw_in(alloc, system, &mut finder, most, picker)?;
    let last = finder.host().to_host(alloc)?;
    Ok(DrawnRun {
        journal: Rows::from_vec(entries),
        end,
        host: last,
    })
}

/// The entries that are drawn, and why no more are; the finder's host becomes that after all of them.
fn draw_in(
    alloc: Global,
    system: &System,
    finder: &mut KeptFinder,
    most: u32,
    picker: &mut Picker,
) -> Mem<(Vec<Entry>, End)>
    requires most { most ≤ most_steps }
    requires stands { StandsFor finder.old system.now }
    requires first { finder.old.version ≡ 0 }
    ensures drawn { IfOk result (λ drawn. Draws system.now.rules 0 most finder.old.host picker.old drawn.0.items drawn.1 finder.new.host) }
    ensures words { IfOk result (λ drawn. picker.new ≡ behind_end drawn.1 (after_words (length drawn.0.items) picker.old)) }
    ensures few { IfOk result (λ drawn. length drawn.0.items ≤ most_steps) }
    ensures later { IsLater picker.old picker.new }
{
    let mut entries = Vec::new(alloc);
    let mut room = most;
    while room > 0 {
        if let Some(end) = draw_one(alloc, system, 0, finder, picker, &mut entries)? {
            return Ok((entries, end));
        }
        room -= 1;
    }
    Ok((entries, End::Limit))
}

/// Draws one step more and takes it; or tells why none is taken.
fn draw_one(
    alloc: Global,
    system: &System,
    worker: u32,
    finder: &mut KeptFinder,
    picker: &mut Picker,
    entries: &mut Vec<Entry>,
) -> Mem<Option<End>>
    requires stands { StandsFor finder.old system.now }
    requires few { finder.old.version + 1 < 2 ^ 32 }
    ensures stands { StandsFor finder.new system.now }
    ensures version { IfOk result (λ end. finder.new.version ≤ finder.old.version + 1) }
    ensures turns { IfOk result (λ end. Turns system.now.rules worker finder.old.host picker.old entries.old.items finder.new.host picker.new entries.new.items end) }
    ensures later { IsLater picker.old picker.new }
{
    let Some(step) = finder.pick(alloc, system, picker)? else {
        return Ok(Some(End::Quiet));
    };
    match finder.take(alloc, system, &step) {
        Ok(()) => {
            push_entry(entries, worker, step)?;
            Ok(None)
        }
        Err(ReactFault::Full) => Ok(Some(End::Full { step })),
        Err(ReactFault::OutOfMemory) => Err(OutOfMemory),
    }
}

/// Appends the step as an entry of the worker.
fn push_entry(entries: &mut Vec<Entry>, worker: u32, step: Step) -> Mem<()>
    ensures { OnOk result (entries.new.items ≡ entries.old.items ++ record { worker = worker; rule = step.rule; map = step.map } ∷ []) }
{
    let Step { rule, map } = step;
    entries.push(Entry { worker, rule, map })?;
    Ok(())
}
