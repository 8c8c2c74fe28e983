//! Runs by workers that run at once.
ghost use Rattle.std.specs.Prelude.{◌≤◌};
ghost use Rattle.bg_base.specs.Limits.{most_steps};

use crate::models::{Model, system_of};
use bg_base::Entry;
use bg_cond::{End, Gate, Moment, OpenGate, steps};
use bg_io::{MemorySink, MemorySource};
use bg_journal::{Replay, replay};
use bg_lists::Mem;
use bg_runs::{FinishedRun, run};
use bg_top::engine;
use std::alloc::{AllocError, Global};
use std::process::Abort;
use std::sync::Wait;
use std::sync::atomic::{AtomicU64, Ordering};
use std::thread;
use std::thread::Threads;

/// A worker that waits does not wait longer than so many turns.
const MOST_TURNS: u64 = 10_000_000;

/// A gate that holds 0 and 1, workers or pieces, each at the first such moment, until the other has come to its own.
#[derive(Drop)]
pub(crate) struct Meeting {
    moment: Moment,
    here: [AtomicU64; 2],
    turns: [AtomicU64; 2],
}

impl Meeting {
    pub(crate) fn at(moment: Moment) -> Meeting {
        Meeting {
            moment,
            here: [AtomicU64::new(0), AtomicU64::new(0)],
            turns: [AtomicU64::new(0), AtomicU64::new(0)],
        }
    }

    /// Waits for the other, at the first call.
    fn wait(&self, own: &AtomicU64, other: &AtomicU64, turns: &AtomicU64) {
        if own.swap(1, Ordering::SeqCst) != 0 {
            return;
        }
        for _ in 0..MOST_TURNS {
            if other.load(Ordering::SeqCst) != 0 {
                return;
            }
            turns.fetch_add(1, Ordering::SeqCst);
            thread::yield_now();
        }
    }

    /// Both have come, and neither has waited too long.
    pub(crate) fn has_met(&self) -> bool {
        self.here[0].load(Ordering::SeqCst) == 1
            && self.here[1].load(Ordering::SeqCst) == 1
            && self.turns[0].load(Ordering::SeqCst) < MOST_TURNS
            && self.turns[1].load(Ordering::SeqCst) < MOST_TURNS
    }
}

impl Gate for Meeting {
    fn pass(&self, worker: u32, moment: Moment) {
        if moment != self.moment {
            return;
        }
        if worker == 0 {
            self.wait(&self.here[0], &self.here[1], &self.turns[0]);
        } else {
            self.wait(&self.here[1], &self.here[0], &self.turns[1]);
        }
    }
}

/// What stands in front of the rooms and the agents, and behind them.
const OFFICE: &str =
    "ctrl Building = 0; ctrl Closed = 0; ctrl Room = 0; atomic ctrl Agent = 1; atomic ctrl Computer = 1;
atomic ctrl Seat = 2; big room = Room.Computer{n}; big agent = /a Agent{a}; big s = /n Building.(";

const OFFICE_RULES: &str =
    "); react sit = Agent{x} | Room.Computer{n} --> Room.Seat{x,n}; react shut = Building.id --> Closed.id;
begin brs init s; rules = [ {sit}, {shut} ]; end";

/// An office of so many rooms and agents.
pub(crate) fn office(alloc: Global, size: u32) -> Mem<String> {
    let mut text = String::from_str(alloc, OFFICE)?;
    text.push_str("room")?;
    for _ in 1..size {
        text.push_str(" | room")?;
    }
    for _ in 0..size {
        text.push_str(" | agent")?;
    }
    text.push_str(OFFICE_RULES)?;
    Ok(text)
}

/// Each worker has a number below that.
fn are_below(entries: &[Entry], workers: u32) -> bool {
    entries.iter().all(|entry| entry.worker < workers)
}

/// The end is as it has to be after so many entries.
fn is_right_end(alloc: Global, run: &FinishedRun, limit: u32) -> Mem<bool> {
    let count = run.journal.len();
    let legal = steps(alloc, &run.host, &run.system, 1)?;
    Ok(match run.end {
        End::Limit => count == limit,
        End::Quiet => count < limit && legal.is_empty(),
        End::Full { .. } => count < limit && !legal.is_empty(),
    })
}

/// The run is legal, leads to its host, and has its end.
fn is_right(alloc: Global, run: &FinishedRun, limit: u32, workers: u32) -> Mem<bool> {
    let entries = run.journal.as_slice();
    if !are_below(entries, workers) || !is_right_end(alloc, run, limit)? {
        return Ok(false);
    }
    match replay(alloc, &run.system, &run.journal)? {
        Replay::Legal { host } => Ok(host.big() == run.host.big()),
        Replay::Illegal { .. } => Ok(false),
    }
}

/// A run of the model by so many workers is right; the number of its entries.
fn try_run<G: Gate + Sync, R: Abort + Threads + Wait + Sync>(
    rt: &R,
    alloc: Global,
    model: &str,
    limit: u32,
    workers: u32,
    gate: &G,
) -> Mem<u32>
    requires limit { limit ≤ most_steps }
    requires workers { (1 ≤ workers) × (workers ≤ 64) }
{
    let system = system_of(rt, alloc, model)?;
    let finished = run(rt, alloc, system, limit, workers, 7, gate)?;
    assert!(rt; is_right(alloc, &finished, limit, workers)?);
    Ok(finished.journal.len())
}

#[test]
fn two_workers_run_at_once(rt: HostRuntime) -> Mem<()> {
    let gate = Meeting::at(Moment::Found);
    let text = office(rt.alloc(), 20)?;
    let count = try_run(&rt, rt.alloc(), &text, 1000, 2, &gate)?;
    assert!(rt; count == 21);
    assert!(rt; gate.has_met());
    Ok(())
}

/// What `run` with two workers ends with, on this model.
fn status_of<G: Gate + Sync, R: Threads + Wait + Sync>(
    rt: &R,
    alloc: Global,
    model: &str,
    gate: &G,
) -> Result<u8, AllocError> {
    let mut words = Vec::new(alloc);
    for word in ["bigengine", "run", "--workers", "2"] {
        words.push(String::from_str(alloc, word)?)?;
    }
    let bytes = model.as_bytes().to_vec(alloc)?;
    let mut source = MemorySource::new(bytes, 4096, Vec::new(alloc));
    let mut sink = MemorySink::new(alloc, 4096, Vec::new(alloc));
    let mut watchers = Vec::new(alloc);
    Ok(engine(
        rt,
        alloc,
        words.as_slice(),
        &mut source,
        &mut sink,
        &mut watchers,
        gate,
    ))
}

#[test]
fn the_program_has_its_workers_run_at_once(rt: HostRuntime) -> Mem<()> {
    let gate = Meeting::at(Moment::Found);
    let text = office(rt.alloc(), 20)?;
    assert!(rt; status_of(&rt, rt.alloc(), &text, &gate)? == 0);
    assert!(rt; gate.has_met());
    Ok(())
}

/// Runs of the model by 2, 4, 8 and 64 workers, of at most 0, 1 and 50 steps, are right.
fn try_model<R: Abort + Threads + Wait + Sync>(rt: &R, alloc: Global, model: &str) -> Mem<()> {
    for workers in [2, 4, 8, 64] {
        for limit in [0, 1, 50] {
            let _ = try_run(rt, alloc, model, limit, workers, &OpenGate)?;
        }
    }
    Ok(())
}

#[test]
fn runs_by_many_workers_are_legal(rt: HostRuntime) -> Mem<()> {
    let text = office(rt.alloc(), 6)?;
    try_model(&rt, rt.alloc(), &text)?;
    try_model(&rt, rt.alloc(), Model::Bells.text())
}

#[test]
fn a_run_by_two_workers_ends_full(rt: HostRuntime) -> Mem<()> {
    let count = try_run(&rt, rt.alloc(), Model::Copies.text(), 100, 2, &OpenGate)?;
    assert!(rt; count == 15);
    Ok(())
}

#[test]
fn workers_that_meet_all_the_time_make_legal_runs(rt: HostRuntime) -> Mem<()> {
    for _ in 0..200 {
        let count = try_run(&rt, rt.alloc(), Model::Wanderer.text(), 10, 8, &OpenGate)?;
        assert!(rt; count == 10);
    }
    Ok(())
}
