//! A board in memory for one worker, which counts the looks.
ghost use Rattle.std.specs.Prelude.{◌≡◌, ◌≤◌, [], length, drop, IfOk};
ghost use Rattle.bg_base.specs.Limits.{most_steps};
ghost use Rattle.bg_cond.specs.Steps.{IsRun};

use crate::models::{Model, system_of};
use bg_base::{Entry, Journal};
use bg_cond::{Board, Commit, Found, OpenGate, PlainFinder, View, take_step};
use bg_lists::{Duplicate, Mem, OutOfMemory, Rows, copies};
use bg_rules::{Host, ReactFault, System};
use bg_workers::{Picker, work};
use std::alloc::Global;
use std::sync::Wait;
use std::sync::atomic::{AtomicU64, Ordering};

/// A board for one pass.
#[derive(Drop)]
struct Alone {
    system: System,
    limit: u32,
    looks: AtomicU64,
}

/// The pass: the entries, and the host after them.
#[derive(Drop)]
struct AlonePass {
    journal: Journal,
    host: Host,
    worker: u32,
}

impl Board for Alone {
    ghost use Rattle.std.specs.Prelude.{◌≡◌, ◌≤◌, length};
    ghost use Rattle.bg_base.specs.Limits.{most_steps};
    ghost use Rattle.bg_cond.specs.Steps.{IsRun};
    ghost use Rattle.bg_rules.specs.Systems.{IsSystem};

    type Pass = AlonePass;

    ghost system = { λ board. board.system };

    ghost limit = { λ board. board.limit };

    ghost is_of = { λ board pass. IsRun board.system.rules board.system.init pass.journal pass.host × (length pass.journal ≤ board.limit) × (board.limit ≤ most_steps) × IsSystem board.system };

    ghost seen = { λ pass. pass.journal };

    ghost worker = { λ pass. pass.worker };

    fn look<R: Wait>(&self, _rt: &R, alloc: Global, pass: &mut AlonePass) -> Mem<View> {
        self.looks.fetch_add(1, Ordering::SeqCst);
        let host = pass.host.copy(alloc)?;
        Ok(View {
            version: pass.journal.len(),
            host,
        })
    }

    fn news<R: Wait>(
        &self,
        _rt: &R,
        alloc: Global,
        pass: &mut AlonePass,
        from: u32,
    ) -> Mem<Vec<Entry>> {
        self.looks.fetch_add(1, Ordering::SeqCst);
        copies(alloc, behind(pass.journal.as_slice(), from))
    }

    fn commit<R: Wait>(
        &self,
        _rt: &R,
        alloc: Global,
        pass: &mut AlonePass,
        found: &Found,
    ) -> Mem<Commit> {
        let count = pass.journal.len();
        if count > found.version {
            return Ok(Commit::Again { version: count });
        }
        if count == self.limit {
            return Ok(Commit::Spent { limit: self.limit });
        }
        let mut next = pass.host.copy(alloc)?;
        match take_step(alloc, &mut next, &self.system, &found.step) {
            Ok(()) => {}
            Err(ReactFault::Full) => return Ok(Commit::Full),
            Err(ReactFault::OutOfMemory) => return Err(OutOfMemory),
        }
        let entry = Entry {
            worker: pass.worker,
            rule: found.step.rule,
            map: found.step.map.copy(alloc)?,
        };
        let mut entries = copies(alloc, pass.journal.as_slice())?;
        entries.push(entry)?;
        pass.journal = Rows::try_from_vec(entries)?;
        pass.host = next;
        Ok(Commit::Done { version: count + 1 })
    }
}

/// The entries from that number on; none where there are fewer.
fn behind(entries: &[Entry], from: u32) -> &[Entry]
    ensures { result.now ≡ drop from entries.now }
{
    let start = entries.len().min(from as usize);
    &entries[start..]
}

/// A pass that has seen nothing.
fn begun(alloc: Global, board: &Alone) -> Mem<AlonePass>
    ensures run { IfOk result (λ pass. IsRun board.now.system.rules board.now.system.init pass.journal pass.host) }
    ensures none_yet { IfOk result (λ pass. pass.journal ≡ []) }
    ensures worker { IfOk result (λ pass. pass.worker ≡ 0) }
{
    Ok(AlonePass {
        journal: Rows::try_from_vec(Vec::new(alloc))?,
        host: board.system.init().copy(alloc)?,
        worker: 0,
    })
}

/// How often worker 0 looks at the board before it ends, and how many entries there are then.
fn looks_at<R: Wait>(rt: &R, alloc: Global, board: &Alone) -> Mem<(u64, u32)>
    requires { board.now.limit ≤ most_steps }
{
    let _signature = board.system.signature();
    let mut pass = begun(alloc, board)?;
    let mut picker = Picker::new(7, 0);
    let _ended = work(
        rt,
        alloc,
        board,
        &mut pass,
        &board.system,
        board.limit,
        &mut PlainFinder,
        &mut picker,
        0,
        &OpenGate,
    )?;
    Ok((board.looks.load(Ordering::SeqCst), pass.journal.len()))
}

#[test]
fn a_worker_looks_once_more_than_it_commits(rt: HostRuntime) -> Mem<()> {
    let alloc = rt.alloc();
    let board = Alone {
        system: system_of(&rt, alloc, Model::Wanderer.text())?,
        limit: 10,
        looks: AtomicU64::new(0),
    };
    let (looks, entries) = looks_at(&rt, alloc, &board)?;
    assert!(rt; entries == 10);
    assert!(rt; looks == 11);
    Ok(())
}
