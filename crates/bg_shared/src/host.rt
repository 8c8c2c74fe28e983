//! A host that workers share.
ghost use Rattle.std.specs.Prelude.{◌≡◌, ◌≤◌, length, IfOk, OnOk, OnErr};
ghost use Rattle.bg_cond.specs.Boards.{IsViewOf, IsNews, IsFound, IsCommitted};
ghost use Rattle.bg_cond.specs.Steps.{IsRun};
ghost use Rattle.bg_seats.specs.Histories.{GrowsByOthers, new_passes};
ghost use Rattle.bg_shared.specs.Shared.{IsHistory, OfTable, BeginsWithEach};

use crate::locked::Core;
use crate::parts::HostParts;
use bg_base::Entry;
use bg_cond::{Board, Closed, Commit, Found, HostName, View};
use bg_lists::{Mem, Rows};
use bg_rules::System;
use bg_seats::{HistoryTable, Pass, Turn};
use std::alloc::Global;
use std::marker::PhantomData;
use std::sync::{Mutex, Wait};

/// A host that workers share, under the name of its history table, its system, its limit and its number of passes. A lock
/// guards the host and its journal; finding steps needs no lock. The promises of its calls hold where they return: how
/// long they wait for the lock is nowhere said.
#[derive(Drop)]
pub struct SharedHost<N: HostName> {
    table: HistoryTable,
    system: System,
    core: Mutex<Core<N>>,
    ghost table_is: { table ≡ N.table },
    ghost system_is: { system ≡ N.system },
}

impl<N: HostName> SharedHost<N> {
    /// The host of these parts under its name, and its passes: those of the workers from 0 on, which have seen nothing.
    /// The journal is empty. Takes no memory.
    pub fn start(parts: HostParts) -> (SharedHost<N>, Vec<Pass>)
        requires { (N.table ≡ parts.table) × (N.system ≡ parts.system) × (N.limit ≡ parts.limit) × (N.passes ≡ parts.passes) }
        ensures { result.1.items ≡ new_passes N.table N.passes }
    {
        let HostParts {
            table,
            members,
            turn,
            system,
            host,
            journal,
            limit,
            passes: _,
        } = parts;
        let core = Core {
            turn,
            host,
            journal,
            limit,
            of: PhantomData,
        };
        (
            SharedHost {
                table,
                system,
                core: Mutex::new(core),
            },
            members,
        )
    }

    /// The system whose steps are committed.
    pub fn system(&self) -> &System
        ensures { result.now ≡ N.system }
    {
        &self.system
    }

    /// The host as it is. The pass has then seen all entries that lead to it, the whole history at that moment; none behind
    /// those that it had seen is its worker's own. It refuses for want of memory alone, and the pass is then as it was. It
    /// waits for the lock, and copies the host under it.
    pub fn look<R: Wait>(&self, rt: &R, alloc: Global, pass: &mut Pass) -> Mem<View>
        requires { pass.old.table ≡ N.table }
        ensures pass { pass.new ≡ record pass.old { seen = pass.new.seen } }
        ensures grows { GrowsByOthers pass.old.worker pass.old.seen pass.new.seen }
        ensures shows { IfOk result (λ view. IsViewOf N.system N.limit pass.new.seen view) }
        ensures history { OnOk result (IsHistory N.system N.limit N.passes pass.new.seen) }
        ensures no_memory { OnErr result (pass.new ≡ pass.old) }
    {
        let mut core = self.core.lock(rt);
        core.look(alloc, &self.table, pass)
    }

    /// The entries from number `from` on, of which the pass has seen those before. The pass has then seen all entries, the
    /// whole history at that moment; none behind those that it had seen is its worker's own. It refuses for want of memory
    /// alone, and the pass is then as it was. It waits for the lock, and copies these entries under it.
    pub fn news<R: Wait>(
        &self,
        rt: &R,
        alloc: Global,
        pass: &mut Pass,
        from: u32,
    ) -> Mem<Vec<Entry>>
        requires table { pass.old.table ≡ N.table }
        requires seen { from ≤ length pass.old.seen }
        ensures pass { pass.new ≡ record pass.old { seen = pass.new.seen } }
        ensures grows { GrowsByOthers pass.old.worker pass.old.seen pass.new.seen }
        ensures news { IfOk result (λ entries. IsNews N.system N.limit from pass.new.seen entries.items) }
        ensures history { OnOk result (IsHistory N.system N.limit N.passes pass.new.seen) }
        ensures no_memory { OnErr result (pass.new ≡ pass.old) }
    {
        let mut core = self.core.lock(rt);
        core.news(alloc, &self.table, pass, from)
    }

    /// Commits a step that was found at a version which the pass has seen: `Again` where more entries are there; else
    /// `Spent` where there are as many as there may be; else `Full` where its result passes a limit; else `Done`, and the
    /// step is the last entry. In all four cases the pass has then seen the whole history. It refuses for want of memory
    /// alone: then history, host and pass are as they were. It waits for the lock; the reaction takes place under it.
    pub fn commit<R: Wait>(
        &self,
        rt: &R,
        alloc: Global,
        pass: &mut Pass,
        found: &Found,
    ) -> Mem<Commit>
        requires table { pass.old.table ≡ N.table }
        requires found { IsFound N.system pass.old.seen found.now }
        ensures pass { pass.new ≡ record pass.old { seen = pass.new.seen } }
        ensures committed { IfOk result (λ answer. IsCommitted N.system N.limit pass.old.worker pass.old.seen pass.new.seen found.now answer) }
        ensures history { OnOk result (IsHistory N.system N.limit N.passes pass.new.seen) }
        ensures no_memory { OnErr result (pass.new ≡ pass.old) }
    {
        let mut core = self.core.lock(rt);
        core.commit(alloc, &self.table, &self.system, pass, found)
    }

    /// What is left when no thread shares the host any more: its system, its host and its journal. The journal is a run
    /// from the system's first host to the last one, and begins with all that each of these passes had seen; no entry
    /// behind that is of the pass's worker, so it has each entry for which the pass was answered `Done` once. It refuses
    /// for want of memory alone.
    pub fn close(self, passes: Vec<Pass>) -> Mem<Closed>
        requires { OfTable N.table passes.items }
        ensures system { IfOk result (λ closed. closed.system ≡ N.system) }
        ensures run { IfOk result (λ closed. IsRun N.system.rules N.system.init closed.journal closed.host) }
        ensures history { IfOk result (λ closed. IsHistory N.system N.limit N.passes closed.journal) }
        ensures begins { IfOk result (λ closed. BeginsWithEach closed.journal passes.items) }
    {
        let SharedHost {
            table,
            system,
            core,
        } = self;
        let Core {
            mut turn,
            host,
            journal,
            limit: _,
            of: _,
        } = core.into_inner();
        end_all(&table, &mut turn, passes);
        let host = host.to_host(*journal.allocator())?;
        Ok(Closed {
            system,
            host,
            journal: Rows::from_vec(journal),
        })
    }
}

/// Ends all passes.
fn end_all(table: &HistoryTable, turn: &mut Turn, mut passes: Vec<Pass>)
    requires turn { turn.old.table ≡ table.now }
    requires passes { OfTable table.now passes.items }
    ensures same { turn.new ≡ turn.old }
    ensures begins { BeginsWithEach turn.old.list passes.items }
{
    while let Some(pass) = passes.pop() {
        table.end(pass, turn);
    }
}

impl<N: HostName> Board for SharedHost<N> {
    ghost use Rattle.std.specs.Prelude.{◌≡◌};

    type Pass = Pass;

    ghost system = { λ _. N.system };

    ghost limit = { λ _. N.limit };

    ghost is_of = { λ _ pass. pass.table ≡ N.table };

    ghost seen = { λ pass. pass.seen };

    ghost worker = { λ pass. pass.worker };

    fn look<R: Wait>(&self, rt: &R, alloc: Global, pass: &mut Pass) -> Mem<View> {
        self.look(rt, alloc, pass)
    }

    fn news<R: Wait>(&self, rt: &R, alloc: Global, pass: &mut Pass, from: u32) -> Mem<Vec<Entry>> {
        self.news(rt, alloc, pass, from)
    }

    fn commit<R: Wait>(
        &self,
        rt: &R,
        alloc: Global,
        pass: &mut Pass,
        found: &Found,
    ) -> Mem<Commit> {
        self.commit(rt, alloc, pass, found)
    }
}
