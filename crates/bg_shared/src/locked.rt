//! What the lock of a shared host keeps.
ghost use Rattle.std.specs.Prelude.{◌≡◌, ◌≤◌, length, drop, IfOk, OnOk, OnErr};
ghost use Rattle.bg_cond.specs.Boards.{IsViewOf, IsNews, IsFound, IsCommitted};
ghost use Rattle.bg_cond.specs.Drawn.{entry_of};
ghost use Rattle.bg_cond.specs.Steps.{IsRun};
ghost use Rattle.bg_seats.specs.Histories.{GrowsByOthers};
ghost use Rattle.bg_shared.specs.Shared.{IsHistory, StaysUnlessDone};

use bg_base::{Entry, Step};
use bg_cond::{Commit, Found, HostName, View, take_step_in_place};
use bg_index::IndexedHost;
use bg_lists::{Duplicate, Mem, OutOfMemory, copies};
use bg_rules::{ReactFault, System};
use bg_seats::{HistoryTable, Pass, Turn, worker};
use std::alloc::Global;
use std::marker::{Model, PhantomData};

/// The value behind the lock of a shared host: the turn of its history, its journal and its host. A contract sees the
/// journal and the host; its system, its limit and its number of passes are those that `N` names.
#[derive(Drop)]
pub struct Core<N: HostName> {
    pub(crate) turn: Turn,
    pub(crate) host: IndexedHost,
    pub(crate) journal: Vec<Entry>,
    pub(crate) limit: u32,
    pub(crate) of: PhantomData<N>,
}

impl<N: HostName> Model for Core<N> {
    ghost use Rattle.bg_shared.specs.Shared.{CoreView, IsLocked};

    ghost Value = { CoreView };

    ghost view = { λ core. record { journal = core.journal.items; host = core.host } };

    ghost invariant = { λ core. IsLocked N.table N.system N.limit N.passes core.turn core.host core.journal.items core.limit };
}

impl<N: HostName> Core<N> {
    /// The host as it is. The pass has then seen the whole journal, which is a run of the system. It refuses for want of
    /// memory alone, and the pass is then as it was. Costs a copy of the host.
    pub fn look(&mut self, alloc: Global, table: &HistoryTable, pass: &mut Pass) -> Mem<View>
        requires tables { (table.now ≡ N.table) × (pass.old.table ≡ N.table) }
        ensures same { self.new ≡ self.old }
        ensures pass { OnOk result (pass.new ≡ record pass.old { seen = self.old.journal }) }
        ensures grows { OnOk result (GrowsByOthers pass.old.worker pass.old.seen self.old.journal) }
        ensures shows { IfOk result (λ view. IsViewOf N.system N.limit self.old.journal view) }
        ensures history { IsHistory N.system N.limit N.passes self.old.journal }
        ensures no_memory { OnErr result (pass.new ≡ pass.old) }
    {
        let host = self.host.to_host(alloc)?;
        let version = table.see(pass, &mut self.turn);
        Ok(View { version, host })
    }

    /// The entries from number `from` on, of which the pass has seen those before. The pass has then seen the whole journal.
    /// It refuses for want of memory alone, and the pass is then as it was. Costs a copy of these entries.
    pub fn news(
        &mut self,
        alloc: Global,
        table: &HistoryTable,
        pass: &mut Pass,
        from: u32,
    ) -> Mem<Vec<Entry>>
        requires tables { (table.now ≡ N.table) × (pass.old.table ≡ N.table) }
        requires seen { from ≤ length pass.old.seen }
        ensures same { self.new ≡ self.old }
        ensures pass { OnOk result (pass.new ≡ record pass.old { seen = self.old.journal }) }
        ensures grows { OnOk result (GrowsByOthers pass.old.worker pass.old.seen self.old.journal) }
        ensures news { IfOk result (λ entries. IsNews N.system N.limit from self.old.journal entries.items) }
        ensures history { IsHistory N.system N.limit N.passes self.old.journal }
        ensures no_memory { OnErr result (pass.new ≡ pass.old) }
    {
        let entries = copies(alloc, behind(&self.journal, from))?;
        table.see(pass, &mut self.turn);
        Ok(entries)
    }

    /// Commits a step that was found at a version which the pass has seen. The pass has then seen the whole journal; journal
    /// and host stay, unless the step is done. It refuses for want of memory alone: all of it is taken before the first
    /// change, so that then journal, host and pass are as they were. Costs a reaction in place, where it comes to that.
    pub fn commit(
        &mut self,
        alloc: Global,
        table: &HistoryTable,
        system: &System,
        pass: &mut Pass,
        found: &Found,
    ) -> Mem<Commit>
        requires tables { (table.now ≡ N.table) × (pass.old.table ≡ N.table) }
        requires system { system.now ≡ N.system }
        requires found { IsFound N.system pass.old.seen found.now }
        ensures committed { IfOk result (λ answer. IsCommitted N.system N.limit pass.old.worker self.old.journal self.new.journal found.now answer) }
        ensures pass { OnOk result (pass.new ≡ record pass.old { seen = self.new.journal }) }
        ensures grows { OnOk result (GrowsByOthers pass.old.worker pass.old.seen self.old.journal) }
        ensures run { IsRun N.system.rules N.system.init self.new.journal self.new.host }
        ensures history { IsHistory N.system N.limit N.passes self.new.journal }
        ensures still { IfOk result (λ answer. StaysUnlessDone answer self.old self.new) }
        ensures no_memory { OnErr result ((pass.new ≡ pass.old) × (self.new ≡ self.old)) }
    {
        table.compare(pass, &mut self.turn);
        let count = self.journal.len() as u32;
        if count > found.version {
            let version = table.see(pass, &mut self.turn);
            return Ok(Commit::Again { version });
        }
        if count == self.limit {
            table.see(pass, &mut self.turn);
            return Ok(Commit::Spent { limit: self.limit });
        }
        let entry = entry_by(alloc, worker(pass), &found.step)?;
        self.journal.reserve(1)?;
        match take_step_in_place(alloc, &mut self.host, system, &found.step) {
            Ok(_causes) => {
                let version = table.append(pass, &mut self.turn, &entry);
                self.journal.push_reserved(entry);
                Ok(Commit::Done { version })
            }
            Err(ReactFault::Full) => {
                table.see(pass, &mut self.turn);
                Ok(Commit::Full)
            }
            Err(ReactFault::OutOfMemory) => Err(OutOfMemory),
        }
    }
}

/// The step as an entry of the worker.
fn entry_by(alloc: Global, worker: u32, step: &Step) -> Mem<Entry>
    ensures { IfOk result (λ made. made ≡ entry_of worker step.now) }
{
    Ok(Entry {
        worker,
        rule: step.rule,
        map: step.map.copy(alloc)?,
    })
}

/// The entries from that number on; none where there are fewer.
fn behind(entries: &[Entry], from: u32) -> &[Entry]
    ensures { result.now ≡ drop from entries.now }
{
    let start = entries.len().min(from as usize);
    &entries[start..]
}
