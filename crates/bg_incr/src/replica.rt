//! A host of its own, at a version.
ghost use Rattle.std.specs.Prelude.{◌≡◌, ◌+◌, ◌<◌, ◌^◌, [], ◌∷◌, length, IfOk, OnOk, OnErr, IsErrOf};
ghost use Rattle.bg_cond.specs.Followers.{GoOn, HasFollowed, HasFollowedSome};
ghost use Rattle.bg_cond.specs.Steps as run;
ghost use Rattle.bg_cond.specs.Steps.{IsLegal, IsTooLarge, LeadsTo};
ghost use Rattle.bg_index.specs.Causes.{AreCauses};

use bg_base::{Entry, Step};
use bg_cond::{View, take_step_in_place};
use bg_index::{Causes, IndexedHost};
use bg_lists::{Duplicate, Mem, OutOfMemory};
use bg_match::NumberedHost;
use bg_rules::{Host, ReactFault, System};
use std::alloc::Global;
use std::marker::Model;

/// A host of its own, with an index of it that is kept from one reaction to the next, and the number of entries that lead to
/// it, its version. A contract sees both.
#[derive(Drop)]
pub struct Replica {
    version: u32,
    host: IndexedHost,
}

impl Model for Replica {
    ghost use Rattle.bg_incr.specs.Replicas.{ReplicaState};

    ghost Value = { ReplicaState };

    ghost view = { λ replica. record { version = replica.version; host = replica.host } };
}

impl Replica {
    /// The view's host, indexed, at the view's version. Costs time n log n, and memory n, in the size of the host.
    pub fn start(alloc: Global, view: View) -> Mem<Replica>
        ensures { IfOk result (λ replica. replica ≡ record { version = view.version; host = view.host }) }
    {
        Replica::at(alloc, view.version, &view.host)
    }

    /// The host, indexed, at that version.
    pub(crate) fn at(alloc: Global, version: u32, host: &Host) -> Mem<Replica>
        ensures { IfOk result (λ replica. replica ≡ record { version = version; host = host.now }) }
    {
        let host = IndexedHost::of(alloc, host)?;
        Ok(Replica { version, host })
    }

    /// How many entries lead to its host.
    pub fn version(&self) -> u32
        ensures { result ≡ self.now.version }
    {
        self.version
    }

    /// Its host.
    pub fn host(&self) -> &IndexedHost
        ensures { result.now ≡ self.now.host }
    {
        &self.host
    }

    /// Brings the host to what the entries lead to, which go on from it. It refuses for want of memory alone, and then stands
    /// behind the first of them, some, all or none, as its version tells. Costs for each entry what its reaction touches
    /// ([`take_step_in_place`]).
    pub fn catch_up(&mut self, alloc: Global, system: &System, entries: &[Entry]) -> Mem<()>
        requires entries { GoOn system.now.rules self.old.host entries.now }
        requires few { self.old.version + length entries.now < 2 ^ 32 }
        ensures followed { OnOk result (HasFollowed system.now.rules self.old.version self.old.host entries.now self.new.version self.new.host) }
        ensures no_memory { OnErr result (HasFollowedSome system.now.rules self.old.version self.old.host entries.now self.new.version self.new.host) }
    {
        let _system = system.signature();
        self.host.keeps();
        for entry in entries {
            self.take(alloc, system, entry)?;
        }
        Ok(())
    }

    /// Takes a legal step, and tells why nodes are touched. It refuses with `Full` where the result passes a limit, and is then, as
    /// for want of memory, as it was.
    pub(crate) fn take_step(
        &mut self,
        alloc: Global,
        system: &System,
        step: &Step,
    ) -> Result<Causes, ReactFault>
        requires legal { IsLegal self.old.host system.now.rules step.now }
        requires few { self.old.version + 1 < 2 ^ 32 }
        ensures version { OnOk result (self.new.version ≡ self.old.version + 1) }
        ensures leads { OnOk result (LeadsTo self.old.host system.now.rules step.now self.new.host) }
        ensures causes { IfOk result (AreCauses self.old.host.big self.new.host.big) }
        ensures full { IsErrOf result ReactFault.Full → IsTooLarge self.old.host system.now.rules step.now }
        ensures kept { OnErr result (self.new ≡ self.old) }
    {
        let causes = take_step_in_place(alloc, &mut self.host, system, step)?;
        self.version += 1;
        Ok(causes)
    }

    /// Brings the host to what the entry leads to, and tells why nodes are touched. It refuses for want of memory alone, and is
    /// then as it was.
    pub(crate) fn take(&mut self, alloc: Global, system: &System, entry: &Entry) -> Mem<Causes>
        requires entry { GoOn system.now.rules self.old.host (entry.now ∷ []) }
        requires few { self.old.version + 1 < 2 ^ 32 }
        ensures followed { OnOk result (HasFollowed system.now.rules self.old.version self.old.host (entry.now ∷ []) self.new.version self.new.host) }
        ensures causes { IfOk result (AreCauses self.old.host.big self.new.host.big) }
        ensures no_memory { OnErr result (self.new ≡ self.old) }
    {
        let _system = system.signature();
        self.host.keeps();
        let step = step_of(alloc, entry)?;
        match self.take_step(alloc, system, &step) {
            Ok(causes) => Ok(causes),
            Err(ReactFault::OutOfMemory) => Err(OutOfMemory),
            Err(ReactFault::Full) => unreachable!(),
        }
    }
}

/// The step of the entry.
fn step_of(alloc: Global, entry: &Entry) -> Mem<Step>
    ensures { IfOk result (λ step. step ≡ run.step_of entry.now) }
{
    Ok(Step {
        rule: entry.rule,
        map: entry.map.copy(alloc)?,
    })
}
