//! What a shared host is made of.
ghost use Rattle.std.specs.Prelude.{◌≡◌, ◌≤◌, IfOk};
ghost use Rattle.bg_base.specs.Limits.{most_steps};

use bg_base::Entry;
use bg_index::IndexedHost;
use bg_lists::Mem;
use bg_rules::System;
use bg_seats::{HistoryTable, Pass, Turn};
use std::alloc::Global;
use std::marker::Model;

/// The parts of a shared host that has no name yet: its history table, its passes and its turn, its system, the host that
/// a run begins with, and its empty journal. A contract sees the table, the system, how many entries there may be, and how
/// many passes there are.
#[derive(Drop)]
pub struct HostParts {
    pub(crate) table: HistoryTable,
    pub(crate) members: Vec<Pass>,
    pub(crate) turn: Turn,
    pub(crate) system: System,
    pub(crate) host: IndexedHost,
    pub(crate) journal: Vec<Entry>,
    pub(crate) limit: u32,
    pub(crate) passes: u32,
}

impl Model for HostParts {
    ghost use Rattle.bg_shared.specs.Shared.{PartsView, AreHostParts};

    ghost Value = { PartsView };

    ghost view = { λ parts. record { table = parts.table; system = parts.system; limit = parts.limit; passes = parts.passes } };

    ghost invariant = { λ parts. AreHostParts parts.table parts.members.items parts.turn parts.system parts.host parts.journal.items parts.limit parts.passes };
}

impl HostParts {
    /// The parts of a host of that system, with 1 to 64 passes, on which at most `limit` entries, and at most 100,000, may
    /// be. It refuses for want of memory alone; what is made of the parts takes none. The system's host is indexed for it.
    pub fn new(alloc: Global, system: System, limit: u32, passes: u32) -> Mem<HostParts>
        requires passes { (1 ≤ passes) × (passes ≤ 64) }
        requires limit { limit ≤ most_steps }
        ensures system { IfOk result (λ parts. parts.system ≡ system) }
        ensures limit { IfOk result (λ parts. parts.limit ≡ limit) }
        ensures passes { IfOk result (λ parts. parts.passes ≡ passes) }
    {
        let host = IndexedHost::of(alloc, system.init())?;
        let (table, members, turn) = HistoryTable::new(alloc, passes)?;
        Ok(HostParts {
            table,
            members,
            turn,
            system,
            host,
            journal: Vec::new(alloc),
            limit,
            passes,
        })
    }
}
