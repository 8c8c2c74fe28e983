//! Hosts that workers share.
ghost use Rattle.std.specs.Prelude.{◌≡◌, ◌≤◌, ℕ, List, length, IfOk, OnErr};
ghost use Rattle.bg_base.specs.declared.history.Entry.{Entry as EntryValue};
ghost use Rattle.bg_cond.specs.Boards.{IsViewOf, IsNews, IsFound, IsCommitted};
ghost use Rattle.bg_rules.specs.Systems.{SystemParts};
ghost use Rattle.bg_seats.specs.Histories.{GrowsByOthers};

use crate::commits::{Commit, Found, View};
use bg_base::Entry;
use bg_lists::Mem;
use std::alloc::Global;
use std::marker::Brand;
use std::sync::Wait;

/// A host that workers share: they look at it, and commit steps to it. Each has a pass, which tells how much of the
/// history it has seen.
pub trait Board {
    /// What a worker has seen.
    type Pass;

    // the system whose steps are committed
    ghost system: { Self → SystemParts };

    // so many entries there may be
    ghost limit: { Self → ℕ };

    // the pass is one of this board
    ghost is_of: { Self → Self.Pass → Type 0 };

    // the entries that the pass has seen
    ghost seen: { Self.Pass → List EntryValue };

    // the number of its worker
    ghost worker: { Self.Pass → ℕ };

    /// The host as it is. The pass has then seen all entries that lead to it; none behind those that it had seen is its
    /// worker's own. It refuses for want of memory alone, and the pass is then as it was.
    fn look<R: Wait>(&self, rt: &R, alloc: Global, pass: &mut Self::Pass) -> Mem<View>
        requires { is_of self.now pass.old }
        ensures of { is_of self.now pass.new }
        ensures worker { worker pass.new ≡ worker pass.old }
        ensures grows { GrowsByOthers (worker pass.old) (seen pass.old) (seen pass.new) }
        ensures shows { IfOk result (λ view. IsViewOf (system self.now) (limit self.now) (seen pass.new) view) }
        ensures no_memory { OnErr result (pass.new ≡ pass.old) };

    /// The entries from number `from` on, of which the pass has seen those before. The pass has then seen all entries; none
    /// behind those that it had seen is its worker's own. It refuses for want of memory alone, and the pass is then as it was.
    fn news<R: Wait>(
        &self,
        rt: &R,
        alloc: Global,
        pass: &mut Self::Pass,
        from: u32,
    ) -> Mem<Vec<Entry>>
        requires of { is_of self.now pass.old }
        requires seen { from ≤ length (seen pass.old) }
        ensures of { is_of self.now pass.new }
        ensures worker { worker pass.new ≡ worker pass.old }
        ensures grows { GrowsByOthers (worker pass.old) (seen pass.old) (seen pass.new) }
        ensures news { IfOk result (λ entries. IsNews (system self.now) (limit self.now) from (seen pass.new) entries.items) }
        ensures no_memory { OnErr result (pass.new ≡ pass.old) };

    /// Commits a step that was found at a version which the pass has seen; what became of it. The pass has then seen all
    /// entries. It refuses for want of memory alone: then nothing was committed, and the pass is as it was.
    fn commit<R: Wait>(
        &self,
        rt: &R,
        alloc: Global,
        pass: &mut Self::Pass,
        found: &Found,
    ) -> Mem<Commit>
        requires of { is_of self.now pass.old }
        requires found { IsFound (system self.now) (seen pass.old) found.now }
        ensures of { is_of self.now pass.new }
        ensures worker { worker pass.new ≡ worker pass.old }
        ensures committed { IfOk result (λ answer. IsCommitted (system self.now) (limit self.now) (worker pass.old) (seen pass.old) (seen pass.new) found.now answer) }
        ensures no_memory { OnErr result (pass.new ≡ pass.old) };
}

/// The name of a host that is shared, for contracts alone: its history table, its system, how many entries there may be,
/// and how many passes there are. A value behind a lock is known by its type, so the type has the name; a caller hands the
/// parts of the host to a function that is generic over the name, and the call picks it.
pub trait HostName {
    ghost use Rattle.std.specs.Prelude.{ℕ};
    ghost use Rattle.atomic_table.specs.Seated.{TableId};
    ghost use Rattle.bg_rules.specs.Systems.{SystemParts};

    ghost table: { TableId };

    ghost system: { SystemParts };

    ghost limit: { ℕ };

    ghost passes: { ℕ };
}

impl HostName for Brand {
    ghost use Rattle.std.specs.Prelude.{[]};

    ghost table = { record { words = 0; slots = 0; views_name = 0; atom = 0; block = 0; offset = 0; slot_names = [] } };

    ghost system = { record {
      signature = [];
      init = record { big = record { nodes = []; edges = []; sites = []; inner = []; regions = 0; outer = [] }; next_node = 0; next_edge = 0 };
      rules = [];
      classes = 0;
      preds = [];
    } };

    ghost limit = { 0 };

    ghost passes = { 0 };
}
