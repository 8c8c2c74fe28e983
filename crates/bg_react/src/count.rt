//! How many nodes an instance will have, counted before it is made.
ghost use Rattle.std.specs.Prelude.{◌≡◌, ◌<◌, ◌≤◌, ◌+◌, ◌^◌, [], if◌then◌else◌, IfOk, MatchOption};
ghost use Rattle.bg_rules.specs.Instantiation.{late_nodes};
ghost use Rattle.bg_react.specs.Counting.{copied_nodes};

use crate::parts::Parts;
use bg_lists::Mem;
use std::alloc::Global;
use std::collections::BTreeSet;

/// The nodes of the copies that a map asks for.
#[derive(Clone, Copy, Drop)]
pub(crate) struct Count {
    /// Of all copies.
    pub(crate) nodes: u32,
    /// Of the late ones, whose part an earlier entry asks for too.
    pub(crate) late: u32,
}

/// The count for these entries, `None` where it passes `most`: then no entry after that is looked at. Costs for each
/// entry a logarithm of the number of nodes and of the entries; memory in proportion to the entries.
pub(crate) fn count_copies(
    alloc: Global,
    parts: &Parts<'_>,
    entries: &[u32],
    most: u32,
) -> Mem<Option<Count>>
    ensures { IfOk result (λ found. MatchOption found
        (most < copied_nodes parts.now entries.now)
        (λ count. (count.nodes ≡ copied_nodes parts.now entries.now) × (count.nodes ≤ most)
        × (count.late ≡ late_nodes parts.now [] entries.now))) }
{
    let mut count = Count { nodes: 0, late: 0 };
    let mut seen = BTreeSet::new(alloc);
    for region in entries {
        let nodes = parts.part(*region).len();
        if nodes > (most - count.nodes) as usize {
            return Ok(None);
        }
        let is_new = seen.insert(*region)?;
        count = count_with(count, nodes as u32, is_new);
    }
    Ok(Some(count))
}

/// The count with one more copy, of so many nodes.
fn count_with(count: Count, nodes: u32, is_new: bool) -> Count
    requires few { count.late ≤ count.nodes }
    requires room { count.nodes + nodes < 2 ^ 32 }
    ensures nodes { result.nodes ≡ count.nodes + nodes }
    ensures late { result.late ≡ count.late + (if is_new then 0 else nodes) }
{
    let late = if is_new { 0 } else { nodes };
    Count {
        nodes: count.nodes + nodes,
        late: count.late + late,
    }
}
