//! The edges that a reaction makes, with the points of the new rows on them.
ghost use Rattle.std.specs.Prelude.{◌≡◌, ◌+◌, ◌<◌, ◌≤◌, ◌^◌, ℕ, List, IfOk, filter, length, map};
ghost use Rattle.std.specs.List.Sorted.{IsNonDecreasingBy};
ghost use Rattle.bg_lists.specs.Lists.{Mem as Member};
ghost use Rattle.bg_base.specs.declared.big.NodeRow.{NodeRow as NodeRowValue};
ghost use Rattle.bg_base.specs.declared.names.Link.TheVariants.{Edge};
ghost use Rattle.bg_base.specs.Limits.{largest_counter};
ghost use Rattle.bg_base.specs.Products.{has_point};
ghost use Rattle.bg_index.specs.declared.entries.EdgeEntry.{EdgeEntry as EdgeValue};
ghost use Rattle.bg_index.specs.Arrivals.{arrival_rank, AreArrivals, IsArrivedAt};
ghost use Rattle.bg_index.specs.Indexed.{edges_of};
ghost use Rattle.bg_index.specs.Plans.{AreUsed};
ghost use Rattle.bg_index.specs.Tied as tied;
ghost use Rattle.bg_rules.specs.Hosts.{IsHost};
ghost use Rattle.bg_rules.specs.Rules.{IsRule};

use crate::IndexedHost;
use crate::edge_sets::push_edges;
use crate::entries::EdgeEntry;
use crate::plans::LinkKey;
use crate::point_arrivals::{Arrival, push_arriving};
use crate::sets::number_set;
use crate::tied_points::TiedPoints;
use bg_base::NodeRow;
use bg_lists::{Mem, OutOfMemory};
use bg_rules::Rule;
use std::alloc::Global;

/// The edges of the reactum that a port has, with their new numbers, ascending, and the points of the new rows on them.
/// Costs time n log n, and memory n, in the number of ports of the reactum and of these points.
pub fn used_of(
    alloc: Global,
    host: &IndexedHost,
    rule: &Rule,
    arrivals: &[Arrival],
) -> Mem<Vec<EdgeEntry>>
    requires host { IsHost host.now }
    requires rule { IsRule rule.now }
    requires rise { IsNonDecreasingBy arrival_rank arrivals.now }
    requires room { host.now.next_edge + length rule.now.reactum.edges ≤ largest_counter }
    ensures many { IfOk result (λ used. length used.items ≡ length (filter (λ own. has_point rule.now.reactum (Edge own)) rule.now.reactum.edges)) }
    ensures are { IfOk result (λ used. (new : List NodeRowValue) → AreArrivals host.now.big.outer new arrivals.now
        → AreUsed host.now rule.now new used.items) }
{
    let own = own_edges(alloc, rule)?;
    let used = entries_of(alloc, arrivals, host.next_edge(), &own)?;
    Ok(used)
}

/// The edges of the reactum that a port has, ascending. Costs time n log n in the number of ports.
fn own_edges(alloc: Global, rule: &Rule) -> Mem<Vec<u32>>
    ensures { IfOk result (λ own. own.items ≡ filter (λ own. has_point rule.now.reactum (Edge own)) rule.now.reactum.edges) }
{
    let edges = edges_tied(alloc, &rule.reactum().nodes)?;
    let own = number_set(edges);
    Ok(own)
}

/// The edges on ports of the rows.
fn edges_tied(alloc: Global, rows: &[NodeRow]) -> Mem<Vec<u32>>
    ensures { IfOk result (λ edges. edges.items ≡ tied.edges_tied rows.now) }
{
    let mut edges = Vec::new(alloc);
    for row in rows {
        push_edges(row.links.as_slice(), &mut edges)?;
    }
    Ok(edges)
}

/// The edges, numbered from that number on, with the points that arrive at them.
fn entries_of(alloc: Global, arrivals: &[Arrival], next: u32, own: &[u32]) -> Mem<Vec<EdgeEntry>>
    requires rise { IsNonDecreasingBy arrival_rank arrivals.now }
    requires room { (edge : ℕ) → Member edge own.now → next + edge < 2 ^ 32 }
    ensures edges { IfOk result (λ made. edges_of made.items ≡ map (λ edge. next + edge) own.now) }
    ensures arrived { IfOk result (λ made. (entry : EdgeValue) → Member entry made.items → IsArrivedAt arrivals.now entry.edge entry) }
{
    let mut made = Vec::new(alloc);
    for edge in own {
        let entry = entry_of(alloc, arrivals, next + *edge)?;
        made.push(entry)?;
    }
    Ok(made)
}

/// The edge with the points that arrive at it, where 32 bits can count them.
fn entry_of(alloc: Global, arrivals: &[Arrival], edge: u32) -> Mem<EdgeEntry>
    requires rise { IsNonDecreasingBy arrival_rank arrivals.now }
    ensures { IfOk result (λ entry. IsArrivedAt arrivals.now edge entry) }
{
    let mut points = Vec::new(alloc);
    push_arriving(alloc, arrivals, LinkKey::Edge(edge), &mut points)?;
    if points.len() > u32::MAX as usize {
        return Err(OutOfMemory);
    }
    let tied = TiedPoints::of(alloc, points)?;
    Ok(EdgeEntry { edge, points: tied })
}
