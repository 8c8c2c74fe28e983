//! The plan of a reaction: all of it that may fail, made before anything is changed.
ghost use Rattle.std.specs.Prelude.{◌≡◌, ◌≤◌, ◌<◌, ◌+◌, [], List, filter, length, IfOk, OnOk, IsErrOf};
ghost use Rattle.std.specs.List.Sorted.{IsNonDecreasingBy, IsStrictlySortedBy};
ghost use Rattle.std.specs.Ordering.{nat_cmp};
ghost use Rattle.bg_base.specs.Limits.{largest_counter, most_host_edges};
ghost use Rattle.bg_base.specs.declared.big.NodeRow.{NodeRow as NodeRowValue};
ghost use Rattle.bg_base.specs.declared.names.Link.TheVariants.{Edge};
ghost use Rattle.bg_base.specs.Products.{has_point};
ghost use Rattle.bg_rewriting.specs.Making.{AreDropped, AreIdle};
ghost use Rattle.bg_rewriting.specs.Rewriting.{late_count};
ghost use Rattle.bg_rules.specs.Decomposition.{Occurs};
ghost use Rattle.bg_rules.specs.Hosts.{IsHost};
ghost use Rattle.bg_rules.specs.Limits.{PassesALimit};
ghost use Rattle.bg_rules.specs.Rules.{IsRule};
ghost use Rattle.bg_index.specs.Arrivals.{arrival_rank, AreArrivals};
ghost use Rattle.bg_index.specs.Growth.{HasNumbers};
ghost use Rattle.bg_index.specs.Plans.{IsRead, IsReactionPlan, AreNodeChanges, AreLinkChanges, AreUsed};
ghost use Rattle.bg_index.specs.Readings.{boundary_of};

use crate::IndexedHost;
use crate::bundles::bundles_of;
use crate::children::filling_of;
use crate::entries::EdgeEntry;
use crate::going::gone_of;
use crate::growth::{Counters, counters_after, is_room};
use crate::idle::idle_of;
use crate::moves::moves_of;
use crate::new_rows::new_rows_of;
use crate::plans::{EdgeChanges, LinkChanges, NodeChanges, Plan};
use crate::point_arrivals::{Arrival, arrivals_of};
use crate::reading::{Reading, read};
use crate::used::used_of;
use bg_base::limits::MOST_HOST_EDGES;
use bg_lists::Mem;
use bg_rules::{ReactFault, Rule};
use std::alloc::Global;

/// What the rule is to leave of the host, at the nodes of the map. It refuses with `Full` where that passes a limit: nodes
/// and counters are counted before anything is made, edges before the lists of children and points. Costs what
/// `react_telling_causes` costs, but for what carrying it out moves.
pub fn plan_of(
    alloc: Global,
    host: &IndexedHost,
    rule: &Rule,
    map: &[u32],
) -> Result<Plan, ReactFault>
    requires is_host { IsHost host.now }
    requires is_rule { IsRule rule.now }
    requires occurs { Occurs host.now.big rule.now.redex map.now }
    ensures plan { IfOk result (IsReactionPlan host.now rule.now map.now) }
    ensures full { IsErrOf result ReactFault.Full → PassesALimit host.now rule.now map.now }
{
    let reading = read(alloc, host, rule, map)?;
    let plan = plan_at(alloc, host, rule, map, &reading)?;
    Ok(plan)
}

/// What the rule is to leave of the host, at the nodes of the map, by what was read there.
fn plan_at(
    alloc: Global,
    host: &IndexedHost,
    rule: &Rule,
    map: &[u32],
    reading: &Reading,
) -> Result<Plan, ReactFault>
    requires read { IsRead host.now rule.now map.now reading.now }
    ensures plan { IfOk result (IsReactionPlan host.now rule.now map.now) }
    ensures full { IsErrOf result ReactFault.Full → PassesALimit host.now rule.now map.now }
{
    let gone = dropped(alloc, host, rule, map, reading)?;
    let counters = room_for_nodes(host, rule, map, reading, &gone)?;
    let nodes = node_changes(alloc, host, rule, map, reading, gone)?;
    let links = link_changes(alloc, host, rule, map, reading, &nodes)?;
    let plan = put_together(alloc, host, rule, map, reading, nodes, links, counters)?;
    Ok(plan)
}

/// The nodes that are dropped, ascending.
fn dropped(
    alloc: Global,
    host: &IndexedHost,
    rule: &Rule,
    map: &[u32],
    reading: &Reading,
) -> Mem<Vec<u32>>
    requires read { IsRead host.now rule.now map.now reading.now }
    ensures ascending { IfOk result (λ gone. IsStrictlySortedBy nat_cmp gone.items) }
    ensures dropped { IfOk result (λ gone. AreDropped host.now.big rule.now map.now gone.items) }
{
    let gone = gone_of(alloc, map, reading, rule)?;
    Ok(gone)
}

/// The counters after the reaction, or `Full` where its nodes or a counter pass their limit.
fn room_for_nodes(
    host: &IndexedHost,
    rule: &Rule,
    map: &[u32],
    reading: &Reading,
    gone: &[u32],
) -> Result<Counters, ReactFault>
    requires read { IsRead host.now rule.now map.now reading.now }
    requires gone_ascends { IsStrictlySortedBy nat_cmp gone.now }
    requires gone_are { AreDropped host.now.big rule.now map.now gone.now }
    ensures fits { IfOk result (λ counters. HasNumbers host.now rule.now (late_count (boundary_of reading.now).parts [] rule.now.map) gone.now) }
    ensures next_node { IfOk result (λ counters. counters.next_node
        ≡ host.now.next_node + length rule.now.reactum.nodes + late_count (boundary_of reading.now).parts [] rule.now.map) }
    ensures next_edge { IfOk result (λ counters. counters.next_edge ≡ host.now.next_edge + length rule.now.reactum.edges) }
    ensures full { IsErrOf result ReactFault.Full → PassesALimit host.now rule.now map.now }
{
    match counters_after(host, rule, reading, gone) {
        Some(counters) => Ok(counters),
        None => Err(ReactFault::Full),
    }
}

/// What goes, moves and comes of the nodes, where there is room for it.
fn node_changes(
    alloc: Global,
    host: &IndexedHost,
    rule: &Rule,
    map: &[u32],
    reading: &Reading,
    gone: Vec<u32>,
) -> Mem<NodeChanges>
    requires read { IsRead host.now rule.now map.now reading.now }
    requires fits { HasNumbers host.now rule.now (late_count (boundary_of reading.now).parts [] rule.now.map) gone.items }
    requires gone_ascends { IsStrictlySortedBy nat_cmp gone.items }
    requires gone_are { AreDropped host.now.big rule.now map.now gone.items }
    ensures are { IfOk result (AreNodeChanges host.now rule.now map.now (boundary_of reading.now)) }
    ensures gone { IfOk result (λ changes. changes.gone ≡ gone) }
{
    let moves = moves_of(alloc, host, rule, map, reading)?;
    let new = new_rows_of(alloc, host, rule, map, reading)?;
    Ok(NodeChanges { gone, moves, new })
}

/// What goes, comes and changes of the links, or `Full` where the edges pass their limit.
fn link_changes(
    alloc: Global,
    host: &IndexedHost,
    rule: &Rule,
    map: &[u32],
    reading: &Reading,
    nodes: &NodeChanges,
) -> Result<LinkChanges, ReactFault>
    requires read { IsRead host.now rule.now map.now reading.now }
    requires nodes_are { AreNodeChanges host.now rule.now map.now (boundary_of reading.now) nodes.now }
    requires room { host.now.next_edge + length rule.now.reactum.edges ≤ largest_counter }
    ensures are { IfOk result (AreLinkChanges host.now rule.now map.now (boundary_of reading.now) nodes.now.gone.items nodes.now.new.items) }
    ensures full { IsErrOf result ReactFault.Full → PassesALimit host.now rule.now map.now }
{
    let arrivals = arrivals_of(alloc, host, &nodes.new)?;
    let edges = edge_changes(alloc, host, rule, map, reading, &nodes.gone, &arrivals)?;
    let bundles = bundles_of(alloc, host, &nodes.gone, &edges.idle, &arrivals)?;
    Ok(LinkChanges {
        idle: edges.idle,
        used: edges.used,
        bundles,
    })
}

/// The edges that go and those that come, with the points of new rows, which are the arrivals; or `Full` where the edges pass
/// their limit.
fn edge_changes(
    alloc: Global,
    host: &IndexedHost,
    rule: &Rule,
    map: &[u32],
    reading: &Reading,
    gone: &[u32],
    arrivals: &[Arrival],
) -> Result<EdgeChanges, ReactFault>
    requires read { IsRead host.now rule.now map.now reading.now }
    requires gone_ascends { IsStrictlySortedBy nat_cmp gone.now }
    requires gone_are { AreDropped host.now.big rule.now map.now gone.now }
    requires rise { IsNonDecreasingBy arrival_rank arrivals.now }
    requires room { host.now.next_edge + length rule.now.reactum.edges ≤ largest_counter }
    ensures idle_ascends { IfOk result (λ edges. IsStrictlySortedBy nat_cmp edges.idle.items) }
    ensures idle { IfOk result (λ edges. AreIdle host.now.big rule.now map.now (boundary_of reading.now) edges.idle.items) }
    ensures used { IfOk result (λ edges. (new : List NodeRowValue) → AreArrivals host.now.big.outer new arrivals.now
        → AreUsed host.now rule.now new edges.used.items) }
    ensures fits { IfOk result (λ edges. length host.now.big.edges + length edges.used.items ≤ most_host_edges + length edges.idle.items) }
    ensures full { IsErrOf result ReactFault.Full → PassesALimit host.now rule.now map.now }
{
    let idle = idle_of(alloc, host, rule, map, reading, gone)?;
    let used = used_of(alloc, host, rule, arrivals)?;
    room_for_edges(host, rule, map, reading, &idle, &used)?;
    Ok(EdgeChanges { idle, used })
}

/// Refuses with `Full` where the edges that are used would pass the limit of edges, when the idle ones are gone.
fn room_for_edges(
    host: &IndexedHost,
    rule: &Rule,
    map: &[u32],
    reading: &Reading,
    idle: &[u32],
    used: &[EdgeEntry],
) -> Result<(), ReactFault>
    requires read { IsRead host.now rule.now map.now reading.now }
    requires room { host.now.next_edge + length rule.now.reactum.edges ≤ largest_counter }
    requires idle_ascends { IsStrictlySortedBy nat_cmp idle.now }
    requires idle_are { AreIdle host.now.big rule.now map.now (boundary_of reading.now) idle.now }
    requires used_many { length used.now ≡ length (filter (λ own. has_point rule.now.reactum (Edge own)) rule.now.reactum.edges) }
    ensures fits { OnOk result (length host.now.big.edges + length used.now ≤ most_host_edges + length idle.now) }
    ensures full { IsErrOf result ReactFault.Full → PassesALimit host.now rule.now map.now }
{
    if is_room(
        MOST_HOST_EDGES,
        host.edge_count(),
        used.len() as u64,
        idle.len(),
    ) {
        Ok(())
    } else {
        Err(ReactFault::Full)
    }
}

/// The plan of these changes, with what is to lie in the new nodes and in the places round the images.
#[allow(clippy::too_many_arguments)]
fn put_together(
    alloc: Global,
    host: &IndexedHost,
    rule: &Rule,
    map: &[u32],
    reading: &Reading,
    nodes: NodeChanges,
    links: LinkChanges,
    counters: Counters,
) -> Mem<Plan>
    requires read { IsRead host.now rule.now map.now reading.now }
    requires fits { HasNumbers host.now rule.now (late_count (boundary_of reading.now).parts [] rule.now.map) nodes.gone.items }
    requires nodes_are { AreNodeChanges host.now rule.now map.now (boundary_of reading.now) nodes }
    requires links_are { AreLinkChanges host.now rule.now map.now (boundary_of reading.now) nodes.gone.items nodes.new.items links }
    requires next_node { counters.next_node ≡ host.now.next_node + length rule.now.reactum.nodes + late_count (boundary_of reading.now).parts [] rule.now.map }
    requires next_edge { counters.next_edge ≡ host.now.next_edge + length rule.now.reactum.edges }
    ensures { IfOk result (IsReactionPlan host.now rule.now map.now) }
{
    let NodeChanges { gone, moves, new } = nodes;
    let filling = filling_of(alloc, host, reading, &moves, new)?;
    let LinkChanges {
        idle,
        used,
        bundles,
    } = links;
    Ok(Plan {
        gone,
        moves,
        entries: filling.entries,
        nests: filling.nests,
        idle,
        used,
        bundles,
        next_node: counters.next_node,
        next_edge: counters.next_edge,
    })
}
