//! The edges of a host that a reaction leaves without points.
ghost use Rattle.std.specs.Prelude.{◌≡◌, ◌++◌, ℕ, IfOk, OnOk, IsTrue, filter, length, not, option_copied};
ghost use Rattle.std.specs.List.{list_any};
ghost use Rattle.std.specs.List.Sorted.{IsStrictlySortedBy};
ghost use Rattle.std.specs.Ordering.{nat_cmp};
ghost use Rattle.bg_lists.specs.Lists.{Mem as Member};
ghost use Rattle.bg_base.specs.Order.{name_cmp};
ghost use Rattle.bg_index.specs.Plans.{IsRead};
ghost use Rattle.bg_index.specs.Readings.{boundary_of};
ghost use Rattle.bg_index.specs.Tied as tied;
ghost use Rattle.bg_place.specs.Places.{places_of, has_node};
ghost use Rattle.bg_rewriting.specs.Keeping.{stays_at};
ghost use Rattle.bg_rewriting.specs.Making.{AreDropped, AreIdle};
ghost use Rattle.bg_rules.specs.Instantiation.{is_among};

use crate::IndexedHost;
use crate::edge_sets::{push_edge, push_edges};
use crate::link_names::link_beside;
use crate::reading::Reading;
use crate::sets::{is_none_of, number_set};
use bg_base::{Link, Name, NodeRow};
use bg_link::Point;
use bg_lists::Mem;
use bg_rules::Rule;
use std::alloc::Global;

/// The edges of the host that no node keeps, ascending: all their points are on nodes that are gone, and no outer name
/// that the reactum uses stands for one. Costs time n log n in the number of ports of these nodes and of the reactum.
pub fn idle_of(
    alloc: Global,
    host: &IndexedHost,
    rule: &Rule,
    map: &[u32],
    reading: &Reading,
    gone: &[u32],
) -> Mem<Vec<u32>>
    requires read { IsRead host.now rule.now map.now reading.now }
    requires gone_ascends { IsStrictlySortedBy nat_cmp gone.now }
    requires gone_are { AreDropped host.now.big rule.now map.now gone.now }
    ensures ascending { IfOk result (λ idle. IsStrictlySortedBy nat_cmp idle.items) }
    ensures idle { IfOk result (λ idle. AreIdle host.now.big rule.now map.now (boundary_of reading.now) idle.items) }
{
    let named = edges_named(alloc, rule, &reading.links)?;
    let edges = edges_on(alloc, host, gone)?;
    let idle = left_idle(host, &number_set(named), gone, number_set(edges));
    Ok(idle)
}

/// Those of the edges that are none of these names' and whose points are all on nodes that are gone.
fn left_idle(host: &IndexedHost, named: &[u32], gone: &[u32], edges: Vec<u32>) -> Vec<u32>
    requires named_ascends { IsStrictlySortedBy nat_cmp named.now }
    requires gone_ascends { IsStrictlySortedBy nat_cmp gone.now }
    ensures { result.items ≡ filter (tied.is_left_idle host.now.big named.now gone.now) edges.items }
{
    let mut edges = edges;
    edges.retain(|edge| is_left_idle(host, named, gone, *edge));
    edges
}

/// Whether no name stands for the edge and none of its points stays.
fn is_left_idle(host: &IndexedHost, named: &[u32], gone: &[u32], edge: u32) -> bool
    requires named_ascends { IsStrictlySortedBy nat_cmp named.now }
    requires gone_ascends { IsStrictlySortedBy nat_cmp gone.now }
    ensures { result ≡ tied.is_left_idle host.now.big named.now gone.now edge }
{
    is_none_of(named, edge) && !some_stays(host.points(&Link::Edge(edge)), gone)
}

/// Whether one of the points is not on a node that is gone.
fn some_stays(points: &[Point], gone: &[u32]) -> bool
    requires gone_ascends { IsStrictlySortedBy nat_cmp gone.now }
    ensures { result ≡ list_any (stays_at (λ node. not (is_among node gone.now))) points.now }
{
    points.iter().any(|point| is_staying(point, gone))
}

/// Whether the point is not on a node that is gone.
pub fn is_staying(point: &Point, gone: &[u32]) -> bool
    requires gone_ascends { IsStrictlySortedBy nat_cmp gone.now }
    ensures { result ≡ stays_at (λ node. not (is_among node gone.now)) point.now }
{
    match point {
        Point::Port { node, .. } => is_none_of(gone, *node),
        Point::Inner(_) => true,
    }
}

/// The edges on ports of these nodes, which are there.
fn edges_on(alloc: Global, host: &IndexedHost, nodes: &[u32]) -> Mem<Vec<u32>>
    requires there { (node : ℕ) → Member node nodes.now → IsTrue (has_node (places_of host.now.big) node) }
    ensures { IfOk result (λ edges. edges.items ≡ tied.edges_on host.now.big.nodes nodes.now) }
{
    let mut edges = Vec::new(alloc);
    for node in nodes {
        push_edges(host.row(*node).links.as_slice(), &mut edges)?;
    }
    Ok(edges)
}

/// The edges for which the outer names on ports of the reactum stand.
fn edges_named(alloc: Global, rule: &Rule, links: &[Link]) -> Mem<Vec<u32>>
    requires beside { length links.now ≡ length rule.now.reactum.outer }
    ensures { IfOk result (λ edges. edges.items ≡ tied.edges_named_by rule.now.reactum.outer links.now rule.now.reactum.nodes) }
{
    let reactum = rule.reactum();
    edges_named_by(alloc, &reactum.outer, links, &reactum.nodes)
}

/// The edges for which the outer names on ports of the rows stand, in links beside the outer names.
fn edges_named_by(alloc: Global, outer: &[Name], links: &[Link], rows: &[NodeRow]) -> Mem<Vec<u32>>
    requires outer_ascends { IsStrictlySortedBy name_cmp outer.now }
    requires beside { length links.now ≡ length outer.now }
    ensures { IfOk result (λ edges. edges.items ≡ tied.edges_named_by outer.now links.now rows.now) }
{
    let mut edges = Vec::new(alloc);
    for row in rows {
        push_named(outer, links, row.links.as_slice(), &mut edges)?;
    }
    Ok(edges)
}

/// Puts the edges for which outer names among the ports stand behind the others.
fn push_named(outer: &[Name], links: &[Link], ports: &[Link], edges: &mut Vec<u32>) -> Mem<()>
    requires outer_ascends { IsStrictlySortedBy name_cmp outer.now }
    requires beside { length links.now ≡ length outer.now }
    ensures { OnOk result (edges.new.items ≡ edges.old.items ++ tied.edges_named outer.now links.now ports.now) }
{
    for port in ports {
        push_found(link_named(outer, links, port), edges)?;
    }
    Ok(())
}

/// Puts the edge that was found behind the others.
fn push_found(found: Option<&Link>, edges: &mut Vec<u32>) -> Mem<()>
    ensures { OnOk result (edges.new.items ≡ edges.old.items ++ tied.edge_found (option_copied found.entry)) }
{
    match found {
        Some(link) => push_edge(link, edges),
        None => Ok(()),
    }
}

/// The link for which the outer name stands.
fn link_named<'a>(outer: &[Name], links: &'a [Link], port: &Link) -> Option<&'a Link>
    requires outer_ascends { IsStrictlySortedBy name_cmp outer.now }
    requires beside { length links.now ≡ length outer.now }
    ensures { option_copied result ≡ tied.link_named outer.now links.now port.now }
{
    match port {
        Link::Outer(name) => link_beside(outer, links, name),
        Link::Edge(_) => None,
    }
}
