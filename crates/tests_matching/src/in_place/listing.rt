//! Whether an indexed host's lists are those of a plain host.
use bg_base::{Link, Place};
use bg_index::IndexedHost;
use bg_link::{Point, Wiring};
use bg_lists::Mem;
use bg_place::Forest;
use bg_rules::Host;
use std::alloc::Global;

/// Whether the children of each node, and of the place of each, are those of the rows.
pub(crate) fn has_children(alloc: Global, indexed: &IndexedHost, host: &Host) -> Mem<bool> {
    let forest = Forest::of(alloc, host.big())?;
    Ok(
        host.big().nodes.iter().all(|row| has_children_in(indexed, &forest, Place::Node(row.id))
            && has_children_in(indexed, &forest, row.parent)),
    )
}

fn has_children_in(indexed: &IndexedHost, forest: &Forest, place: Place) -> bool {
    indexed.children(place) == forest.children(place)
}

/// Whether the points of the links of each port are those of the rows.
pub(crate) fn has_points(alloc: Global, indexed: &IndexedHost, host: &Host) -> Mem<bool> {
    let wiring = Wiring::of(alloc, host.big())?;
    Ok(host.big().nodes.iter().all(|row| has_points_of(indexed, &wiring, row.links.as_slice())))
}

fn has_points_of(indexed: &IndexedHost, wiring: &Wiring, links: &[Link]) -> bool {
    links.iter().all(|link| indexed.points(link) == wiring.points(link)
        && indexed.degree(link) == wiring.degree(link)
        && are_nodes_of(indexed.on_link(link), wiring.points(link)))
}

fn is_port_of(point: &Point, wanted: u32) -> bool {
    match point {
        Point::Port { node, .. } => *node == wanted,
        Point::Inner(_) => false,
    }
}

fn is_on_one(point: &Point, nodes: &[u32]) -> bool {
    match point {
        Point::Port { node, .. } => nodes.binary_search(node).is_ok(),
        Point::Inner(_) => false,
    }
}

/// Whether these are the nodes of the ports among the points.
fn are_nodes_of(nodes: &[u32], points: &[Point]) -> bool {
    points.iter().all(|point| is_on_one(point, nodes))
        && nodes
            .iter()
            .all(|node| points.iter().any(|point| is_port_of(point, *node)))
}
