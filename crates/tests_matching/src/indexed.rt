//! Hosts that are indexed: made, asked and given back.
use crate::models::system_of;
use bg_base::{Link, NodeRow};
use bg_index::IndexedHost;
use bg_lists::{Duplicate, Mem};
use bg_rules::Host;
use std::alloc::Global;

/// Three rooms in one region, of which one is empty; two agents, one on an edge and one on a name; a node with two ports on
/// the edge.
const MODEL: &str = "ctrl Room = 0; atomic ctrl Agent = 1; atomic ctrl Pair = 2; \
    big s = /e (Room.(Agent{e} | Pair{e, e}) | Room.Agent{n} | Room.1); begin brs init s; rules = []; end";

/// Whether the row is that of its node.
fn has_row(indexed: &IndexedHost, row: &NodeRow) -> bool {
    indexed.contains(row.id)
        && indexed.row(row.id) == row
        && indexed.parent(row.id) == row.parent
        && indexed.ports(row.id) == row.links.len()
}

/// Whether the node is among the children of its place and the nodes of its control.
fn is_listed(indexed: &IndexedHost, row: &NodeRow) -> bool {
    indexed.children(row.parent).binary_search(&row.id).is_ok()
        && indexed
            .by_control(row.control)
            .binary_search(&row.id)
            .is_ok()
}

/// Whether each port has its link.
fn has_links(indexed: &IndexedHost, row: &NodeRow) -> bool {
    row.links
        .iter()
        .enumerate()
        .all(|(port, link)| has_link(indexed, row.id, port, link))
}

fn has_link(indexed: &IndexedHost, node: u32, port: usize, link: &Link) -> bool {
    match u32::try_from(port) {
        Ok(port) => indexed.has_port(node, port) && indexed.link(node, port) == link,
        Err(_) => false,
    }
}

/// Whether each row is found.
pub(crate) fn has_rows(indexed: &IndexedHost, host: &Host) -> bool {
    host.big().nodes.iter().all(|row| has_row(indexed, row)
        && has_links(indexed, row)
        && is_listed(indexed, row))
}

/// Whether so many points are tied to the link, on these nodes.
fn has_points_on(indexed: &IndexedHost, link: &Link, degree: u32, nodes: &[u32]) -> bool {
    indexed.degree(link) == degree && indexed.on_link(link) == nodes
}

/// Whether the first edge has three points on two nodes, and the first outer name one.
fn has_degrees(alloc: Global, indexed: &IndexedHost, host: &Host) -> Mem<bool> {
    let big = host.big();
    match (big.edges.first(), big.outer.first()) {
        (Some(edge), Some(name)) => {
            let name = Link::Outer(name.copy(alloc)?);
            let edge = Link::Edge(*edge);
            Ok(has_points_on(indexed, &edge, 3, &[1, 2]) && has_points_on(indexed, &name, 1, &[4]))
        }
        _ => Ok(false),
    }
}

/// Whether what is given back, and a copy, are the host.
fn is_given_back(alloc: Global, indexed: &IndexedHost, host: &Host) -> Mem<bool> {
    let back = indexed.to_host(alloc)?;
    let other = indexed.copy(alloc)?.to_host(alloc)?;
    Ok(
        back.big() == host.big()
            && other.big() == host.big()
            && back.next_node() == host.next_node(),
    )
}

#[test]
fn an_indexed_host_has_the_rows(rt: HostRuntime) -> Mem<()> {
    let system = system_of(rt.alloc(), MODEL)?;
    let indexed = IndexedHost::of(rt.alloc(), system.init())?;
    assert!(rt; has_rows(&indexed, system.init()));
    assert!(rt; !indexed.contains(100));
    assert!(rt; has_degrees(rt.alloc(), &indexed, system.init())?);
    assert!(rt; is_given_back(rt.alloc(), &indexed, system.init())?);
    Ok(())
}
