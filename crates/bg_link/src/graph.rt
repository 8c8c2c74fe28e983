//! The links of a bigraph, row by row.
ghost use Rattle.std.specs.Prelude.{◌≡◌, map, IfOk, option_copied};
ghost use Rattle.std.specs.List.Sorted.{IsStrictlySortedBy};
ghost use Rattle.bg_link.specs.Links as defined;
ghost use Rattle.bg_link.specs.Rows.{port_cmp};

use bg_base::{Big, InnerRow, Link, Name, NodeRow, PortLinks};
use bg_lists::{Duplicate, Mem, Numbered, Rows};
use std::alloc::Global;

/// A node and the links of its ports, in the order of the ports.
#[derive(Debug, Drop)]
pub struct PortRow {
    pub node: u32,
    pub links: PortLinks,
}

/// The link part of a bigraph: its edges, the inner names with their links, the outer names, and the nodes with the
/// links of their ports. Where the bigraph is valid the edges and the nodes ascend by number, and the names by name.
#[derive(Debug, Drop)]
pub struct Links {
    pub edges: Rows<u32>,
    pub inner: Rows<InnerRow>,
    pub outer: Rows<Name>,
    pub ports: Rows<PortRow>,
}

/// What is tied to a link (Milner, chapter 2): a port of a node, by its index counted from 0, or an inner name.
#[derive(Debug, Drop, PartialEq, Eq)]
pub enum Point {
    Port { node: u32, index: u32 },
    Inner(Name),
}

impl Duplicate for PortRow {
    fn copy(&self, alloc: Global) -> Mem<PortRow> {
        Ok(PortRow {
            node: self.node,
            links: self.links.copy(alloc)?,
        })
    }
}

impl Numbered for PortRow {
    ghost number = { λ row. row.node };

    fn number(&self) -> u32 {
        self.node
    }
}

impl Duplicate for Links {
    fn copy(&self, alloc: Global) -> Mem<Links> {
        Ok(Links {
            edges: self.edges.copy(alloc)?,
            inner: self.inner.copy(alloc)?,
            outer: self.outer.copy(alloc)?,
            ports: self.ports.copy(alloc)?,
        })
    }
}

/// The link part of the bigraph (Milner, chapter 2). Costs time and memory in proportion to its nodes, ports, edges and
/// names.
pub fn links_of(alloc: Global, big: &Big) -> Mem<Links>
    ensures { IfOk result (λ links. links ≡ defined.links_of big.now) }
{
    Ok(Links {
        edges: big.edges.copy(alloc)?,
        inner: big.inner.copy(alloc)?,
        outer: big.outer.copy(alloc)?,
        ports: Rows::from_vec(port_rows(alloc, big.nodes.as_slice())?),
    })
}

/// The nodes with the links of their ports. Costs time and memory in proportion to nodes, ports and names.
pub fn port_rows(alloc: Global, nodes: &[NodeRow]) -> Mem<Vec<PortRow>>
    ensures { IfOk result (λ rows. rows.items ≡ map defined.port_row nodes.now) }
{
    let mut rows = Vec::with_capacity(alloc, nodes.len())?;
    for row in nodes {
        rows.push(PortRow {
            node: row.id,
            links: row.links.copy(alloc)?,
        })?;
    }
    Ok(rows)
}

/// The row of the node, in rows that ascend by node, or `None` where it has no row.
fn find_ports(rows: &[PortRow], node: u32) -> Option<&PortRow>
    requires ascending { IsStrictlySortedBy port_cmp rows.now }
    ensures { option_copied result ≡ defined.row_of rows.now node }
{
    match rows.binary_search_by_key(&node, |row| row.node) {
        Ok(at) => Some(&rows[at]),
        Err(_) => None,
    }
}

/// The link of the port, in rows that ascend by node, or `None` where there is no such port.
pub fn find_link(rows: &[PortRow], node: u32, port: u32) -> Option<&Link>
    requires ascending { IsStrictlySortedBy port_cmp rows.now }
    ensures { option_copied result ≡ defined.link_in rows.now node port }
{
    match find_ports(rows, node) {
        Some(row) => row.links.as_slice().get(port as usize),
        None => None,
    }
}

/// Whether the link is closed: an edge is, and an outer name is open. Takes constant time.
pub fn is_closed(link: &Link) -> bool
    ensures { result ≡ defined.is_edge link.now }
{
    match link {
        Link::Edge(_) => true,
        Link::Outer(_) => false,
    }
}
