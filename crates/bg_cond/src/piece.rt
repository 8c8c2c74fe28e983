//! A piece of a host: a part of it, with the links that its nodes have in the host, and holes.
ghost use Rattle.std.specs.Prelude.{◌≡◌, ◌+◌, ◌≤◌, ◌++◌, length, map, IfOk, OnOk};
ghost use Rattle.std.specs.List.Sorted.{IsSorted, IsStrictlySortedBy};
ghost use Rattle.std.specs.Ordering.{nat_cmp};
ghost use Rattle.bg_lists.specs.Orders.{set_of};
ghost use Rattle.bg_base.specs.Bigraph.{node_cmp};
ghost use Rattle.bg_base.specs.Lookup.{IsSortedCopy};
ghost use Rattle.bg_base.specs.Order.{name_cmp};
ghost use Rattle.bg_base.specs.Translation.{node_numbers};
ghost use Rattle.bg_base.specs.declared.names.Link.TheVariants.{Edge as EdgeLink};
ghost use Rattle.bg_rules.specs.Instantiation.{is_among};
ghost use Rattle.bg_cond.specs.Pieces as defined;

use crate::sides::has;
use bg_base::{Big, Link, LinkVec, Name, NodeRow, Place, PortLinks, find_node};
use bg_link::name_set;
use bg_lists::{Duplicate, Mem, Rows};
use std::alloc::Global;

/// The control of a hole.
const HOLE: u32 = 4_294_967_295;

/// The part of the host, with the links of the host and a hole in each of the places, numbered from the first on.
pub(crate) fn piece_of(
    alloc: Global,
    host: &Big,
    part: &Big,
    first: u32,
    places: &[Place],
) -> Mem<Big>
    requires host_ascends { IsStrictlySortedBy node_cmp host.now.nodes }
    requires part_ascends { IsStrictlySortedBy node_cmp part.now.nodes }
    requires few { first + length places.now ≤ 4294967295 }
    ensures { IfOk result (λ made. made ≡ defined.piece host.now part.now (defined.holes first places.now)) }
{
    let cut = cut_edges(alloc, &host.nodes, &part.nodes)?;
    let mut rows = piece_rows(alloc, &host.nodes, cut.as_slice(), &part.nodes)?;
    push_holes(alloc, first, places, &mut rows)?;
    let edges = edge_set(tied_edges(alloc, rows.as_slice())?)?;
    let outer = name_set(tied_names(alloc, rows.as_slice())?)?;
    Ok(Big {
        nodes: Rows::try_from_vec(rows)?,
        edges,
        sites: Rows::from_vec(Vec::new(alloc)),
        inner: Rows::from_vec(Vec::new(alloc)),
        regions: part.regions,
        outer,
    })
}

// ---- edges with a port outside

/// The edges that a port outside of the part has, in order.
fn cut_edges(alloc: Global, rows: &[NodeRow], part: &[NodeRow]) -> Mem<Vec<u32>>
    requires ascending { IsStrictlySortedBy node_cmp part.now }
    ensures { IfOk result (λ cut. IsSortedCopy nat_cmp (defined.edges_outside rows.now (node_numbers part.now)) cut.items) }
{
    let mut edges = edges_outside(alloc, rows, part)?;
    edges.sort_unstable();
    Ok(edges)
}

/// The edges that ports outside of the part have, for each port.
fn edges_outside(alloc: Global, rows: &[NodeRow], part: &[NodeRow]) -> Mem<Vec<u32>>
    requires ascending { IsStrictlySortedBy node_cmp part.now }
    ensures { IfOk result (λ edges. edges.items ≡ defined.edges_outside rows.now (node_numbers part.now)) }
{
    let mut edges = Vec::new(alloc);
    for row in rows {
        if !is_of(part, row.id) {
            push_edges(row.links.as_slice(), &mut edges)?;
        }
    }
    Ok(edges)
}

/// Whether the node is one of the part.
fn is_of(part: &[NodeRow], node: u32) -> bool
    requires ascending { IsStrictlySortedBy node_cmp part.now }
    ensures { result ≡ is_among node (node_numbers part.now) }
{
    match find_node(part, node) {
        Some(_) => true,
        None => false,
    }
}

// ---- edges and names of ports

/// Appends the edges among the links.
fn push_edges(links: &[Link], edges: &mut Vec<u32>) -> Mem<()>
    ensures { OnOk result (edges.new.items ≡ edges.old.items ++ defined.edges_in links.now) }
{
    for link in links {
        if let Link::Edge(edge) = link {
            edges.push(*edge)?;
        }
    }
    Ok(())
}

/// Appends the outer names among the links.
fn push_names(alloc: Global, links: &[Link], names: &mut Vec<Name>) -> Mem<()>
    ensures { OnOk result (names.new.items ≡ names.old.items ++ defined.names_in links.now) }
{
    for link in links {
        if let Link::Outer(name) = link {
            names.push(name.copy(alloc)?)?;
        }
    }
    Ok(())
}

/// The edges that ports of the rows have, for each port.
fn tied_edges(alloc: Global, rows: &[NodeRow]) -> Mem<Vec<u32>>
    ensures { IfOk result (λ edges. edges.items ≡ defined.tied_edges rows.now) }
{
    let mut edges = Vec::new(alloc);
    for row in rows {
        push_edges(row.links.as_slice(), &mut edges)?;
    }
    Ok(edges)
}

/// The outer names that ports of the rows have, for each port.
fn tied_names(alloc: Global, rows: &[NodeRow]) -> Mem<Vec<Name>>
    ensures { IfOk result (λ names. names.items ≡ defined.tied_names rows.now) }
{
    let mut names = Vec::new(alloc);
    for row in rows {
        push_names(alloc, row.links.as_slice(), &mut names)?;
    }
    Ok(names)
}

/// The edges in order, each once.
fn edge_set(mut edges: Vec<u32>) -> Mem<Rows<u32>>
    ensures { IfOk result (λ set. set ≡ set_of nat_cmp edges.items) }
{
    edges.sort_unstable();
    edges.dedup();
    Rows::try_from_vec(edges)
}

// ---- rows

/// What the link becomes.
fn opened(alloc: Global, cut: &[u32], link: &Link) -> Mem<Link>
    requires sorted { IsSorted nat_cmp cut.now }
    ensures { IfOk result (λ made. made ≡ defined.link_opened cut.now link.now) }
{
    match link {
        Link::Edge(edge) => Ok(opened_edge(cut, *edge)),
        Link::Outer(_) => link.copy(alloc),
    }
}

fn opened_edge(cut: &[u32], edge: u32) -> Link
    requires sorted { IsSorted nat_cmp cut.now }
    ensures { result ≡ defined.link_opened cut.now (EdgeLink edge) }
{
    if has(cut, edge) {
        Link::Outer(Name::Opened(edge))
    } else {
        Link::Edge(edge)
    }
}

fn opened_links(alloc: Global, cut: &[u32], links: &[Link]) -> Mem<LinkVec>
    requires sorted { IsSorted nat_cmp cut.now }
    ensures { IfOk result (λ made. made.items ≡ map (defined.link_opened cut.now) links.now) }
{
    let mut made = LinkVec::new(alloc);
    for link in links {
        made.push(opened(alloc, cut, link)?)?;
    }
    Ok(made)
}

/// The links of the node in the host, opened.
fn links_in_piece(alloc: Global, rows: &[NodeRow], cut: &[u32], node: u32) -> Mem<PortLinks>
    requires ascending { IsStrictlySortedBy node_cmp rows.now }
    requires sorted { IsSorted nat_cmp cut.now }
    ensures { IfOk result (λ made. made ≡ map (defined.link_opened cut.now) (defined.links_at rows.now node)) }
{
    match find_node(rows, node) {
        Some(row) => {
            let links = opened_links(alloc, cut, row.links.as_slice())?;
            Ok(PortLinks::from_small_vec(links))
        }
        None => Ok(PortLinks::from_small_vec(LinkVec::new(alloc))),
    }
}

fn piece_row(alloc: Global, rows: &[NodeRow], cut: &[u32], row: &NodeRow) -> Mem<NodeRow>
    requires ascending { IsStrictlySortedBy node_cmp rows.now }
    requires sorted { IsSorted nat_cmp cut.now }
    ensures { IfOk result (λ made. made ≡ defined.piece_row rows.now cut.now row.now) }
{
    let links = links_in_piece(alloc, rows, cut, row.id)?;
    Ok(NodeRow {
        id: row.id,
        control: row.control,
        parent: row.parent,
        links,
    })
}

fn piece_rows(alloc: Global, rows: &[NodeRow], cut: &[u32], part: &[NodeRow]) -> Mem<Vec<NodeRow>>
    requires ascending { IsStrictlySortedBy node_cmp rows.now }
    requires sorted { IsSorted nat_cmp cut.now }
    ensures { IfOk result (λ made. made.items ≡ map (defined.piece_row rows.now cut.now) part.now) }
{
    let mut made = Vec::new(alloc);
    for row in part {
        made.push(piece_row(alloc, rows, cut, row)?)?;
    }
    Ok(made)
}

/// Appends a hole in each of the places.
fn push_holes(alloc: Global, first: u32, places: &[Place], rows: &mut Vec<NodeRow>) -> Mem<()>
    requires few { first + length places.now ≤ 4294967295 }
    ensures { OnOk result (rows.new.items ≡ rows.old.items ++ defined.holes first places.now) }
{
    for (at, place) in places.iter().enumerate() {
        rows.push(NodeRow {
            id: first + at as u32,
            control: HOLE,
            parent: *place,
            links: PortLinks::from_small_vec(LinkVec::new(alloc)),
        })?;
    }
    Ok(())
}
