//! The index of a host, and the rows of an index.
ghost use Rattle.std.specs.Prelude.{◌≡◌, ◌<◌, ◌^◌, ◌++◌, ℕ, length, IfOk, OnOk, IsSome};
ghost use Rattle.slab.specs.Slab.{get};
ghost use Rattle.bg_lists.specs.Lists.{Mem as Member, At};
ghost use Rattle.bg_base.specs.Bigraph.{IsValid};
ghost use Rattle.bg_base.specs.declared.names.Link.TheVariants.{Edge, Outer};
ghost use Rattle.bg_base.specs.declared.names.Name.{Name as NameValue};
ghost use Rattle.bg_base.specs.declared.names.Place.TheVariants.{Node, Region};
ghost use Rattle.bg_index.specs.declared.entries.EdgeEntry.{EdgeEntry as EdgeValue};
ghost use Rattle.bg_index.specs.declared.entries.NameEntry.{NameEntry as NameEntryValue};
ghost use Rattle.bg_index.specs.declared.entries.Slot.{Slot as SlotValue};
ghost use Rattle.bg_index.specs.Indexed as defined;
ghost use Rattle.bg_index.specs.Making.{IsPushed};
ghost use Rattle.bg_link.specs.Links.{links_of, points_of};
ghost use Rattle.bg_place.specs.Places.{places_of, children_of};

use crate::controls::controls_of;
use crate::entries::{EdgeEntry, Index, NameEntry, NodeEntry, RegionEntry, Slot};
use crate::tied_points::TiedPoints;
use bg_base::{Big, Link, Name, NodeRow, Place};
use bg_link::{Point, Wiring};
use bg_lists::{Duplicate, Mem, OutOfMemory, copies};
use bg_place::Forest;
use bg_rules::Host;
use slab::Slab;
use std::alloc::Global;

/// Nodes and regions with what lies in them.
#[derive(Drop)]
pub struct Nesting {
    pub nodes: Slab<NodeEntry>,
    pub slots: Vec<Slot>,
    pub regions: Vec<RegionEntry>,
}

/// Edges and outer names with their points.
#[derive(Drop)]
pub struct Ties {
    pub edges: Vec<EdgeEntry>,
    pub names: Vec<NameEntry>,
}

/// The index of the host.
pub fn index_of(alloc: Global, host: &Host) -> Mem<Index>
    ensures index { IfOk result (λ index. defined.IsIndex index) }
    ensures same { IfOk result (λ index. defined.host_of index ≡ host.now) }
{
    let big = host.big();
    let nesting = nesting_of(alloc, big)?;
    let ties = ties_of(alloc, big)?;
    let controls = controls_of(alloc, &big.nodes)?;
    let outer = big.outer.copy(alloc)?;
    Ok(Index {
        nodes: nesting.nodes,
        slots: nesting.slots,
        regions: nesting.regions,
        edges: ties.edges,
        outer,
        names: ties.names,
        controls,
        next_node: host.next_node(),
        next_edge: host.next_edge(),
    })
}

/// The nodes and regions with what lies in them.
fn nesting_of(alloc: Global, big: &Big) -> Mem<Nesting>
    requires valid { IsValid big.now }
    ensures rows { IfOk result (λ nesting. defined.rows_of nesting.nodes nesting.slots.items ≡ big.now.nodes) }
    ensures regions { IfOk result (λ nesting. length nesting.regions.items ≡ big.now.regions) }
    ensures nested { IfOk result (λ nesting. defined.AreNested (places_of big.now) nesting.nodes nesting.slots.items nesting.regions.items) }
{
    let forest = Forest::of(alloc, big)?;
    let mut nodes = Slab::new(alloc);
    let mut slots = Vec::new(alloc);
    push_nodes(alloc, &forest, &big.nodes, &mut nodes, &mut slots)?;
    let regions = regions_of(alloc, &forest, big.regions)?;
    Ok(Nesting {
        nodes,
        slots,
        regions,
    })
}

/// Puts an entry for each row behind the others.
fn push_nodes(
    alloc: Global,
    forest: &Forest,
    rows: &[NodeRow],
    nodes: &mut Slab<NodeEntry>,
    slots: &mut Vec<Slot>,
) -> Mem<()>
    requires kept { defined.AreSlotsOf forest.now nodes.old slots.old.items }
    ensures rows { OnOk result (defined.rows_of nodes.new slots.new.items ≡ defined.rows_of nodes.old slots.old.items ++ rows.now) }
    ensures kept { OnOk result (defined.AreSlotsOf forest.now nodes.new slots.new.items) }
{
    for row in rows {
        let entry = entry_of(alloc, forest, row)?;
        push_entry(nodes, slots, entry)?;
    }
    Ok(())
}

/// The entry of a row.
fn entry_of(alloc: Global, forest: &Forest, row: &NodeRow) -> Mem<NodeEntry>
    ensures row { IfOk result (λ entry. entry.row ≡ row.now) }
    ensures children { IfOk result (λ entry. entry.children.items ≡ children_of forest.now (Node row.now.id)) }
{
    let children = copies(alloc, forest.children(Place::Node(row.id)))?;
    let row = row.copy(alloc)?;
    Ok(NodeEntry { row, children })
}

/// Puts an entry behind the others.
fn push_entry(nodes: &mut Slab<NodeEntry>, slots: &mut Vec<Slot>, entry: NodeEntry) -> Mem<()>
    ensures { OnOk result (IsPushed nodes.old slots.old.items entry nodes.new slots.new.items) }
{
    let node = entry.row.id;
    let at = nodes.insert(entry)?;
    if at > u32::MAX as usize {
        return Err(OutOfMemory);
    }
    slots.push(Slot {
        node,
        at: at as u32,
    })?;
    Ok(())
}

/// Regions, numbered from 0, with what lies in them.
fn regions_of(alloc: Global, forest: &Forest, regions: u32) -> Mem<Vec<RegionEntry>>
    ensures many { IfOk result (λ made. length made.items ≡ regions) }
    ensures few { IfOk result (λ made. length made.items < 2 ^ 32) }
    ensures are { IfOk result (λ made. defined.AreRegions forest.now made.items) }
{
    let mut made = Vec::new(alloc);
    for region in 0..regions {
        let children = copies(alloc, forest.children(Place::Region(region)))?;
        made.push(RegionEntry { children })?;
    }
    Ok(made)
}

/// The edges and outer names with their points.
fn ties_of(alloc: Global, big: &Big) -> Mem<Ties>
    requires valid { IsValid big.now }
    ensures edges { IfOk result (λ ties. defined.edges_of ties.edges.items ≡ big.now.edges) }
    ensures tied { IfOk result (λ ties. defined.AreTied (links_of big.now) ties.edges.items big.now.outer ties.names.items) }
{
    let wiring = Wiring::of(alloc, big)?;
    let edges = edges_of(alloc, &wiring, &big.edges)?;
    let names = names_of(alloc, &wiring, &big.outer)?;
    Ok(Ties { edges, names })
}

/// The edges with their points.
fn edges_of(alloc: Global, wiring: &Wiring, edges: &[u32]) -> Mem<Vec<EdgeEntry>>
    ensures numbers { IfOk result (λ made. defined.edges_of made.items ≡ edges.now) }
    ensures tied { IfOk result (λ made. (entry : EdgeValue) → Member entry made.items → defined.IsEdgeTied wiring.now entry) }
{
    let mut made = Vec::new(alloc);
    for edge in edges {
        let points = points_on(alloc, wiring, &Link::Edge(*edge))?;
        made.push(EdgeEntry {
            edge: *edge,
            points,
        })?;
    }
    Ok(made)
}

/// The points of each outer name.
fn names_of(alloc: Global, wiring: &Wiring, outer: &[Name]) -> Mem<Vec<NameEntry>>
    ensures many { IfOk result (λ made. length made.items ≡ length outer.now) }
    ensures tied { IfOk result (λ made. (i : ℕ) (name : NameValue) (entry : NameEntryValue) → At name i outer.now → At entry i made.items
        → defined.IsNameTied wiring.now name entry) }
{
    let mut made = Vec::new(alloc);
    for name in outer {
        let points = points_on(alloc, wiring, &Link::Outer(name.copy(alloc)?))?;
        made.push(NameEntry { points })?;
    }
    Ok(made)
}

/// Copies of the points of a link, where 32 bits can count them.
fn points_on(alloc: Global, wiring: &Wiring, link: &Link) -> Mem<TiedPoints>
    ensures points { IfOk result (λ made. made.items ≡ points_of wiring.now link.now) }
    ensures few { IfOk result (λ made. length made.items < 2 ^ 32) }
{
    let points = wiring.points(link);
    if points.len() > u32::MAX as usize {
        return Err(OutOfMemory);
    }
    let copies = point_copies(alloc, points)?;
    let made = TiedPoints::of(alloc, copies)?;
    Ok(made)
}

/// Copies of points, in their order.
pub fn point_copies(alloc: Global, points: &[Point]) -> Mem<Vec<Point>>
    ensures { IfOk result (λ made. made.items ≡ points.now) }
{
    let mut made = Vec::with_capacity(alloc, points.len())?;
    for point in points {
        made.push(point_copy(alloc, point)?)?;
    }
    Ok(made)
}

pub fn point_copy(alloc: Global, point: &Point) -> Mem<Point>
    ensures { IfOk result (λ made. made ≡ point.now) }
{
    match point {
        Point::Port { node, index } => Ok(Point::Port {
            node: *node,
            index: *index,
        }),
        Point::Inner(name) => Ok(Point::Inner(name.copy(alloc)?)),
    }
}

/// The rows to which the slots lead.
pub fn rows_of(alloc: Global, nodes: &Slab<NodeEntry>, slots: &[Slot]) -> Mem<Vec<NodeRow>>
    requires there { (slot : SlotValue) → Member slot slots.now → IsSome (get nodes.now slot.at) }
    ensures { IfOk result (λ made. made.items ≡ defined.rows_of nodes.now slots.now) }
{
    let mut made = Vec::with_capacity(alloc, slots.len())?;
    for slot in slots {
        made.push(row_at(alloc, nodes, *slot)?)?;
    }
    Ok(made)
}

/// The row to which the slot leads.
fn row_at(alloc: Global, nodes: &Slab<NodeEntry>, slot: Slot) -> Mem<NodeRow>
    requires there { IsSome (get nodes.now slot.at) }
    ensures { IfOk result (λ row. row ≡ defined.row_at nodes.now slot) }
{
    match nodes.get(slot.at as usize) {
        Some(entry) => entry.row.copy(alloc),
        None => unreachable!(),
    }
}

/// The numbers of the edges.
pub fn edge_numbers(alloc: Global, edges: &[EdgeEntry]) -> Mem<Vec<u32>>
    ensures { IfOk result (λ made. made.items ≡ defined.edges_of edges.now) }
{
    let mut made = Vec::with_capacity(alloc, edges.len())?;
    for entry in edges {
        made.push(entry.edge)?;
    }
    Ok(made)
}
