//! The rows that a reaction makes: those of the reactum, and those of the late copies behind them.
ghost use Rattle.std.specs.Prelude.{◌≡◌, ◌+◌, ◌-◌, ◌<◌, ◌≤◌, ◌^◌, ◌++◌, ℕ, IfOk, OnOk, IsTrue, [], length, map as mapped};
ghost use Rattle.std.specs.List.Sorted.{IsStrictlySortedBy};
ghost use Rattle.std.specs.Ordering.{nat_cmp};
ghost use Rattle.bg_lists.specs.Lists.{Mem as Member};
ghost use Rattle.bg_base.specs.declared.big.NodeRow.{NodeRow as NodeRowValue};
ghost use Rattle.bg_base.specs.declared.names.Place.TheVariants.{Node, Region};
ghost use Rattle.bg_base.specs.declared.names.Link.TheVariants.{Edge, Outer};
ghost use Rattle.bg_base.specs.Limits.{largest_counter};
ghost use Rattle.bg_base.specs.Order.{name_cmp};
ghost use Rattle.bg_place.specs.Places.{places_of, has_node};
ghost use Rattle.bg_rewriting.specs.Rewriting as defined;
ghost use Rattle.bg_rewriting.specs.Rewriting.{late_count};
ghost use Rattle.bg_index.specs.Copying as copying;
ghost use Rattle.bg_index.specs.Copying.{AreCopied, IsRoomFor};
ghost use Rattle.bg_index.specs.Plans.{AreNewRows, IsRead};
ghost use Rattle.bg_index.specs.Readings.{AreLate, boundary_of};

use crate::IndexedHost;
use crate::late::late_part;
use crate::link_names::link_beside;
use crate::reading::Reading;
use crate::sets::is_one_of;
use bg_base::{Link, Name, NodeRow, Place, PortLinks};
use bg_lists::{Duplicate, Mem};
use bg_rules::Rule;
use smallvec::SmallVec;
use std::alloc::Global;

/// The rows of the reactum as they will stand, in their order, and then for each late entry of the map, in order, those of
/// the copy of its part. Costs time n log n, and memory n, in the number of nodes and ports of these and of the entries.
pub fn new_rows_of(
    alloc: Global,
    host: &IndexedHost,
    rule: &Rule,
    map: &[u32],
    reading: &Reading,
) -> Mem<Vec<NodeRow>>
    requires read { IsRead host.now rule.now map.now reading.now }
    requires nodes_room { host.now.next_node + length rule.now.reactum.nodes + late_count (boundary_of reading.now).parts [] rule.now.map ≤ largest_counter }
    requires edges_room { host.now.next_edge + length rule.now.reactum.edges ≤ largest_counter }
    ensures { IfOk result (λ new. AreNewRows host.now rule.now map.now (boundary_of reading.now) new.items) }
{
    let mut rows = rows_made(alloc, host, rule, reading, &rule.reactum().nodes)?;
    push_copies(alloc, host, rule, map, reading, rule.map(), &mut rows)?;
    Ok(rows)
}

/// These rows of the reactum, in the host after.
fn rows_made(
    alloc: Global,
    host: &IndexedHost,
    rule: &Rule,
    reading: &Reading,
    rows: &[NodeRow],
) -> Mem<Vec<NodeRow>>
    requires names { IsStrictlySortedBy name_cmp rule.now.redex.outer }
    requires beside { length reading.now.links.items ≡ length rule.now.redex.outer }
    requires room { (row : NodeRowValue) → Member row rows.now → IsRoomFor host.now row }
    ensures { IfOk result (λ made. made.items ≡ mapped (defined.row_made host.now rule.now (boundary_of reading.now)) rows.now) }
{
    let mut made = Vec::with_capacity(alloc, rows.len())?;
    for row in rows {
        made.push(row_made(alloc, host, rule, reading, row)?)?;
    }
    Ok(made)
}

/// A row of the reactum, in the host after.
fn row_made(
    alloc: Global,
    host: &IndexedHost,
    rule: &Rule,
    reading: &Reading,
    row: &NodeRow,
) -> Mem<NodeRow>
    requires names { IsStrictlySortedBy name_cmp rule.now.redex.outer }
    requires beside { length reading.now.links.items ≡ length rule.now.redex.outer }
    requires room { IsRoomFor host.now row.now }
    ensures { IfOk result (λ made. made ≡ defined.row_made host.now rule.now (boundary_of reading.now) row.now) }
{
    let names = &rule.redex().big().outer;
    Ok(NodeRow {
        id: host.next_node() + row.id,
        control: row.control,
        parent: place_made(host.next_node(), &reading.places, row.parent),
        links: links_made(
            alloc,
            host.next_edge(),
            names,
            &reading.links,
            row.links.as_slice(),
        )?,
    })
}

/// Where a place of the reactum comes to lie.
pub fn place_made(next: u32, places: &[Place], place: Place) -> Place
    requires room { (node : ℕ) → place ≡ Node node → next + node ≤ largest_counter }
    ensures { result ≡ defined.place_made next places.now place }
{
    match place {
        Place::Node(node) => Place::Node(next + node),
        Place::Region(region) => place_at(places, region),
    }
}

fn place_at(places: &[Place], region: u32) -> Place
    ensures { result ≡ defined.place_made 0 places.now (Region region) }
{
    match places.get(region as usize) {
        Some(place) => *place,
        None => Place::Region(region),
    }
}

/// What links of the reactum become.
fn links_made(
    alloc: Global,
    next: u32,
    names: &[Name],
    found: &[Link],
    links: &[Link],
) -> Mem<PortLinks>
    requires names { IsStrictlySortedBy name_cmp names.now }
    requires beside { length found.now ≡ length names.now }
    requires few { length links.now < 2 ^ 32 - 1 }
    requires room { (edge : ℕ) → Member (Edge edge) links.now → next + edge ≤ largest_counter }
    ensures { IfOk result (λ made. made ≡ mapped (defined.link_made next names.now found.now) links.now) }
{
    let mut made = SmallVec::new(alloc);
    for link in links {
        made.push(link_made(alloc, next, names, found, link)?)?;
    }
    Ok(PortLinks::from_small_vec(made))
}

/// What a link of the reactum becomes.
fn link_made(alloc: Global, next: u32, names: &[Name], found: &[Link], link: &Link) -> Mem<Link>
    requires names { IsStrictlySortedBy name_cmp names.now }
    requires beside { length found.now ≡ length names.now }
    requires room { (edge : ℕ) → link.now ≡ Edge edge → next + edge ≤ largest_counter }
    ensures { IfOk result (λ made. made ≡ defined.link_made next names.now found.now link.now) }
{
    match link {
        Link::Edge(edge) => Ok(Link::Edge(next + *edge)),
        Link::Outer(name) => link_named(alloc, names, found, name),
    }
}

/// The link for which the outer name stands.
fn link_named(alloc: Global, names: &[Name], found: &[Link], name: &Name) -> Mem<Link>
    requires names { IsStrictlySortedBy name_cmp names.now }
    requires beside { length found.now ≡ length names.now }
    ensures { IfOk result (λ made. made ≡ defined.link_made 0 names.now found.now (Outer name.now)) }
{
    match link_beside(names, found, name) {
        Some(link) => link.copy(alloc),
        None => Ok(Link::Outer(name.copy(alloc)?)),
    }
}

/// Puts the rows of the late copies that these entries ask for behind those of the reactum.
fn push_copies(
    alloc: Global,
    host: &IndexedHost,
    rule: &Rule,
    map: &[u32],
    reading: &Reading,
    entries: &[u32],
    rows: &mut Vec<NodeRow>,
) -> Mem<()>
    requires read { IsRead host.now rule.now map.now reading.now }
    requires entries { entries.now ≡ rule.now.map }
    requires late { AreLate entries.now reading.now.late.items }
    requires nodes_room { host.now.next_node + length rule.now.reactum.nodes + late_count (boundary_of reading.now).parts [] rule.now.map ≤ largest_counter }
    requires made { rows.old.items ≡ mapped (defined.row_made host.now rule.now (boundary_of reading.now)) rule.now.reactum.nodes }
    ensures { OnOk result (AreNewRows host.now rule.now map.now (boundary_of reading.now) rows.new.items) }
{
    let mut free = host.next_node() + rule.reactum().nodes.len();
    for (at, site) in entries.iter().enumerate() {
        let part = late_part(&reading.parts, reading.late[at], *site);
        let top = top_made(host, rule, reading, at);
        push_copy(alloc, host, &reading.images, part, free, top, rows)?;
        free += part.len() as u32;
    }
    Ok(())
}

/// Where a site of the reactum comes to lie.
pub fn top_made(host: &IndexedHost, rule: &Rule, reading: &Reading, at: usize) -> Place
    requires room { host.now.next_node + length rule.now.reactum.nodes ≤ largest_counter }
    requires there { at < length rule.now.reactum.sites }
    ensures { result ≡ copying.top_made host.now rule.now (boundary_of reading.now) at }
{
    place_made(host.next_node(), &reading.places, rule.reactum().sites[at])
}

/// Puts the late copy of a part behind the rows, its nodes numbered from `free` on.
fn push_copy(
    alloc: Global,
    host: &IndexedHost,
    images: &[u32],
    part: &[u32],
    free: u32,
    top: Place,
    rows: &mut Vec<NodeRow>,
) -> Mem<()>
    requires images { IsStrictlySortedBy nat_cmp images.now }
    requires part { IsStrictlySortedBy nat_cmp part.now }
    requires there { (node : ℕ) → Member node part.now → IsTrue (has_node (places_of host.now.big) node) }
    requires room { free + length part.now ≤ largest_counter }
    ensures { OnOk result (rows.new.items ≡ rows.old.items ++ copying.rows_late host.now.big.nodes images.now part.now free top) }
{
    for node in part {
        rows.push(row_late(alloc, images, part, free, top, host.row(*node))?)?;
    }
    Ok(())
}

fn row_late(
    alloc: Global,
    images: &[u32],
    part: &[u32],
    free: u32,
    top: Place,
    row: &NodeRow,
) -> Mem<NodeRow>
    requires images { IsStrictlySortedBy nat_cmp images.now }
    requires part { IsStrictlySortedBy nat_cmp part.now }
    requires room { free + length part.now ≤ largest_counter }
    ensures { IfOk result (λ made. made ≡ copying.row_late images.now part.now free top row.now) }
{
    Ok(NodeRow {
        id: free + rank_in(part, row.id),
        control: row.control,
        parent: place_late(images, part, free, top, row.parent),
        links: row.links.copy(alloc)?,
    })
}

fn place_late(images: &[u32], part: &[u32], free: u32, top: Place, place: Place) -> Place
    requires images { IsStrictlySortedBy nat_cmp images.now }
    requires part { IsStrictlySortedBy nat_cmp part.now }
    requires room { free + length part.now ≤ largest_counter }
    ensures { result ≡ copying.place_late images.now part.now free top place }
{
    match place {
        Place::Node(node) => node_late(images, part, free, top, node),
        Place::Region(_) => place,
    }
}

fn node_late(images: &[u32], part: &[u32], free: u32, top: Place, node: u32) -> Place
    requires images { IsStrictlySortedBy nat_cmp images.now }
    requires part { IsStrictlySortedBy nat_cmp part.now }
    requires room { free + length part.now ≤ largest_counter }
    ensures { result ≡ copying.place_late images.now part.now free top (Node node) }
{
    if is_one_of(images, node) {
        top
    } else {
        Place::Node(free + rank_in(part, node))
    }
}

/// How many nodes of the part come before the node; all of them where it is not there.
fn rank_in(part: &[u32], node: u32) -> u32
    requires part { IsStrictlySortedBy nat_cmp part.now }
    requires few { length part.now ≤ largest_counter }
    ensures rank { result ≡ copying.rank_in part.now node }
    ensures within { result ≤ length part.now }
{
    match part.binary_search(&node) {
        Ok(rank) => rank as u32,
        Err(_) => part.len() as u32,
    }
}
