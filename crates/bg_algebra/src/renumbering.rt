//! Nodes and edges numbered anew.
ghost use Rattle.std.specs.Prelude.{◌≡◌, ◌<◌, ◌-◌, ◌^◌, ◌++◌, List, length, map, IfOk, OnOk};
ghost use Rattle.std.specs.List.{IsDistinct};
ghost use Rattle.std.specs.List.Sorted.{IsStrictlySortedBy};
ghost use Rattle.std.specs.Ordering.{nat_cmp, eq_by_cmp};
ghost use Rattle.bg_lists.specs.Lists.{sort};
ghost use Rattle.bg_lists.specs.Orders.{before};
ghost use Rattle.bg_base.specs.declared.signature.Control.{Control};
ghost use Rattle.bg_base.specs.Bigraph.{IsValid, IsValidUnder, node_cmp};
ghost use Rattle.bg_base.specs.Translation as translation;

use bg_base::{Big, InnerRow, Link, LinkVec, NodeRow, Place, PortLinks};
use bg_lists::{Duplicate, Mem, Rows};
use std::alloc::Global;

/// The bigraph with these numbers for its nodes and these for its edges, in the order of its rows (Milner, chapter 2:
/// support translation). There are as many numbers as nodes, and as edges; they need not ascend, and none repeats.
/// Costs time n log n in the size of the bigraph, and memory in proportion to it.
pub fn rename(alloc: Global, big: &Big, nodes: &[u32], edges: &[u32]) -> Mem<Big>
    requires valid { IsValid big.now }
    requires as_many_nodes { length big.now.nodes ≡ length nodes.now }
    requires as_many_edges { length big.now.edges ≡ length edges.now }
    requires nodes_differ { IsDistinct (eq_by_cmp nat_cmp) nodes.now }
    requires edges_differ { IsDistinct (eq_by_cmp nat_cmp) edges.now }
    ensures value { IfOk result (λ made. made ≡ translation.rename big.now nodes.now edges.now) }
    ensures valid { IfOk result IsValid }
    ensures fits { (signature : List Control) → IsValidUnder signature big.now → IfOk result (IsValidUnder signature) }
{
    Ok(Big {
        nodes: renamed_nodes(alloc, big, nodes, edges)?,
        edges: in_order(alloc, edges)?,
        sites: renamed_sites(alloc, big, nodes, big.sites.as_slice())?,
        inner: renamed_inner(alloc, big, edges, big.inner.as_slice())?,
        regions: big.regions,
        outer: big.outer.copy(alloc)?,
    })
}

/// The new number of the node.
fn new_node(big: &Big, nodes: &[u32], node: u32) -> u32
    requires ascending { IsStrictlySortedBy node_cmp big.now.nodes }
    requires as_many { length big.now.nodes ≡ length nodes.now }
    ensures { result ≡ translation.number_renamed (translation.node_numbers big.now.nodes) nodes.now node }
{
    match big.nodes.binary_search_by_key(&node, |row| row.id) {
        Ok(at) => nodes[at],
        Err(_) => node,
    }
}

/// The new number of the edge.
fn new_edge(big: &Big, edges: &[u32], edge: u32) -> u32
    requires ascending { IsStrictlySortedBy nat_cmp big.now.edges }
    requires as_many { length big.now.edges ≡ length edges.now }
    ensures { result ≡ translation.number_renamed big.now.edges edges.now edge }
{
    match big.edges.binary_search(&edge) {
        Ok(at) => edges[at],
        Err(_) => edge,
    }
}

fn renamed_place(big: &Big, nodes: &[u32], place: Place) -> Place
    requires ascending { IsStrictlySortedBy node_cmp big.now.nodes }
    requires as_many { length big.now.nodes ≡ length nodes.now }
    ensures { result ≡ translation.place_renamed big.now nodes.now place }
{
    match place {
        Place::Node(node) => Place::Node(new_node(big, nodes, node)),
        Place::Region(_) => place,
    }
}

fn renamed_link(alloc: Global, big: &Big, edges: &[u32], link: &Link) -> Mem<Link>
    requires ascending { IsStrictlySortedBy nat_cmp big.now.edges }
    requires as_many { length big.now.edges ≡ length edges.now }
    ensures { IfOk result (λ made. made ≡ translation.link_renamed big.now edges.now link.now) }
{
    match link {
        Link::Edge(edge) => Ok(Link::Edge(new_edge(big, edges, *edge))),
        Link::Outer(name) => Ok(Link::Outer(name.copy(alloc)?)),
    }
}

fn renamed_links(alloc: Global, big: &Big, edges: &[u32], links: &[Link]) -> Mem<LinkVec>
    requires ascending { IsStrictlySortedBy nat_cmp big.now.edges }
    requires as_many { length big.now.edges ≡ length edges.now }
    ensures { IfOk result (λ made. made.items ≡ map (translation.link_renamed big.now edges.now) links.now) }
{
    let mut made = LinkVec::new(alloc);
    for link in links {
        made.push(renamed_link(alloc, big, edges, link)?)?;
    }
    Ok(made)
}

fn renamed_row(
    alloc: Global,
    big: &Big,
    nodes: &[u32],
    edges: &[u32],
    row: &NodeRow,
) -> Mem<NodeRow>
    requires valid { IsValid big.now }
    requires as_many_nodes { length big.now.nodes ≡ length nodes.now }
    requires as_many_edges { length big.now.edges ≡ length edges.now }
    ensures { IfOk result (λ made. made ≡ translation.row_renamed big.now nodes.now edges.now row.now) }
{
    let links = renamed_links(alloc, big, edges, row.links.as_slice())?;
    Ok(NodeRow {
        id: new_node(big, nodes, row.id),
        control: row.control,
        parent: renamed_place(big, nodes, row.parent),
        links: PortLinks::from_small_vec(links),
    })
}

/// Appends these rows of the bigraph, numbered anew.
fn push_renamed(
    alloc: Global,
    big: &Big,
    nodes: &[u32],
    edges: &[u32],
    rows: &[NodeRow],
    made: &mut Vec<NodeRow>,
) -> Mem<()>
    requires valid { IsValid big.now }
    requires as_many_nodes { length big.now.nodes ≡ length nodes.now }
    requires as_many_edges { length big.now.edges ≡ length edges.now }
    ensures { OnOk result (made.new.items ≡ made.old.items ++ map (translation.row_renamed big.now nodes.now edges.now) rows.now) }
{
    for row in rows {
        made.push(renamed_row(alloc, big, nodes, edges, row)?)?;
    }
    Ok(())
}

/// The nodes by their new numbers.
fn renamed_nodes(alloc: Global, big: &Big, nodes: &[u32], edges: &[u32]) -> Mem<Rows<NodeRow>>
    requires valid { IsValid big.now }
    requires as_many_nodes { length big.now.nodes ≡ length nodes.now }
    requires as_many_edges { length big.now.edges ≡ length edges.now }
    requires apart { IsDistinct (eq_by_cmp node_cmp) (map (translation.row_renamed big.now nodes.now edges.now) big.now.nodes) }
    ensures { IfOk result (λ made. made ≡ sort (before node_cmp) (map (translation.row_renamed big.now nodes.now edges.now) big.now.nodes)) }
{
    let mut made = Vec::new(alloc);
    push_renamed(alloc, big, nodes, edges, &big.nodes, &mut made)?;
    sorted_nodes(made)
}

/// The rows by number, where their numbers differ. Takes no memory.
fn sorted_nodes(mut rows: Vec<NodeRow>) -> Mem<Rows<NodeRow>>
    requires apart { IsDistinct (eq_by_cmp node_cmp) rows.items }
    ensures { IfOk result (λ sorted. sorted ≡ sort (before node_cmp) rows.items) }
{
    rows.sort_unstable_by_key(|row| row.id);
    Rows::try_from_vec(rows)
}

/// The numbers, ascending.
fn in_order(alloc: Global, numbers: &[u32]) -> Mem<Rows<u32>>
    requires differ { IsDistinct (eq_by_cmp nat_cmp) numbers.now }
    ensures { IfOk result (λ made. made ≡ sort (before nat_cmp) numbers.now) }
{
    let mut made = Vec::from_slice(alloc, numbers)?;
    made.sort_unstable();
    Rows::try_from_vec(made)
}

fn renamed_sites(alloc: Global, big: &Big, nodes: &[u32], sites: &[Place]) -> Mem<Rows<Place>>
    requires ascending { IsStrictlySortedBy node_cmp big.now.nodes }
    requires as_many { length big.now.nodes ≡ length nodes.now }
    requires few { length sites.now < 2 ^ 32 - 1 }
    ensures { IfOk result (λ made. made ≡ map (translation.place_renamed big.now nodes.now) sites.now) }
{
    let mut made = Vec::new(alloc);
    for place in sites {
        made.push(renamed_place(big, nodes, *place))?;
    }
    Ok(Rows::from_vec(made))
}

fn renamed_inner(alloc: Global, big: &Big, edges: &[u32], inner: &[InnerRow]) -> Mem<Rows<InnerRow>>
    requires ascending { IsStrictlySortedBy nat_cmp big.now.edges }
    requires as_many { length big.now.edges ≡ length edges.now }
    requires few { length inner.now < 2 ^ 32 - 1 }
    ensures { IfOk result (λ made. made ≡ map (translation.inner_renamed big.now edges.now) inner.now) }
{
    let mut made = Vec::new(alloc);
    for row in inner {
        let link = renamed_link(alloc, big, edges, &row.link)?;
        made.push(InnerRow {
            name: row.name.copy(alloc)?,
            link,
        })?;
    }
    Ok(Rows::from_vec(made))
}
