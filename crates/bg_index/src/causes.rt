//! Why nodes are touched by a reaction: what is gone, what is new, what lies elsewhere, what has other children, and which
//! links have other points.
ghost use Rattle.std.specs.Prelude.{◌≡◌, ◌↔◌, ◌++◌, ◌<◌, ℕ, IfOk, OnOk, length};
ghost use Rattle.std.specs.List.Sorted.{IsStrictlySortedBy};
ghost use Rattle.std.specs.Ordering.{nat_cmp};
ghost use Rattle.bg_lists.specs.Lists.{Mem as Member};
ghost use Rattle.bg_index.specs.Indexed.{edges_of};
ghost use Rattle.bg_index.specs.Noting as noting;
ghost use Rattle.bg_index.specs.Telling as telling;

use crate::IndexedHost;
use crate::entries::{EdgeEntry, NodeEntry};
use crate::plans::{Bundle, LinkKey, Move, Plan};
use crate::sets::number_set;
use crate::touched::{note_moves, note_nests};
use bg_base::Link;
use bg_lists::{Duplicate, Mem};
use std::alloc::Global;

/// A link whose points are others than before, and the number of points that it had.
#[derive(Drop)]
pub struct Relinked {
    pub link: Link,
    pub degree: u32,
}

/// Why nodes are touched by a reaction. `gone` has exactly the nodes that were there before and are not there now. A node that
/// is there now is new where its number is `next_node` or above, and no other is. `moved` has exactly the nodes that were
/// there and have another parent now, `reshaped` exactly those that are there now and have other children than before (a new
/// one had none). These three lists ascend. `relinked` has exactly the links whose points are others, each once: an edge or
/// name that is no longer there or has no points left, and one that is new, are among them; the degree is that before, 0
/// where the link was not there.
#[derive(Drop)]
pub struct Causes {
    pub gone: Vec<u32>,
    pub next_node: u32,
    pub moved: Vec<u32>,
    pub reshaped: Vec<u32>,
    pub relinked: Vec<Relinked>,
}

/// What a reaction of the host by the plan does. Costs time n log n, and memory n, in the number of nodes and links that the
/// plan names; and for each link a look-up of its points.
pub fn causes_of(alloc: Global, host: &IndexedHost, plan: &Plan) -> Mem<Causes>
    requires named { (at : ℕ) → Member at (telling.names_bundled plan.now.bundles.items) → at < length host.now.big.outer }
    ensures { IfOk result (telling.IsToldBy host.now plan.now) }
{
    let gone = Vec::from_slice(alloc, &plan.gone)?;
    let next_node = host.next_node();
    let moved = moved_by(alloc, &plan.moves)?;
    let reshaped = reshaped_by(alloc, plan)?;
    let relinked = relinked_by(alloc, host, plan)?;
    Ok(Causes {
        gone,
        next_node,
        moved,
        reshaped,
        relinked,
    })
}

/// The nodes that move.
fn moved_by(alloc: Global, moves: &[Move]) -> Mem<Vec<u32>>
    ensures { IfOk result (λ nodes. nodes.items ≡ telling.nodes_moved moves.now) }
{
    let mut nodes = Vec::new(alloc);
    note_moves(moves, &mut nodes)?;
    Ok(nodes)
}

/// The new nodes in which something is to lie, and the nodes that get other children, ascending.
fn reshaped_by(alloc: Global, plan: &Plan) -> Mem<Vec<u32>>
    ensures ascending { IfOk result (λ nodes. IsStrictlySortedBy nat_cmp nodes.items) }
    ensures are { IfOk result (λ nodes. (node : ℕ) → (Member node nodes.items ↔ Member node (telling.reshaped_by plan.now))) }
{
    let mut nodes = Vec::new(alloc);
    note_filled(&plan.entries, &mut nodes)?;
    note_nests(&plan.nests, &mut nodes)?;
    let set = number_set(nodes);
    Ok(set)
}

/// Puts the new nodes in which something is to lie behind the others.
fn note_filled(entries: &[NodeEntry], nodes: &mut Vec<u32>) -> Mem<()>
    ensures { OnOk result (nodes.new.items ≡ nodes.old.items ++ telling.entries_filled entries.now) }
{
    for entry in entries {
        if !entry.children.is_empty() {
            nodes.push(entry.row.id)?;
        }
    }
    Ok(())
}

/// The links whose points are to be others, each with its degree in the host.
fn relinked_by(alloc: Global, host: &IndexedHost, plan: &Plan) -> Mem<Vec<Relinked>>
    requires named { (at : ℕ) → Member at (telling.names_bundled plan.now.bundles.items) → at < length host.now.big.outer }
    ensures { IfOk result (λ relinked. telling.AreTold host.now.big plan.now relinked.items) }
{
    let edges = edges_by(alloc, plan)?;
    let names = names_by(alloc, &plan.bundles)?;
    let mut relinked = Vec::new(alloc);
    tell_edges(host, &edges, &mut relinked)?;
    tell_names(alloc, host, &names, &mut relinked)?;
    Ok(relinked)
}

/// The edges that get other points, those that go, and those that come, ascending.
fn edges_by(alloc: Global, plan: &Plan) -> Mem<Vec<u32>>
    ensures ascending { IfOk result (λ edges. IsStrictlySortedBy nat_cmp edges.items) }
    ensures are { IfOk result (λ edges. (edge : ℕ) → (Member edge edges.items ↔ Member edge (telling.edges_relinked plan.now))) }
{
    let mut edges = Vec::new(alloc);
    note_edges(&plan.bundles, &mut edges)?;
    edges.extend_from_slice(&plan.idle)?;
    note_used(&plan.used, &mut edges)?;
    let set = number_set(edges);
    Ok(set)
}

/// Puts the edges among the links behind the others.
fn note_edges(bundles: &[Bundle], edges: &mut Vec<u32>) -> Mem<()>
    ensures { OnOk result (edges.new.items ≡ edges.old.items ++ telling.edges_bundled bundles.now) }
{
    for bundle in bundles {
        note_edge(bundle.key, edges)?;
    }
    Ok(())
}

/// Puts the link behind the others, where it is an edge.
fn note_edge(key: LinkKey, edges: &mut Vec<u32>) -> Mem<()>
    ensures { OnOk result (edges.new.items ≡ edges.old.items ++ telling.edge_keyed key) }
{
    if let LinkKey::Edge(edge) = key {
        edges.push(edge)?;
    }
    Ok(())
}

/// Puts the new edges behind the others.
fn note_used(used: &[EdgeEntry], edges: &mut Vec<u32>) -> Mem<()>
    ensures { OnOk result (edges.new.items ≡ edges.old.items ++ edges_of used.now) }
{
    for entry in used {
        edges.push(entry.edge)?;
    }
    Ok(())
}

/// The outer names that get other points, by their positions, ascending.
fn names_by(alloc: Global, bundles: &[Bundle]) -> Mem<Vec<u32>>
    ensures ascending { IfOk result (λ names. IsStrictlySortedBy nat_cmp names.items) }
    ensures are { IfOk result (λ names. (at : ℕ) → (Member at names.items ↔ Member at (telling.names_bundled bundles.now))) }
{
    let mut names = Vec::new(alloc);
    note_names(bundles, &mut names)?;
    let set = number_set(names);
    Ok(set)
}

/// Puts the positions of the outer names among the links behind the others.
fn note_names(bundles: &[Bundle], names: &mut Vec<u32>) -> Mem<()>
    ensures { OnOk result (names.new.items ≡ names.old.items ++ telling.names_bundled bundles.now) }
{
    for bundle in bundles {
        note_name(bundle.key, names)?;
    }
    Ok(())
}

/// Puts the position behind the others, where the link is an outer name.
fn note_name(key: LinkKey, names: &mut Vec<u32>) -> Mem<()>
    ensures { OnOk result (names.new.items ≡ names.old.items ++ telling.name_keyed key) }
{
    if let LinkKey::Name(at) = key {
        names.push(at)?;
    }
    Ok(())
}

/// Puts the edges behind the others, each with its degree.
fn tell_edges(host: &IndexedHost, edges: &[u32], relinked: &mut Vec<Relinked>) -> Mem<()>
    ensures { OnOk result (relinked.new.items ≡ relinked.old.items ++ telling.edges_told host.now.big edges.now) }
{
    for edge in edges {
        relinked.push(with_degree(host, Link::Edge(*edge)))?;
    }
    Ok(())
}

/// Puts the outer names at the positions behind the others, each with its degree.
fn tell_names(
    alloc: Global,
    host: &IndexedHost,
    names: &[u32],
    relinked: &mut Vec<Relinked>,
) -> Mem<()>
    requires there { (at : ℕ) → Member at names.now → at < length host.now.big.outer }
    ensures { OnOk result (relinked.new.items ≡ relinked.old.items ++ telling.names_told host.now.big names.now) }
{
    for at in names {
        let link = name_link(alloc, host, *at)?;
        relinked.push(with_degree(host, link))?;
    }
    Ok(())
}

/// The outer name at that position, as a link.
fn name_link(alloc: Global, host: &IndexedHost, at: u32) -> Mem<Link>
    requires there { at < length host.now.big.outer }
    ensures { IfOk result (λ link. link ≡ noting.name_at host.now.big.outer at) }
{
    let name = host.name(at).copy(alloc)?;
    Ok(Link::Outer(name))
}

/// The link with its degree.
fn with_degree(host: &IndexedHost, link: Link) -> Relinked
    ensures { result ≡ telling.told_of host.now.big link }
{
    let degree = host.degree(&link);
    Relinked { link, degree }
}
