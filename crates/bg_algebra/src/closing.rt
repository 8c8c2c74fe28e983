//! A name closed.
ghost use Rattle.std.specs.Prelude.{◌≡◌, ◌<◌, ◌-◌, ◌^◌, ◌↔◌, List, [], ◌∷◌, length, map, filter, not, Some, None, IsSome, IsNone, IfOk, IfErr, OnOk, IsErrOf, Contains};
ghost use Rattle.std.specs.List.Sorted.{IsStrictlySortedBy};
ghost use Rattle.std.specs.Ordering.{is_eq, nat_cmp};
ghost use Rattle.bg_lists.specs.Lists.{put};
ghost use Rattle.bg_lists.specs.Orders.{before};
ghost use Rattle.bg_base.specs.declared.signature.Control.{Control};
ghost use Rattle.bg_base.specs.Order.{name_cmp};
ghost use Rattle.bg_base.specs.Bigraph.{IsValid, IsValidUnder, edge_of, outer_of};
ghost use Rattle.bg_base.specs.Products as product;

use crate::AlgebraFault;
use bg_base::{Big, InnerRow, Link, LinkVec, Name, NodeRow, PortLinks, has_edge, has_outer};
use bg_lists::{Duplicate, Mem, Rows};
use std::alloc::Global;

/// The bigraph with the outer name made the edge `edge` (Milner, chapter 3: closure). What was tied to the name is tied
/// to the edge, which is there also where nothing was.
/// It refuses, in this order: `NoSuchName`, number 16, where the name is no outer name; `SupportMeets`, number 12,
/// where the edge is there. Costs time and memory in proportion to the bigraph.
pub fn close(alloc: Global, f: &Big, name: &Name, edge: u32) -> Result<Big, AlgebraFault>
    requires valid { IsValid f.now }
    ensures closed { IfOk result (λ whole. whole ≡ product.close f.now name.now edge) }
    ensures defined { OnOk result (IsSome (outer_of f.now.outer name.now) × IsNone (edge_of f.now.edges edge)) }
    ensures name_there { IsErrOf result AlgebraFault.NoSuchName ↔ IsNone (outer_of f.now.outer name.now) }
    ensures supports { IsErrOf result AlgebraFault.SupportMeets ↔ (IsSome (outer_of f.now.outer name.now) × IsSome (edge_of f.now.edges edge)) }
    ensures no_other { IfErr result (λ fault. Contains (AlgebraFault.NoSuchName ∷ AlgebraFault.SupportMeets ∷ AlgebraFault.OutOfMemory ∷ []) fault) }
    ensures valid { IfOk result IsValid }
    ensures fits { (signature : List Control) → IsValidUnder signature f.now → IfOk result (IsValidUnder signature) }
{
    if !has_outer(&f.outer, name) {
        return Err(AlgebraFault::NoSuchName);
    }
    if has_edge(&f.edges, edge) {
        return Err(AlgebraFault::SupportMeets);
    }
    Ok(closed(alloc, f, name, edge)?)
}

/// The bigraph with the name closed by a new edge.
fn closed(alloc: Global, f: &Big, name: &Name, edge: u32) -> Mem<Big>
    requires valid { IsValid f.now }
    requires new { IsNone (edge_of f.now.edges edge) }
    ensures { IfOk result (λ whole. whole ≡ product.close f.now name.now edge) }
{
    Ok(Big {
        nodes: closed_nodes(alloc, f.nodes.as_slice(), name, edge)?,
        edges: with_edge(alloc, &f.edges, edge)?,
        sites: f.sites.copy(alloc)?,
        inner: closed_inner(alloc, f.inner.as_slice(), name, edge)?,
        regions: f.regions,
        outer: names_without(alloc, f.outer.as_slice(), name)?,
    })
}

/// The link, where the name is made the edge.
fn closed_link(alloc: Global, link: &Link, name: &Name, edge: u32) -> Mem<Link>
    ensures { IfOk result (λ made. made ≡ product.link_closed name.now edge link.now) }
{
    match link {
        Link::Edge(other) => Ok(Link::Edge(*other)),
        Link::Outer(other) => {
            if is_name(other, name) {
                Ok(Link::Edge(edge))
            } else {
                Ok(Link::Outer(other.copy(alloc)?))
            }
        }
    }
}

/// Whether the two names are the same.
fn is_name(other: &Name, name: &Name) -> bool
    ensures { result ≡ is_eq (name_cmp other.now name.now) }
{
    other.cmp(name).is_eq()
}

fn closed_link_list(alloc: Global, links: &[Link], name: &Name, edge: u32) -> Mem<LinkVec>
    ensures { IfOk result (λ made. made.items ≡ map (product.link_closed name.now edge) links.now) }
{
    let mut made = LinkVec::new(alloc);
    for link in links {
        made.push(closed_link(alloc, link, name, edge)?)?;
    }
    Ok(made)
}

fn closed_row(alloc: Global, row: &NodeRow, name: &Name, edge: u32) -> Mem<NodeRow>
    ensures { IfOk result (λ made. made ≡ product.row_closed name.now edge row.now) }
{
    let links = closed_link_list(alloc, row.links.as_slice(), name, edge)?;
    Ok(NodeRow {
        id: row.id,
        control: row.control,
        parent: row.parent,
        links: PortLinks::from_small_vec(links),
    })
}

fn closed_nodes(alloc: Global, rows: &[NodeRow], name: &Name, edge: u32) -> Mem<Rows<NodeRow>>
    requires few { length rows.now < 2 ^ 32 - 1 }
    ensures { IfOk result (λ made. made ≡ map (product.row_closed name.now edge) rows.now) }
{
    let mut made = Vec::new(alloc);
    for row in rows {
        made.push(closed_row(alloc, row, name, edge)?)?;
    }
    Ok(Rows::from_vec(made))
}

fn closed_inner(alloc: Global, rows: &[InnerRow], name: &Name, edge: u32) -> Mem<Rows<InnerRow>>
    requires few { length rows.now < 2 ^ 32 - 1 }
    ensures { IfOk result (λ made. made ≡ map (product.inner_closed name.now edge) rows.now) }
{
    let mut made = Vec::new(alloc);
    for row in rows {
        let link = closed_link(alloc, &row.link, name, edge)?;
        made.push(InnerRow {
            name: row.name.copy(alloc)?,
            link,
        })?;
    }
    Ok(Rows::from_vec(made))
}

/// The edges with that one among them, which was not there.
fn with_edge(alloc: Global, edges: &Rows<u32>, edge: u32) -> Mem<Rows<u32>>
    requires ascending { IsStrictlySortedBy nat_cmp edges.now }
    requires new { IsNone (edge_of edges.now edge) }
    ensures { IfOk result (λ made. made ≡ put (before nat_cmp) edge edges.now) }
{
    let mut made = Vec::new(alloc);
    made.push(edge)?;
    made.extend_from_slice(edges.as_slice())?;
    made.sort_unstable();
    Rows::try_from_vec(made)
}

/// The names without that one.
fn names_without(alloc: Global, names: &[Name], name: &Name) -> Mem<Rows<Name>>
    requires few { length names.now < 2 ^ 32 - 1 }
    ensures { IfOk result (λ made. made ≡ filter (λ other. not (is_eq (name_cmp other name.now))) names.now) }
{
    let mut made = Vec::new(alloc);
    for other in names {
        if !is_name(other, name) {
            made.push(other.copy(alloc)?)?;
        }
    }
    Rows::try_from_vec(made)
}
