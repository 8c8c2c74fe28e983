//! The link part of products.
ghost use Rattle.std.specs.Prelude.{◌≡◌, ◌++◌, IfOk};
ghost use Rattle.std.specs.List.{IsDistinct};
ghost use Rattle.std.specs.List.Sorted.{IsStrictlySortedBy};
ghost use Rattle.std.specs.Ordering.{eq_by_cmp};
ghost use Rattle.bg_lists.specs.Lists.{sort};
ghost use Rattle.bg_lists.specs.Orders.{before, set_of};
ghost use Rattle.bg_base.specs.Bigraph.{IsValid, node_cmp, inner_cmp};
ghost use Rattle.bg_base.specs.Composition.{SupportsApart};
ghost use Rattle.bg_base.specs.Order.{name_cmp};
ghost use Rattle.bg_base.specs.Products as whole;
ghost use Rattle.bg_base.specs.Products.{InnerApart, OuterApart};
ghost use Rattle.bg_link.specs.Links as defined;
ghost use Rattle.bg_link.specs.Rows.{port_cmp};

use crate::composition::sorted_edges;
use crate::graph::port_rows;
use crate::{Links, PortRow};
use bg_base::{Big, InnerRow, Name};
use bg_lists::{Duplicate, Mem, Rows, merged};
use std::alloc::Global;

/// The link part of the tensor product of `f` and `g` (Milner, chapter 2): both side by side, where no name is in both.
/// Costs time in proportion to nodes, ports and edges, and n log n in the number of names, with a comparison of names
/// at each step of a sort of names; memory in proportion to both.
pub fn tensor_links(alloc: Global, f: &Big, g: &Big) -> Mem<Links>
    requires f_valid { IsValid f.now }
    requires g_valid { IsValid g.now }
    requires inner_apart { InnerApart f.now g.now }
    requires outer_apart { OuterApart f.now g.now }
    requires apart { SupportsApart f.now g.now }
    ensures { IfOk result (λ links. links ≡ defined.links_of (whole.tensor f.now g.now)) }
{
    let links = share_links(alloc, f, g)?;
    Ok(links)
}

/// The link part of the parallel product of `f` and `g` (Milner, chapter 3): both side by side, and an outer name that
/// both have is one link; no inner name, no node and no edge is in both. Costs time in proportion to nodes, ports and
/// edges, and n log n in the number of names, with a comparison of names at each step of a sort of names; memory in
/// proportion to both.
pub fn share_links(alloc: Global, f: &Big, g: &Big) -> Mem<Links>
    requires f_valid { IsValid f.now }
    requires g_valid { IsValid g.now }
    requires inner_apart { InnerApart f.now g.now }
    requires apart { SupportsApart f.now g.now }
    ensures { IfOk result (λ links. links ≡ defined.links_of (whole.parallel f.now g.now)) }
{
    Ok(Links {
        edges: sorted_edges(alloc, &f.edges, &g.edges)?,
        inner: both_inner(alloc, &f.inner, &g.inner)?,
        outer: shared_names(alloc, &f.outer, &g.outer)?,
        ports: both_ports(alloc, f, g)?,
    })
}

/// The nodes of both with the links of their ports, by number. Costs time and memory in proportion to nodes, ports and
/// names.
fn both_ports(alloc: Global, f: &Big, g: &Big) -> Mem<Rows<PortRow>>
    requires f_ascends { IsStrictlySortedBy node_cmp f.now.nodes }
    requires g_ascends { IsStrictlySortedBy node_cmp g.now.nodes }
    ensures { IfOk result (λ rows. rows ≡ sort (before port_cmp) (defined.both_ports f.now g.now)) }
{
    let left = port_rows(alloc, &f.nodes)?;
    let right = port_rows(alloc, &g.nodes)?;
    Rows::try_from_vec(merged(alloc, left, right)?)
}

/// The inner names of both with their links, by name, where they differ. Costs n log n comparisons of names, and memory
/// in proportion to both.
pub fn both_inner(
    alloc: Global,
    rows: &Rows<InnerRow>,
    others: &Rows<InnerRow>,
) -> Mem<Rows<InnerRow>>
    requires apart { IsDistinct (eq_by_cmp inner_cmp) (rows.now ++ others.now) }
    ensures { IfOk result (λ made. made ≡ sort (before inner_cmp) (rows.now ++ others.now)) }
{
    let rows = rows.copy(alloc)?.into_vec();
    sorted_inner(joined(alloc, rows, others)?)
}

/// The names of both in their order; a name that both have is one. Costs n log n comparisons of names, and memory in
/// proportion to both.
pub fn shared_names(alloc: Global, names: &Rows<Name>, others: &Rows<Name>) -> Mem<Rows<Name>>
    ensures { IfOk result (λ made. made ≡ set_of name_cmp (names.now ++ others.now)) }
{
    let names = names.copy(alloc)?.into_vec();
    name_set(joined(alloc, names, others)?)
}

/// The names in their order, each once. Takes no memory; costs n log n comparisons of names.
pub fn name_set(mut names: Vec<Name>) -> Mem<Rows<Name>>
    ensures { IfOk result (λ set. set ≡ set_of name_cmp names.items) }
{
    names.sort_unstable();
    names.dedup();
    Rows::try_from_vec(names)
}

/// The rows by name, where their names differ. Takes no memory.
fn sorted_inner(mut rows: Vec<InnerRow>) -> Mem<Rows<InnerRow>>
    requires apart { IsDistinct (eq_by_cmp inner_cmp) rows.items }
    ensures { IfOk result (λ sorted. sorted ≡ sort (before inner_cmp) rows.items) }
{
    rows.sort_unstable_by(|x, y| x.name.cmp(&y.name));
    Rows::try_from_vec(rows)
}

/// The rows, and then copies of the others.
fn joined<T: Duplicate>(alloc: Global, mut rows: Vec<T>, others: &[T]) -> Mem<Vec<T>>
    ensures { IfOk result (λ made. made.items ≡ rows.items ++ others.now) }
{
    for other in others {
        rows.push(other.copy(alloc)?)?;
    }
    Ok(rows)
}
