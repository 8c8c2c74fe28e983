//! The link part of composition.
ghost use Rattle.std.specs.Prelude.{◌≡◌, ◌++◌, map, IfOk};
ghost use Rattle.std.specs.List.Sorted.{IsStrictlySortedBy};
ghost use Rattle.std.specs.Ordering.{nat_cmp};
ghost use Rattle.bg_lists.specs.Lists.{sort};
ghost use Rattle.bg_lists.specs.Orders.{before};
ghost use Rattle.bg_base.specs.Bigraph.{IsValid, node_cmp, inner_cmp};
ghost use Rattle.bg_base.specs.Composition as whole;
ghost use Rattle.bg_base.specs.Composition.{SupportsApart, inner_names};
ghost use Rattle.bg_link.specs.Links as defined;
ghost use Rattle.bg_link.specs.Rows.{port_cmp};

use crate::graph::port_rows;
use crate::through::{inner_through, links_through};
use crate::{Links, PortRow};
use bg_base::{Big, NodeRow};
use bg_lists::{Duplicate, Mem, Rows, merged};
use std::alloc::Global;

/// The link part of the composition of `g` and `f` (Milner, chapter 2): what is tied to outer name `y` of `f` is tied
/// to the link of inner name `y` of `g`. The outer names of `f` are the inner names of `g`, and no node and no edge is
/// in both. The places of the two play no part. Costs time in proportion to nodes and edges, for each port and inner
/// name of `f` the logarithm of the number of inner names of `g`, with a comparison of names at each step of a search,
/// and memory in proportion to both and to the result: each port of `f` gets a copy of the name that its link becomes.
pub fn compose_links(alloc: Global, g: &Big, f: &Big) -> Mem<Links>
    requires g_valid { IsValid g.now }
    requires f_valid { IsValid f.now }
    requires names { f.now.outer ≡ inner_names g.now.inner }
    requires apart { SupportsApart g.now f.now }
    ensures { IfOk result (λ links. links ≡ defined.links_of (whole.compose g.now f.now)) }
{
    Ok(Links {
        edges: sorted_edges(alloc, &g.edges, &f.edges)?,
        inner: inner_through(alloc, g, f.inner.as_slice())?,
        outer: g.outer.copy(alloc)?,
        ports: ports_through(alloc, g, f)?,
    })
}

/// The edges of both, ascending, where those of each do. Costs time and memory in proportion to their number.
pub fn sorted_edges(alloc: Global, upper: &Rows<u32>, lower: &Rows<u32>) -> Mem<Rows<u32>>
    requires upper_ascends { IsStrictlySortedBy nat_cmp upper.now }
    requires lower_ascends { IsStrictlySortedBy nat_cmp lower.now }
    ensures { IfOk result (λ edges. edges ≡ sort (before nat_cmp) (upper.now ++ lower.now)) }
{
    let first = upper.copy(alloc)?.into_vec();
    let second = lower.copy(alloc)?.into_vec();
    Rows::try_from_vec(merged(alloc, first, second)?)
}

/// The nodes of both with the links of their ports, by number.
fn ports_through(alloc: Global, g: &Big, f: &Big) -> Mem<Rows<PortRow>>
    requires g_ascends { IsStrictlySortedBy node_cmp g.now.nodes }
    requires f_ascends { IsStrictlySortedBy node_cmp f.now.nodes }
    requires ascending { IsStrictlySortedBy inner_cmp g.now.inner }
    ensures { IfOk result (λ rows. rows ≡ sort (before port_cmp) (defined.joined_ports g.now f.now)) }
{
    let upper = port_rows(alloc, &g.nodes)?;
    let lower = lower_ports(alloc, g, &f.nodes)?;
    Rows::try_from_vec(merged(alloc, upper, lower)?)
}

/// The nodes of the lower bigraph with their links in the composition. Costs memory in proportion to the result, and
/// for each port the logarithm of the number of inner names of `g`.
fn lower_ports(alloc: Global, g: &Big, lower: &[NodeRow]) -> Mem<Vec<PortRow>>
    requires ascending { IsStrictlySortedBy inner_cmp g.now.inner }
    ensures { IfOk result (λ rows. rows.items ≡ map (defined.ports_through g.now) lower.now) }
{
    let mut rows = Vec::with_capacity(alloc, lower.len())?;
    for row in lower {
        rows.push(PortRow {
            node: row.id,
            links: links_through(alloc, g, row.links.as_slice())?,
        })?;
    }
    Ok(rows)
}
