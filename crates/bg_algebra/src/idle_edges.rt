//! Idle edges dropped.
ghost use Rattle.std.specs.Prelude.{◌≡◌, ◌<◌, ◌-◌, ◌^◌, ◌==◌, List, not, length, filter, IfOk};
ghost use Rattle.bg_base.specs.declared.names.Link.TheVariants.{Edge};
ghost use Rattle.bg_base.specs.declared.signature.Control.{Control};
ghost use Rattle.bg_base.specs.Bigraph.{IsValid, IsValidUnder};
ghost use Rattle.bg_base.specs.Products as product;
ghost use Rattle.bg_link.specs.Links.{degree_of};

use bg_base::{Big, Link};
use bg_link::Wiring;
use bg_lists::{Duplicate, Mem, Rows};
use std::alloc::Global;

/// The bigraph without the edges that have no point (Milner, chapter 2: a lean bigraph has no idle edge). Outer names
/// stay, also those that have none. Costs time n log n in the size of the bigraph, and memory in proportion to it.
pub fn lean(alloc: Global, big: &Big) -> Mem<Big>
    requires valid { IsValid big.now }
    ensures value { IfOk result (λ made. made ≡ product.lean big.now) }
    ensures valid { IfOk result IsValid }
    ensures fits { (signature : List Control) → IsValidUnder signature big.now → IfOk result (IsValidUnder signature) }
{
    let edges = edges_with_points(alloc, big)?;
    let made = with_edges(alloc, big, edges)?;
    Ok(made)
}

/// The edges of the bigraph that have a point.
fn edges_with_points(alloc: Global, big: &Big) -> Mem<Rows<u32>>
    requires valid { IsValid big.now }
    ensures { IfOk result (λ made. made ≡ filter (λ edge. product.has_point big.now (Edge edge)) big.now.edges) }
{
    let wiring = Wiring::of(alloc, big)?;
    let made = used_edges(alloc, &wiring, big.edges.as_slice())?;
    Ok(made)
}

/// The bigraph with these edges.
fn with_edges(alloc: Global, big: &Big, edges: Rows<u32>) -> Mem<Big>
    ensures { IfOk result (λ made. made ≡ record big.now { edges = edges }) }
{
    Ok(Big {
        nodes: big.nodes.copy(alloc)?,
        edges,
        sites: big.sites.copy(alloc)?,
        inner: big.inner.copy(alloc)?,
        regions: big.regions,
        outer: big.outer.copy(alloc)?,
    })
}

/// Those of the edges that have a point, by the wiring.
fn used_edges(alloc: Global, wiring: &Wiring, edges: &[u32]) -> Mem<Rows<u32>>
    ensures { IfOk result (λ made. made ≡ filter (λ edge. not (degree_of wiring.now (Edge edge) == 0)) edges.now) }
{
    let mut made = Vec::new(alloc);
    for edge in edges {
        if wiring.degree(&Link::Edge(*edge)) != 0 {
            made.push(*edge)?;
        }
    }
    Rows::try_from_vec(made)
}
