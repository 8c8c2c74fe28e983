//! The end of a whole expression.
ghost use Rattle.std.specs.Prelude.{◌≡◌, IfOk, IsTrue, All, length, map};
ghost use Rattle.bg_base.specs.declared.names.Link.TheVariants.{Edge};
ghost use Rattle.bg_base.specs.Products.{has_point};
ghost use Rattle.bg_base.specs.Bigraph.{IsValid};
ghost use Rattle.bg_base.specs.Elementary.{counted};
ghost use Rattle.bg_base.specs.Translation.{node_numbers};
ghost use Rattle.bg_machine.specs.Whole as definition;

use bg_algebra::{lean, rename};
use bg_base::{Big, NodeRow};
use bg_lists::Mem;
use std::alloc::Global;

/// The bigraph of a whole expression, by what its term comes to: its idle edges are dropped, and the others numbered 0,
/// 1, 2 and so on in their order, which is that of their closures in the expanded text. One without edges is moved; else it
/// costs time n log n in its size.
pub fn whole(alloc: Global, big: Big) -> Mem<Big>
    requires valid { IsValid big }
    ensures value { IfOk result (λ made. made ≡ definition.whole big) }
    ensures valid { IfOk result IsValid }
    ensures edges_used { IfOk result (λ made. All (λ edge. IsTrue (has_point made (Edge edge))) made.edges) }
{
    if big.edges.is_empty() {
        return Ok(big);
    }
    numbered_anew(alloc, &big)
}

/// The bigraph without its idle edges, and with the others numbered 0, 1, 2 and so on.
fn numbered_anew(alloc: Global, big: &Big) -> Mem<Big>
    requires valid { IsValid big.now }
    ensures value { IfOk result (λ made. made ≡ definition.whole big.now) }
    ensures valid { IfOk result IsValid }
    ensures edges_used { IfOk result (λ made. All (λ edge. IsTrue (has_point made (Edge edge))) made.edges) }
{
    let lean = lean(alloc, big)?;
    let made = edges_counted(alloc, &lean)?;
    Ok(made)
}

/// The bigraph with its edges numbered 0, 1, 2 and so on.
#[tactic(auto, using(crate::proofs::Wholes::edges_differ, crate::proofs::Wholes::as_many_edges, crate::proofs::Wholes::nodes_differ, crate::proofs::Wholes::as_many_nodes))]
fn edges_counted(alloc: Global, big: &Big) -> Mem<Big>
    requires valid { IsValid big.now }
    ensures value { IfOk result (λ made. made ≡ definition.edges_counted big.now) }
    ensures valid { IfOk result IsValid }
{
    let nodes = numbers_of(alloc, big.nodes.as_slice())?;
    let edges = numbers_below(alloc, big.edges.len())?;
    let made = rename(alloc, big, nodes.as_slice(), edges.as_slice())?;
    Ok(made)
}

/// The numbers of the nodes, in their order.
fn numbers_of(alloc: Global, rows: &[NodeRow]) -> Mem<Vec<u32>>
    ensures { IfOk result (λ numbers. numbers.items ≡ node_numbers rows.now) }
{
    let mut numbers = Vec::with_capacity(alloc, rows.len())?;
    for row in rows {
        numbers.push(row.id)?;
    }
    Ok(numbers)
}

/// 0, 1, 2 and so on, so many. Costs time and memory in proportion to their number.
#[tactic(auto, using(bg_base::proofs::Counted::counted_more))]
pub fn numbers_below(alloc: Global, count: u32) -> Mem<Vec<u32>>
    ensures { IfOk result (λ numbers. numbers.items ≡ counted 0 count) }
{
    let mut numbers = Vec::new(alloc);
    for number in 0..count {
        numbers.push(number)?;
    }
    Ok(numbers)
}
