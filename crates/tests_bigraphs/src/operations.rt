//! Composition, products, nesting and closure by `bg_algebra`: what they make, by its number of nodes, and why they refuse.
ghost use Rattle.std.specs.Prelude.{◌↔◌, ◌<◌, IsTrue, length};
ghost use Rattle.bg_base.specs.Bigraph.{IsValid};

use crate::made::{big_of, plain_name};
use bg_algebra::{AlgebraFault, close, compose, merge, nest, parallel, tensor};
use bg_base::Big;
use bg_lists::{Mem, OutOfMemory};
use std::alloc::Global;

/// An operation on two bigraphs.
#[derive(Clone, Copy)]
enum Op {
    Compose,
    Tensor,
    Parallel,
    Merge,
    Nest,
}

/// `0`
const NOTHING: &str = "bigraph 0\nsites 0\ninner 0\nouter 0\nedges 0\nnodes 0\n";

/// `A.id`
const ROOM: &str = "bigraph 1\nsites 1\nn0\ninner 0\nouter 0\nedges 0\nnodes 1\n0 A r0\n";

/// `B`
const AGENT: &str = "bigraph 1\nsites 0\ninner 0\nouter 0\nedges 0\nnodes 1\n1 B r0\n";

/// `B`, with the number of the room
const FIRST_AGENT: &str = "bigraph 1\nsites 0\ninner 0\nouter 0\nedges 0\nnodes 1\n0 B r0\n";

/// A site; inner name x is tied to an edge, and inner name y to outer name z.
const WIRING: &str =
    "bigraph 1\nsites 1\nr0\ninner 2\nx #0\ny =z\nouter 1\nz\nedges 1\n0\nnodes 0\n";

/// `C{x,y}`, an idle edge, and inner name w tied to y
const WIRED: &str =
    "bigraph 1\nsites 0\ninner 1\nw =y\nouter 2\nx\ny\nedges 1\n7\nnodes 1\n3 C r0 =x =y\n";

/// `K{x}.1`
const AT_X: &str = "bigraph 1\nsites 0\ninner 0\nouter 1\nx\nedges 0\nnodes 1\n0 K r0 =x\n";

/// `K{x}.1`, with another number
const NEXT_AT_X: &str = "bigraph 1\nsites 0\ninner 0\nouter 1\nx\nedges 0\nnodes 1\n1 K r0 =x\n";

/// `K{y}.1`, with that number
const NEXT_AT_Y: &str = "bigraph 1\nsites 0\ninner 0\nouter 1\ny\nedges 0\nnodes 1\n1 K r0 =y\n";

/// `K{y}.1`, with the number of `AT_X`
const AT_Y: &str = "bigraph 1\nsites 0\ninner 0\nouter 1\ny\nedges 0\nnodes 1\n0 K r0 =y\n";

/// `id{x}`
const WIRE: &str = "bigraph 0\nsites 0\ninner 1\nx =x\nouter 1\nx\nedges 0\nnodes 0\n";

/// An operation on the bigraphs of two listings, and how many nodes it makes, or the number of its refusal. Names and
/// widths go before nodes that are in both.
const CASES: [(Op, &str, &str, u32); 20] = [
    (Op::Compose, ROOM, AGENT, 2),
    (Op::Compose, WIRING, WIRED, 1),
    (Op::Compose, AT_X, AGENT, 11),
    (Op::Compose, WIRING, AGENT, 11),
    (Op::Compose, ROOM, FIRST_AGENT, 12),
    (Op::Tensor, AT_X, NEXT_AT_Y, 2),
    (Op::Tensor, AT_X, NEXT_AT_X, 13),
    (Op::Tensor, AT_X, AT_X, 13),
    (Op::Tensor, AT_X, AT_Y, 12),
    (Op::Parallel, AT_X, NEXT_AT_X, 2),
    (Op::Parallel, WIRE, WIRE, 14),
    (Op::Parallel, AT_X, AT_X, 12),
    (Op::Merge, AT_X, NEXT_AT_X, 2),
    (Op::Merge, NOTHING, NOTHING, 0),
    (Op::Merge, WIRE, WIRE, 14),
    (Op::Merge, AT_X, AT_X, 12),
    (Op::Nest, ROOM, NEXT_AT_X, 2),
    (Op::Nest, WIRE, AGENT, 17),
    (Op::Nest, AT_X, AGENT, 15),
    (Op::Nest, ROOM, FIRST_AGENT, 12),
];

/// Whether a product with another such one fits the numbers.
fn is_small(big: &Big) -> bool
    ensures { IsTrue result ↔ ((big.now.regions < 1000) × (length big.now.sites < 1000)) }
{
    big.regions < 1000 && big.sites.len() < 1000
}

/// What the operation makes of small bigraphs.
fn made(alloc: Global, op: Op, f: &Big, g: &Big) -> Result<Big, AlgebraFault>
    requires f_valid { IsValid f.now }
    requires g_valid { IsValid g.now }
{
    if !is_small(f) || !is_small(g) {
        return Err(AlgebraFault::OutOfMemory);
    }
    match op {
        Op::Compose => compose(alloc, f, g),
        Op::Tensor => tensor(alloc, f, g),
        Op::Parallel => parallel(alloc, f, g),
        Op::Merge => merge(alloc, f, g),
        Op::Nest => nest(alloc, f, g),
    }
}

/// How many nodes were made, or the number of the refusal.
fn told(made: &Result<Big, AlgebraFault>) -> Mem<u32> {
    match made {
        Ok(big) => Ok(big.nodes.len()),
        Err(fault) => match fault.number() {
            Some(number) => Ok(u32::from(number)),
            None => Err(OutOfMemory),
        },
    }
}

/// What is told of the operation on two listings.
fn told_of(alloc: Global, op: Op, left: &str, right: &str) -> Mem<u32> {
    let f = big_of(alloc, left)?;
    let g = big_of(alloc, right)?;
    told(&made(alloc, op, &f, &g))
}

#[test]
fn bigraphs_are_put_together(rt: HostRuntime) -> Mem<()> {
    for &(op, left, right, wanted) in CASES.iter() {
        assert!(rt;
            told_of(rt.alloc(), op, left, right)? == wanted,
            "{left}{right}"
        );
    }
    Ok(())
}

/// Node 0 of control C on outer name x and on edge 7.
const ON_EDGE: &str =
    "bigraph 1\nsites 0\ninner 0\nouter 1\nx\nedges 1\n7\nnodes 1\n0 C r0 =x #7\n";

/// What is told of the closure of the name in a listing, by that edge.
fn told_closed(alloc: Global, text: &str, name: &str, edge: u32) -> Mem<u32> {
    let big = big_of(alloc, text)?;
    let name = plain_name(alloc, name)?;
    told(&close(alloc, &big, &name, edge))
}

#[test]
fn a_name_that_is_there_is_closed_by_a_new_edge(rt: HostRuntime) -> Mem<()> {
    assert!(rt; told_closed(rt.alloc(), ON_EDGE, "x", 3)? == 1);
    assert!(rt; told_closed(rt.alloc(), ON_EDGE, "y", 7)? == 16);
    assert!(rt; told_closed(rt.alloc(), ON_EDGE, "x", 7)? == 12);
    Ok(())
}

#[test]
fn a_refusal_has_a_text(rt: HostRuntime) -> Mem<()> {
    let Ok(text) = format!(in rt.alloc(); "{}", AlgebraFault::SupportMeets) else {
        return Err(OutOfMemory);
    };
    assert!(rt; text.as_str() == "a node or an edge is in both bigraphs");
    Ok(())
}
