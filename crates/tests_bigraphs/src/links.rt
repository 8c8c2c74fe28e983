//! What no command asks of links, by small bigraphs: the link of a port, idle edges, the tensor product.
ghost use Rattle.std.specs.Prelude.{◌↔◌, IsTrue};
ghost use Rattle.bg_base.specs.Bigraph.{IsValid};
ghost use Rattle.bg_base.specs.Products.{OuterApart};

use crate::made::big_of;
use bg_algebra::supports_apart;
use bg_base::{Big, has_outer};
use bg_link::{Links, Wiring, is_closed, tensor_links};
use bg_lists::{Mem, OutOfMemory};
use std::alloc::Global;

/// Nodes 0 and 2, whose first ports share edge 3 with inner name x; their second ports are tied to outer names a and b.
/// Edge 8 and outer name c are idle.
const WIRED: &str =
    "bigraph 1\nsites 0\ninner 1\nx #3\nouter 3\na\nb\nc\nedges 2\n3\n8\nnodes 2\n0 C r0 #3 =a\n2 C r0 #3 =b\n";

fn wiring(alloc: Global) -> Mem<Wiring> {
    let big = big_of(alloc, WIRED)?;
    let wiring = Wiring::of(alloc, &big)?;
    Ok(wiring)
}

/// Whether the port is there, and on an edge or not.
fn is_on(wiring: &Wiring, node: u32, port: u32, closed: bool) -> bool {
    wiring.has_port(node, port) && is_closed(wiring.link(node, port)) == closed
}

#[test]
fn finds_the_link_of_a_port(rt: HostRuntime) -> Mem<()> {
    let wiring = wiring(rt.alloc())?;
    for &(node, port, closed) in [(0, 0, true), (0, 1, false), (2, 0, true)].iter() {
        assert!(rt; is_on(&wiring, node, port, closed));
    }
    assert!(rt; !wiring.has_port(1, 0));
    assert!(rt; !wiring.has_port(2, 2));
    assert!(rt; wiring.idle_edges() == [8].as_slice());
    Ok(())
}

/// Whether no outer name is in both.
fn outer_apart(f: &Big, g: &Big) -> bool
    requires valid { IsValid f.now }
    ensures { IsTrue result ↔ OuterApart f.now g.now }
{
    g.outer
        .as_slice()
        .iter()
        .all(|name| !has_outer(&f.outer, name))
}

/// The links of the tensor product with a bigraph without inner names, once it is seen to be defined.
fn tensored(alloc: Global, f: &Big, g: &Big) -> Mem<Links>
    requires f_valid { IsValid f.now }
    requires g_valid { IsValid g.now }
{
    if !g.inner.is_empty() || !outer_apart(f, g) || !supports_apart(f, g) {
        return Err(OutOfMemory);
    }
    tensor_links(alloc, f, g)
}

/// Node 1, on edge 1 and on outer name d.
const BESIDE: &str = "bigraph 1\nsites 0\ninner 0\nouter 1\nd\nedges 1\n1\nnodes 1\n1 C r0 #1 =d\n";

/// The links of the tensor product of these two.
fn joined(alloc: Global) -> Mem<Links> {
    let f = big_of(alloc, WIRED)?;
    let g = big_of(alloc, BESIDE)?;
    tensored(alloc, &f, &g)
}

#[test]
fn joins_names_that_are_apart(rt: HostRuntime) -> Mem<()> {
    let links = joined(rt.alloc())?;
    assert!(rt; links.edges.as_slice() == [1, 3, 8].as_slice());
    assert!(rt; links.outer.len() == 4);
    assert!(rt; links.ports.len() == 3);
    assert!(rt; links.inner.len() == 1);
    Ok(())
}
