//! The link graph of a bigraph.
ghost use Rattle.std.specs.Prelude.{◌≡◌, IsTrue, IfOk, Some};
ghost use Rattle.std.specs.List.Sorted.{IsStrictlySortedBy};
ghost use Rattle.std.specs.Ordering.{nat_cmp};
ghost use Rattle.bg_base.specs.Bigraph.{IsValid};
ghost use Rattle.bg_link.specs.Links as defined;
ghost use Rattle.bg_link.specs.Rows.{IsLinked, point_cmp};

use crate::graph::{find_link, links_of};
use crate::groups::Groups;
use crate::{Links, Point};
use bg_base::{Big, Link};
use bg_lists::Mem;
use std::alloc::Global;
use std::marker::Model;

/// The links of a valid bigraph, with the points of each link and the idle edges kept at hand. A contract sees the
/// links.
#[derive(Drop)]
pub struct Wiring {
    groups: Groups,
    idle: Vec<u32>,
}

impl Model for Wiring {
    ghost use Rattle.bg_link.specs.declared.graph.Links.{Links as LinkGraph};
    ghost use Rattle.bg_link.specs.Rows.{KeepsIdle};

    ghost Value = { LinkGraph };

    ghost view = { λ wiring. wiring.groups };

    ghost invariant = { λ wiring. KeepsIdle wiring.groups wiring.idle.items };
}

impl Wiring {
    /// The link graph of the bigraph. It is out of memory also where there are 4,294,967,295 points or more, so that a
    /// `u32` counts those of a link. Costs time n log n in the number of ports, names and edges, with a comparison of
    /// names at each step of a search for a name, and memory in proportion to the bigraph.
    pub fn of(alloc: Global, big: &Big) -> Mem<Wiring>
        requires valid { IsValid big.now }
        ensures { IfOk result (λ wiring. wiring ≡ defined.links_of big.now) }
    {
        let links = links_of(alloc, big)?;
        Wiring::of_links(alloc, links)
    }

    fn of_links(alloc: Global, links: Links) -> Mem<Wiring>
        requires linked { IsLinked links }
        ensures { IfOk result (λ wiring. wiring ≡ links) }
    {
        let groups = Groups::of(alloc, links)?;
        let idle = groups.idle_edges(alloc)?;
        Ok(Wiring { groups, idle })
    }

    /// Whether the node is there and has a port of that index, counted from 0. Takes no memory; logarithmic in the
    /// number of nodes.
    pub fn has_port(&self, node: u32, port: u32) -> bool
        ensures { result ≡ defined.has_port self.now node port }
    {
        find_link(self.groups.links.ports.as_slice(), node, port).is_some()
    }

    /// The link that the port, which is there, is tied to. Takes no memory; logarithmic in the number of nodes.
    pub fn link(&self, node: u32, port: u32) -> &Link
        requires there { IsTrue (defined.has_port self.now node port) }
        ensures { defined.link_of self.now node port ≡ Some result.now }
    {
        match find_link(self.groups.links.ports.as_slice(), node, port) {
            Some(link) => link,
            None => unreachable!(),
        }
    }

    /// The points that are tied to the link, ascending: ports by node and index, then inner names; none where the link
    /// is not there. Takes no memory; logarithmic in the number of points, and of edges or outer names.
    pub fn points(&self, link: &Link) -> &[Point]
        ensures exact { result.now ≡ defined.points_of self.now link.now }
        ensures ascending { IsStrictlySortedBy point_cmp result.now }
    {
        self.groups.points_of(link)
    }

    /// The number of points that are tied to the link; 0 where the link is not there. Takes no memory; costs as
    /// `points`.
    pub fn degree(&self, link: &Link) -> u32
        ensures { result ≡ defined.degree_of self.now link.now }
    {
        self.groups.points_of(link).len() as u32
    }

    /// The edges that no point is tied to, ascending. Takes no memory and constant time.
    pub fn idle_edges(&self) -> &[u32]
        ensures exact { result.now ≡ defined.idle_edges_of self.now }
        ensures ascending { IsStrictlySortedBy nat_cmp result.now }
    {
        self.idle.as_slice()
    }
}
