//! The place forest of a bigraph.
ghost use Rattle.std.specs.Prelude.{◌≡◌, IsTrue, IfOk, Some};
ghost use Rattle.std.specs.List.Sorted.{IsStrictlySortedBy};
ghost use Rattle.std.specs.Ordering.{nat_cmp};
ghost use Rattle.bg_base.specs.Bigraph.{IsValid};
ghost use Rattle.bg_place.specs.Places as defined;
ghost use Rattle.bg_place.specs.Rows.{parent_cmp, ClimbsEnd};

use crate::climb::{depth_in, is_above, parent_in};
use crate::graph::{places_of, position};
use crate::groups::{Groups, numbered};
use crate::subtree::nodes_within;
use crate::{ParentRow, Places};
use bg_base::{Big, Place};
use bg_lists::{Duplicate, Mem};
use std::alloc::Global;
use std::marker::Model;

/// The places of a valid bigraph, with the children of each place kept at hand. A contract sees the places.
#[derive(Drop)]
pub struct Forest {
    places: Places,
    children: Groups,
    sites: Groups,
}

impl Model for Forest {
    ghost use Rattle.bg_place.specs.declared.graph.Places.{Places as PlaceGraph};
    ghost use Rattle.bg_place.specs.Rows.{IsForest};

    ghost Value = { PlaceGraph };

    ghost view = { λ forest. forest.places };

    ghost invariant = { λ forest. IsForest forest.places forest.children forest.sites };
}

impl Forest {
    /// The forest of the bigraph. Costs time n log n, and memory n, in the number of nodes and sites.
    pub fn of(alloc: Global, big: &Big) -> Mem<Forest>
        requires valid { IsValid big.now }
        ensures { IfOk result (λ forest. forest ≡ defined.places_of big.now) }
    {
        let places = places_of(alloc, big)?;
        Forest::of_places(alloc, places)
    }

    fn of_places(alloc: Global, places: Places) -> Mem<Forest>
        requires ascending { IsStrictlySortedBy parent_cmp places.parents }
        requires settled { ClimbsEnd places.parents }
        ensures { IfOk result (λ forest. forest ≡ places) }
    {
        let rows = places.parents.copy(alloc)?.into_vec();
        let children = Groups::of(alloc, rows)?;
        let sites = Groups::of(alloc, numbered(alloc, &places.sites)?)?;
        Ok(Forest {
            places,
            children,
            sites,
        })
    }

    /// Whether the node is there. Logarithmic in the number of nodes.
    pub fn contains(&self, node: u32) -> bool
        ensures { result ≡ defined.has_node self.now node }
    {
        match position(&self.places.parents, node) {
            Some(_) => true,
            None => false,
        }
    }

    /// Where the node lies, which is there. Logarithmic in the number of nodes.
    pub fn parent(&self, node: u32) -> Place
        requires there { IsTrue (defined.has_node self.now node) }
        ensures { defined.parent_of self.now node ≡ Some result }
    {
        match position(&self.places.parents, node) {
            Some(at) => self.places.parents[at].parent,
            None => unreachable!(),
        }
    }

    /// The nodes that lie in the place, ascending; none where the place is not there. Takes no memory; logarithmic in
    /// the number of nodes.
    pub fn children(&self, place: Place) -> &[u32]
        ensures exact { result.now ≡ defined.children_of self.now place }
        ensures ascending { IsStrictlySortedBy nat_cmp result.now }
    {
        self.children.members_of(place)
    }

    /// The sites that lie in the place, ascending; none where the place is not there. Takes no memory; logarithmic in
    /// the number of sites.
    pub fn child_sites(&self, place: Place) -> &[u32]
        ensures exact { result.now ≡ defined.child_sites_of self.now place }
        ensures ascending { IsStrictlySortedBy nat_cmp result.now }
    {
        self.sites.members_of(place)
    }

    /// The number of nodes that the node, which is there, lies in, directly or not. Takes no memory; costs a logarithm
    /// of the number of nodes for each of them.
    pub fn depth(&self, node: u32) -> u32
        requires there { IsTrue (defined.has_node self.now node) }
        ensures { result ≡ defined.depth_of self.now node }
    {
        match parent_in(&self.places.parents, node) {
            Some(parent) => depth_in(self.places.parents.as_slice(), parent),
            None => 0,
        }
    }

    /// Whether `lower` lies in `upper`, directly or not; no node lies in itself. Takes no memory; costs a logarithm of
    /// the number of nodes for each node that `lower` lies in.
    pub fn is_ancestor(&self, upper: u32, lower: u32) -> bool
        ensures { result ≡ defined.is_ancestor self.now upper lower }
    {
        is_above(&self.places.parents, upper, lower)
    }

    /// The node, which is there, and all nodes that lie in it, directly or not, ascending. Costs time n log n, and
    /// memory n, in the number of nodes.
    pub fn subtree(&self, alloc: Global, node: u32) -> Mem<Vec<u32>>
        requires there { IsTrue (defined.has_node self.now node) }
        ensures exact { IfOk result (λ nodes. nodes.items ≡ defined.subtree_of self.now node) }
        ensures ascending { IfOk result (λ nodes. IsStrictlySortedBy nat_cmp nodes.items) }
    {
        let nodes = nodes_within(alloc, self.places.parents.as_slice(), node)?;
        Ok(nodes)
    }
}
