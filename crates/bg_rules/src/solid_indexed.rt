//! Whether a bigraph is solid, with its places and links kept at hand.
ghost use Rattle.std.specs.Prelude.{◌≡◌, ◌↔◌, ◌==◌, None, not, length, IfOk};
ghost use Rattle.std.specs.List.{list_all};
ghost use Rattle.bg_base.specs.declared.names.Link.TheVariants.{Outer};
ghost use Rattle.bg_base.specs.Bigraph.{IsValid};
ghost use Rattle.bg_base.specs.Products as product;
ghost use Rattle.bg_link.specs.Links.{degree_of};
ghost use Rattle.bg_place.specs.Places.{child_sites_of, places_of};
ghost use Rattle.bg_rules.specs.Solid as defined;
ghost use Rattle.bg_rules.specs.Solid.{IsSolid};

use crate::solid::later_clause;
use bg_base::{Big, Link, Name, Place};
use bg_link::Wiring;
use bg_lists::{Duplicate, Mem};
use bg_place::Forest;
use std::alloc::Global;

/// The least clause of a solid bigraph that fails, as [`first_unsolid`](crate::first_unsolid) gives it. Costs time
/// n log n in the size of the bigraph, with a comparison of names at each step of a search for a name, and memory in
/// proportion to it.
pub fn unsolid_clause(alloc: Global, big: &Big) -> Mem<Option<u8>>
    requires valid { IsValid big.now }
    ensures clause { IfOk result (λ clause. clause ≡ defined.unsolid_clause big.now) }
    ensures solid { IfOk result (λ clause. (clause ≡ None) ↔ IsSolid big.now) }
{
    let clause = failing_clause(alloc, big)?;
    Ok(clause)
}

/// The least clause that fails. The links are gone through only where each region has a child node.
#[tactic(auto, unfolding(crate::specs::Solid::unsolid_clause))]
fn failing_clause(alloc: Global, big: &Big) -> Mem<Option<u8>>
    requires valid { IsValid big.now }
    ensures { IfOk result (λ clause. clause ≡ defined.unsolid_clause big.now) }
{
    let forest = Forest::of(alloc, big)?;
    if !are_filled(big, &forest) {
        return Ok(Some(1));
    }
    if !are_used(alloc, big)? {
        return Ok(Some(2));
    }
    if !are_apart(big, &forest) {
        return Ok(Some(3));
    }
    Ok(later_clause(big))
}

/// Whether each region has a child node. Takes no memory; logarithmic in the number of nodes for each region, up to the
/// first that has none.
fn are_filled(big: &Big, forest: &Forest) -> bool
    requires places { forest.now ≡ places_of big.now }
    ensures { result ≡ defined.are_filled big.now big.now.regions }
{
    for region in 0..big.regions {
        if forest.children(Place::Region(region)).len() == 0 {
            return false;
        }
    }
    true
}

/// Whether each outer name has a point. Costs time n log n in the number of ports, names and edges, with a comparison
/// of names at each step of a search for a name, and memory in proportion to them.
fn are_used(alloc: Global, big: &Big) -> Mem<bool>
    requires valid { IsValid big.now }
    ensures { IfOk result (λ used. used ≡ list_all (λ name. product.has_point big.now (Outer name)) big.now.outer) }
{
    let wiring = Wiring::of(alloc, big)?;
    let used = have_points(alloc, &wiring, &big.outer)?;
    Ok(used)
}

/// Whether each of the names has a point. Takes the memory of one name at a time.
fn have_points(alloc: Global, wiring: &Wiring, names: &[Name]) -> Mem<bool>
    ensures { IfOk result (λ used. used ≡ list_all (λ name. not (degree_of wiring.now (Outer name) == 0)) names.now) }
{
    for name in names {
        let link = Link::Outer(name.copy(alloc)?);
        if wiring.degree(&link) == 0 {
            return Ok(false);
        }
    }
    Ok(true)
}

/// Whether no two sites have one parent. Takes no memory; logarithmic in the number of sites for each of them.
fn are_apart(big: &Big, forest: &Forest) -> bool
    requires places { forest.now ≡ places_of big.now }
    ensures { result ≡ defined.are_apart big.now.sites }
{
    stand_alone(forest, &big.sites)
}

/// Whether each of the places has one site in it.
fn stand_alone(forest: &Forest, places: &[Place]) -> bool
    ensures { result ≡ list_all (λ place. length (child_sites_of forest.now place) == 1) places.now }
{
    places
        .iter()
        .all(|place| forest.child_sites(*place).len() == 1)
}
