//! The place part of composition.
ghost use Rattle.std.specs.Prelude.{◌≡◌, ◌<◌, ◌-◌, ◌^◌, length, map, All, IsNone, IfOk};
ghost use Rattle.std.specs.List.Sorted.{IsStrictlySortedBy};
ghost use Rattle.bg_lists.specs.Lists.{sort};
ghost use Rattle.bg_lists.specs.Orders.{before};
ghost use Rattle.bg_base.specs.declared.big.NodeRow.{NodeRow as RowOfNode};
ghost use Rattle.bg_base.specs.Bigraph.{IsValid, node_cmp, row_of};
ghost use Rattle.bg_base.specs.Composition as whole;
ghost use Rattle.bg_place.specs.Places as defined;
ghost use Rattle.bg_place.specs.Rows.{parent_cmp};

use crate::graph::parent_rows;
use crate::{ParentRow, Places};
use bg_base::{Big, NodeRow, Place};
use bg_lists::{Mem, Rows, merged};
use std::alloc::Global;

/// The place part of the composition of `g` and `f`: what lies in region `j` of `f` comes to lie where site `j` of `g`
/// lies. `f` has as many regions as `g` has sites, and no node is in both. The links of the two play no part. Costs
/// time and memory in proportion to nodes and sites.
pub fn compose_places(alloc: Global, g: &Big, f: &Big) -> Mem<Places>
    requires g_valid { IsValid g.now }
    requires f_valid { IsValid f.now }
    requires widths { f.now.regions ≡ length g.now.sites }
    requires apart { All (λ (row : RowOfNode). IsNone (row_of g.now.nodes row.id)) f.now.nodes }
    ensures { IfOk result (λ places. places ≡ defined.places_of (whole.compose g.now f.now)) }
{
    Ok(Places {
        regions: g.regions,
        sites: sites_through(alloc, g, f.sites.as_slice())?,
        parents: parents_through(alloc, g, f)?,
    })
}

/// Where a place of the lower bigraph comes to lie: region `j` becomes the place of site `j` of `g`, and a region that
/// `g` has no site for stays. Takes no memory and constant time.
pub fn place_through(g: &Big, place: Place) -> Place
    ensures { result ≡ whole.place_through g.now place }
{
    match place {
        Place::Node(_) => place,
        Place::Region(region) => g.sites.get(region as usize).copied().unwrap_or(place),
    }
}

/// The sites of the lower bigraph, in the composition: each is where its place comes to lie. Costs time and memory in
/// proportion to them.
pub fn sites_through(alloc: Global, g: &Big, sites: &[Place]) -> Mem<Rows<Place>>
    requires few { length sites.now < 2 ^ 32 - 1 }
    ensures { IfOk result (λ made. made ≡ map (whole.place_through g.now) sites.now) }
{
    let mut made = Vec::with_capacity(alloc, sites.len())?;
    for place in sites {
        made.push(place_through(g, *place))?;
    }
    Ok(Rows::from_vec(made))
}

/// The nodes of the lower bigraph with their parents in the composition. Costs time and memory in proportion to them.
fn lower_parents(alloc: Global, g: &Big, lower: &[NodeRow]) -> Mem<Vec<ParentRow>>
    ensures { IfOk result (λ rows. rows.items ≡ map (defined.moved_row (whole.place_through g.now)) lower.now) }
{
    let mut rows = Vec::with_capacity(alloc, lower.len())?;
    for row in lower {
        rows.push(ParentRow {
            node: row.id,
            parent: place_through(g, row.parent),
        })?;
    }
    Ok(rows)
}

/// The nodes of both with their parents, by number. Costs time and memory in proportion to them.
fn parents_through(alloc: Global, g: &Big, f: &Big) -> Mem<Rows<ParentRow>>
    requires g_ascends { IsStrictlySortedBy node_cmp g.now.nodes }
    requires f_ascends { IsStrictlySortedBy node_cmp f.now.nodes }
    ensures { IfOk result (λ rows. rows ≡ sort (before parent_cmp) (defined.joined_parents g.now f.now)) }
{
    let upper = parent_rows(alloc, &g.nodes)?;
    let lower = lower_parents(alloc, g, &f.nodes)?;
    Rows::try_from_vec(merged(alloc, upper, lower)?)
}
