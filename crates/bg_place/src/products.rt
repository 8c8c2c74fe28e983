//! The place part of the tensor product.
ghost use Rattle.std.specs.Prelude.{◌≡◌, ◌++◌, ◌+◌, ◌<◌, ◌^◌, length, map, All, IsTrue, IsNone, IfOk, OnOk};
ghost use Rattle.std.specs.List.Sorted.{IsStrictlySortedBy};
ghost use Rattle.bg_lists.specs.Lists.{sort};
ghost use Rattle.bg_lists.specs.Orders.{before};
ghost use Rattle.bg_base.specs.declared.big.NodeRow.{NodeRow as RowOfNode};
ghost use Rattle.bg_base.specs.Bigraph.{IsValid, node_cmp, has_place, row_of};
ghost use Rattle.bg_base.specs.Products as product;
ghost use Rattle.bg_place.specs.Places as defined;
ghost use Rattle.bg_place.specs.Rows.{parent_cmp};

use crate::graph::parent_rows;
use crate::{ParentRow, Places};
use bg_base::{Big, NodeRow, Place};
use bg_lists::{Duplicate, Mem, Rows, merged};
use std::alloc::Global;

/// The place part of the tensor product of `f` and `g`, and of their parallel product: the two side by side, the
/// regions and sites of `g` after those of `f`; no node is in both. The links of the two play no part. Costs time and
/// memory in proportion to nodes and sites.
pub fn tensor_places(alloc: Global, f: &Big, g: &Big) -> Mem<Places>
    requires f_valid { IsValid f.now }
    requires g_valid { IsValid g.now }
    requires widths { f.now.regions + g.now.regions < 2 ^ 32 }
    requires sites { length f.now.sites + length g.now.sites < 2 ^ 32 }
    requires apart { All (λ (row : RowOfNode). IsNone (row_of f.now.nodes row.id)) g.now.nodes }
    ensures { IfOk result (λ places. places ≡ defined.places_of (product.tensor f.now g.now)) }
{
    Ok(Places {
        regions: f.regions + g.regions,
        sites: sites_beside(alloc, f, g)?,
        parents: parents_beside(alloc, f, g)?,
    })
}

/// Where a place of `g` comes to lie beside `f`.
fn place_beside(f: &Big, g: &Big, place: Place) -> Place
    requires widths { f.now.regions + g.now.regions < 2 ^ 32 }
    requires there { IsTrue (has_place g.now place) }
    ensures { result ≡ product.place_beside f.now.regions place }
{
    match place {
        Place::Node(_) => place,
        Place::Region(region) => Place::Region(f.regions + region),
    }
}

/// The sites of `f`, and after them those of `g`.
fn sites_beside(alloc: Global, f: &Big, g: &Big) -> Mem<Rows<Place>>
    requires g_valid { IsValid g.now }
    requires widths { f.now.regions + g.now.regions < 2 ^ 32 }
    ensures { IfOk result (λ sites. sites ≡ f.now.sites ++ map (product.place_beside f.now.regions) g.now.sites) }
{
    let mut sites = f.sites.copy(alloc)?.into_vec();
    push_sites_beside(f, g, g.sites.as_slice(), &mut sites)?;
    Rows::try_from_vec(sites)
}

/// Appends these sites of `g`, as they are beside `f`.
fn push_sites_beside(f: &Big, g: &Big, places: &[Place], sites: &mut Vec<Place>) -> Mem<()>
    requires widths { f.now.regions + g.now.regions < 2 ^ 32 }
    requires there { All (λ place. IsTrue (has_place g.now place)) places.now }
    ensures { OnOk result (sites.new.items ≡ sites.old.items ++ map (product.place_beside f.now.regions) places.now) }
{
    for place in places {
        sites.push(place_beside(f, g, *place))?;
    }
    Ok(())
}

/// The nodes of both with their parents, by number. Costs time and memory in proportion to them.
fn parents_beside(alloc: Global, f: &Big, g: &Big) -> Mem<Rows<ParentRow>>
    requires f_ascends { IsStrictlySortedBy node_cmp f.now.nodes }
    requires g_valid { IsValid g.now }
    requires widths { f.now.regions + g.now.regions < 2 ^ 32 }
    ensures { IfOk result (λ rows. rows ≡ sort (before parent_cmp) (defined.parents_beside f.now g.now)) }
{
    let left = parent_rows(alloc, &f.nodes)?;
    let right = right_parents(alloc, f, g, &g.nodes)?;
    Rows::try_from_vec(merged(alloc, left, right)?)
}

/// These nodes of `g` with their parents beside `f`. Costs time and memory in proportion to them.
fn right_parents(alloc: Global, f: &Big, g: &Big, nodes: &[NodeRow]) -> Mem<Vec<ParentRow>>
    requires widths { f.now.regions + g.now.regions < 2 ^ 32 }
    requires there { All (λ (row : RowOfNode). IsTrue (has_place g.now row.parent)) nodes.now }
    ensures { IfOk result (λ rows. rows.items ≡ map (defined.moved_row (product.place_beside f.now.regions)) nodes.now) }
{
    let mut rows = Vec::with_capacity(alloc, nodes.len())?;
    for row in nodes {
        rows.push(ParentRow {
            node: row.id,
            parent: place_beside(f, g, row.parent),
        })?;
    }
    Ok(rows)
}
