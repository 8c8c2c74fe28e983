//! Lists changed in place from a row on: the rows before it stay.
ghost use Rattle.std.specs.Prelude.{◌≡◌, ◌≤◌, ◌++◌, length, map, take, drop, All, IsTrue, OnOk};
ghost use Rattle.std.specs.List.Sorted.{IsStrictlySortedBy};
ghost use Rattle.bg_base.specs.declared.big.NodeRow.{NodeRow as RowOfNode};
ghost use Rattle.bg_base.specs.Bigraph.{inner_cmp};
ghost use Rattle.bg_base.specs.Products as product;
ghost use Rattle.bg_builder.specs.Inside as inside;

use crate::inside::{
    close_rows, link_rows, merge_places, merge_rows, place_places, place_rows, raise_places,
    raise_rows,
};
use bg_base::{InnerRow, Name, NodeRow, Place};
use bg_lists::Mem;
use std::alloc::Global;

/// Puts the regions in which the rows lie after so many.
pub(crate) fn raise_nodes(rows: &mut Vec<NodeRow>, start: usize, width: u32)
    requires within { start ≤ length rows.old.items }
    requires fits { All (λ (row : RowOfNode). IsTrue (inside.fits_after width row.parent)) (drop start rows.old.items) }
    ensures { rows.new.items ≡ take start rows.old.items ++ map (product.row_beside width) (drop start rows.old.items) }
{
    let (_, tail) = rows.as_mut_slice().split_at_mut(start);
    raise_rows(tail, width);
}

/// Puts those of these places that are regions after so many.
pub(crate) fn raise_sites(places: &mut Vec<Place>, start: usize, width: u32)
    requires within { start ≤ length places.old.items }
    requires fits { All (λ place. IsTrue (inside.fits_after width place)) (drop start places.old.items) }
    ensures { places.new.items ≡ take start places.old.items ++ map (product.place_beside width) (drop start places.old.items) }
{
    let (_, tail) = places.as_mut_slice().split_at_mut(start);
    raise_places(tail, width);
}

/// Puts all roots among the rows into region 0.
pub(crate) fn merge_nodes(rows: &mut Vec<NodeRow>, start: usize)
    requires within { start ≤ length rows.old.items }
    ensures { rows.new.items ≡ take start rows.old.items ++ map product.row_in_one (drop start rows.old.items) }
{
    let (_, tail) = rows.as_mut_slice().split_at_mut(start);
    merge_rows(tail);
}

/// Puts all of these places that are regions into region 0.
pub(crate) fn merge_sites(places: &mut Vec<Place>, start: usize)
    requires within { start ≤ length places.old.items }
    ensures { places.new.items ≡ take start places.old.items ++ map product.place_in_one (drop start places.old.items) }
{
    let (_, tail) = places.as_mut_slice().split_at_mut(start);
    merge_places(tail);
}

/// Puts the rows into these sites.
pub(crate) fn place_nodes(rows: &mut Vec<NodeRow>, start: usize, sites: &[Place])
    requires within { start ≤ length rows.old.items }
    ensures { rows.new.items ≡ take start rows.old.items ++ map (inside.row_at sites.now) (drop start rows.old.items) }
{
    let (_, tail) = rows.as_mut_slice().split_at_mut(start);
    place_rows(tail, sites);
}

/// Ties the ports of the rows by these inner names.
pub(crate) fn link_nodes(
    alloc: Global,
    rows: &mut Vec<NodeRow>,
    start: usize,
    inner: &[InnerRow],
) -> Mem<()>
    requires within { start ≤ length rows.old.items }
    requires ascending { IsStrictlySortedBy inner_cmp inner.now }
    ensures { OnOk result (rows.new.items ≡ take start rows.old.items ++ map (inside.row_by inner.now) (drop start rows.old.items)) }
{
    let (_, tail) = rows.as_mut_slice().split_at_mut(start);
    link_rows(alloc, tail, inner)
}

/// Makes the name the edge at the ports of the rows.
pub(crate) fn close_nodes(
    alloc: Global,
    rows: &mut Vec<NodeRow>,
    start: usize,
    name: &Name,
    edge: u32,
) -> Mem<()>
    requires within { start ≤ length rows.old.items }
    ensures { OnOk result (rows.new.items ≡ take start rows.old.items ++ map (product.row_closed name.now edge) (drop start rows.old.items)) }
{
    let (_, tail) = rows.as_mut_slice().split_at_mut(start);
    close_rows(alloc, tail, name, edge)
}

/// The items from the one place to the other.
pub(crate) fn items_between<T>(items: &Vec<T>, start: usize, end: usize) -> &[T]
    requires ordered { start ≤ end }
    requires within { end ≤ length items.now.items }
    ensures { result.now ≡ drop start (take end items.now.items) }
{
    let (front, _) = items.as_slice().split_at(end);
    let (_, found) = front.split_at(start);
    found
}

/// Puts the places from `end` on into the sites from `start` to `end`, and takes these out.
pub(crate) fn put_through(places: &mut Vec<Place>, start: usize, end: usize)
    requires ordered { start ≤ end }
    requires within { end ≤ length places.old.items }
    ensures { places.new.items ≡ take start places.old.items ++ map (inside.place_at (drop start (take end places.old.items))) (drop end places.old.items) }
{
    place_behind(places, start, end);
    let _sites = places.drain(start..end);
}

/// Puts the places from `end` on into the sites from `start` to `end`.
fn place_behind(places: &mut Vec<Place>, start: usize, end: usize)
    requires ordered { start ≤ end }
    requires within { end ≤ length places.old.items }
    ensures { places.new.items ≡ take end places.old.items ++ map (inside.place_at (drop start (take end places.old.items))) (drop end places.old.items) }
{
    let (front, tail) = places.as_mut_slice().split_at_mut(end);
    let (_, sites) = front.split_at(start);
    place_places(tail, sites);
}
