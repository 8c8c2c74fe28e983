//! Rows changed in place.
ghost use Rattle.std.specs.Prelude.{◌≡◌, map, All, IsTrue, IfOk, OnOk};
ghost use Rattle.std.specs.List.{list_any};
ghost use Rattle.std.specs.List.Sorted.{IsStrictlySortedBy};
ghost use Rattle.std.specs.Ordering.{is_eq};
ghost use Rattle.bg_base.specs.declared.big.NodeRow.{NodeRow as RowOfNode};
ghost use Rattle.bg_base.specs.Order.{name_cmp};
ghost use Rattle.bg_base.specs.Bigraph.{inner_cmp};
ghost use Rattle.bg_base.specs.Products as product;
ghost use Rattle.bg_builder.specs.Inside as inside;

use bg_base::{InnerRow, Link, LinkVec, Name, NodeRow, Place, PortLinks, find_inner};
use bg_lists::{Duplicate, Mem};
use std::alloc::Global;

/// The place, in one region.
fn in_one(place: Place) -> Place
    ensures { result ≡ product.place_in_one place }
{
    match place {
        Place::Node(_) => place,
        Place::Region(_) => Place::Region(0),
    }
}

/// Puts all roots among the rows into region 0.
pub(crate) fn merge_rows(rows: &mut [NodeRow])
    ensures { rows.new ≡ map product.row_in_one rows.old }
{
    for row in rows.iter_mut() {
        row.parent = in_one(row.parent);
    }
}

/// Puts all of these places that are regions into region 0.
pub(crate) fn merge_places(places: &mut [Place])
    ensures { places.new ≡ map product.place_in_one places.old }
{
    for place in places.iter_mut() {
        *place = in_one(*place);
    }
}

/// The place, where its region comes after so many.
fn raised(place: Place, width: u32) -> Place
    requires { IsTrue (inside.fits_after width place) }
    ensures { result ≡ product.place_beside width place }
{
    match place {
        Place::Node(_) => place,
        Place::Region(region) => Place::Region(width + region),
    }
}

/// Puts the regions in which the rows lie after so many.
pub(crate) fn raise_rows(rows: &mut [NodeRow], width: u32)
    requires { All (λ (row : RowOfNode). IsTrue (inside.fits_after width row.parent)) rows.old }
    ensures { rows.new ≡ map (product.row_beside width) rows.old }
{
    for row in rows.iter_mut() {
        row.parent = raised(row.parent, width);
    }
}

/// Puts those of these places that are regions after so many.
pub(crate) fn raise_places(places: &mut [Place], width: u32)
    requires { All (λ place. IsTrue (inside.fits_after width place)) places.old }
    ensures { places.new ≡ map (product.place_beside width) places.old }
{
    for place in places.iter_mut() {
        *place = raised(*place, width);
    }
}

/// Where the place comes to lie, in these sites.
fn place_at(sites: &[Place], place: Place) -> Place
    ensures { result ≡ inside.place_at sites.now place }
{
    match place {
        Place::Node(_) => place,
        Place::Region(region) => match sites.get(region as usize) {
            Some(site) => *site,
            None => place,
        },
    }
}

/// Puts the rows into these sites.
pub(crate) fn place_rows(rows: &mut [NodeRow], sites: &[Place])
    ensures { rows.new ≡ map (inside.row_at sites.now) rows.old }
{
    for row in rows.iter_mut() {
        row.parent = place_at(sites, row.parent);
    }
}

/// Puts the places into these sites.
pub(crate) fn place_places(places: &mut [Place], sites: &[Place])
    ensures { places.new ≡ map (inside.place_at sites.now) places.old }
{
    for place in places.iter_mut() {
        *place = place_at(sites, *place);
    }
}

/// What the link becomes, by these inner names.
fn link_by(alloc: Global, inner: &[InnerRow], link: &Link) -> Mem<Link>
    requires { IsStrictlySortedBy inner_cmp inner.now }
    ensures { IfOk result (λ made. made ≡ inside.link_by inner.now link.now) }
{
    match link {
        Link::Edge(edge) => Ok(Link::Edge(*edge)),
        Link::Outer(name) => match find_inner(inner, name) {
            Some(row) => row.link.copy(alloc),
            None => link.copy(alloc),
        },
    }
}

fn links_by(alloc: Global, inner: &[InnerRow], links: &[Link]) -> Mem<LinkVec>
    requires { IsStrictlySortedBy inner_cmp inner.now }
    ensures { IfOk result (λ made. made.items ≡ map (inside.link_by inner.now) links.now) }
{
    let mut made = LinkVec::new(alloc);
    for link in links {
        made.push(link_by(alloc, inner, link)?)?;
    }
    Ok(made)
}

/// Ties the ports of the row by these inner names.
fn link_row(alloc: Global, row: &mut NodeRow, inner: &[InnerRow]) -> Mem<()>
    requires { IsStrictlySortedBy inner_cmp inner.now }
    ensures { OnOk result (row.new ≡ inside.row_by inner.now row.old) }
{
    let links = links_by(alloc, inner, row.links.as_slice())?;
    row.links = PortLinks::from_small_vec(links);
    Ok(())
}

/// Ties the ports of the rows by these inner names.
pub(crate) fn link_rows(alloc: Global, rows: &mut [NodeRow], inner: &[InnerRow]) -> Mem<()>
    requires { IsStrictlySortedBy inner_cmp inner.now }
    ensures { OnOk result (rows.new ≡ map (inside.row_by inner.now) rows.old) }
{
    for row in rows.iter_mut() {
        link_row(alloc, row, inner)?;
    }
    Ok(())
}

/// Ties the inner name by these.
fn link_inner_row(alloc: Global, row: &mut InnerRow, inner: &[InnerRow]) -> Mem<()>
    requires { IsStrictlySortedBy inner_cmp inner.now }
    ensures { OnOk result (row.new ≡ inside.inner_by inner.now row.old) }
{
    let link = link_by(alloc, inner, &row.link)?;
    row.link = link;
    Ok(())
}

/// Ties the inner names by these of another bigraph.
pub(crate) fn link_inner(alloc: Global, rows: &mut [InnerRow], inner: &[InnerRow]) -> Mem<()>
    requires { IsStrictlySortedBy inner_cmp inner.now }
    ensures { OnOk result (rows.new ≡ map (inside.inner_by inner.now) rows.old) }
{
    for row in rows.iter_mut() {
        link_inner_row(alloc, row, inner)?;
    }
    Ok(())
}

/// Whether the link is that outer name.
fn is_outer(link: &Link, name: &Name) -> bool
    ensures { result ≡ inside.is_outer name.now link.now }
{
    match link {
        Link::Edge(_) => false,
        Link::Outer(other) => other.cmp(name).is_eq(),
    }
}

/// The link, where the name is made the edge.
fn closed(alloc: Global, link: &Link, name: &Name, edge: u32) -> Mem<Link>
    ensures { IfOk result (λ made. made ≡ product.link_closed name.now edge link.now) }
{
    match link {
        Link::Edge(other) => Ok(Link::Edge(*other)),
        Link::Outer(other) => {
            if other.cmp(name).is_eq() {
                Ok(Link::Edge(edge))
            } else {
                Ok(Link::Outer(other.copy(alloc)?))
            }
        }
    }
}

fn closed_links(alloc: Global, links: &[Link], name: &Name, edge: u32) -> Mem<LinkVec>
    ensures { IfOk result (λ made. made.items ≡ map (product.link_closed name.now edge) links.now) }
{
    let mut made = LinkVec::new(alloc);
    for link in links {
        made.push(closed(alloc, link, name, edge)?)?;
    }
    Ok(made)
}

fn ties(links: &[Link], name: &Name) -> bool
    ensures { result ≡ list_any (inside.is_outer name.now) links.now }
{
    links.iter().any(|link| is_outer(link, name))
}

/// Makes the name the edge at the ports of the row. Leaves a row alone that the name is not tied to.
fn close_row(alloc: Global, row: &mut NodeRow, name: &Name, edge: u32) -> Mem<()>
    ensures { OnOk result (row.new ≡ product.row_closed name.now edge row.old) }
{
    if ties(row.links.as_slice(), name) {
        let links = closed_links(alloc, row.links.as_slice(), name, edge)?;
        row.links = PortLinks::from_small_vec(links);
    }
    Ok(())
}

/// Makes the name the edge at the ports of the rows.
pub(crate) fn close_rows(alloc: Global, rows: &mut [NodeRow], name: &Name, edge: u32) -> Mem<()>
    ensures { OnOk result (rows.new ≡ map (product.row_closed name.now edge) rows.old) }
{
    for row in rows.iter_mut() {
        close_row(alloc, row, name, edge)?;
    }
    Ok(())
}

/// Makes the name the edge where the inner name is tied to it.
fn close_inner_row(row: &mut InnerRow, name: &Name, edge: u32)
    ensures { row.new ≡ product.inner_closed name.now edge row.old }
{
    if is_outer(&row.link, name) {
        row.link = Link::Edge(edge);
    }
}

/// Makes the name the edge where the inner names are tied to it.
pub(crate) fn close_inner(rows: &mut [InnerRow], name: &Name, edge: u32)
    ensures { rows.new ≡ map (product.inner_closed name.now edge) rows.old }
{
    for row in rows.iter_mut() {
        close_inner_row(row, name, edge);
    }
}
