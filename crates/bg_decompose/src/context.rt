//! The context of a decomposition: what is outside of the pattern.
ghost use Rattle.std.specs.Prelude.{◌≡◌, ◌+◌, ◌<◌, ◌^◌, ◌++◌, None, unwrap_or, option_map, length, map as mapped, IfOk, OnOk};
ghost use Rattle.std.specs.List.Sorted.{IsSorted, IsStrictlySortedBy};
ghost use Rattle.std.specs.Ordering.{nat_cmp};
ghost use Rattle.bg_base.specs.declared.names.Place.TheVariants.{Region};
ghost use Rattle.bg_base.specs.declared.big.NodeRow.{NodeRow as RowOfNode};
ghost use Rattle.bg_base.specs.Bigraph.{IsValid, node_cmp};
ghost use Rattle.bg_base.specs.Elementary.{counted};
ghost use Rattle.bg_rules.specs.Images as image;
ghost use Rattle.bg_rules.specs.Images.{AreListed};
ghost use Rattle.bg_rules.specs.LocalConditions as local;
ghost use Rattle.bg_decompose.specs.Parts as part;

use crate::marks::{has, in_order};
use bg_base::{Big, InnerRow, Link, Name, NodeRow, Place, find_node};
use bg_lists::{Duplicate, Mem, Rows};
use bg_rules::images::{first_child, image_link, image_of};
use std::alloc::Global;

/// The image of the pattern's edge: the edge that a port has whose node is the image of one with a port on the edge.
fn image_edge(host: &Big, pattern: &Big, map: &[u32], edge: u32) -> u32
    requires listed { AreListed host.now pattern.now map.now }
    ensures { result ≡ part.image_edge host.now pattern.now map.now edge }
{
    let link = Link::Edge(edge);
    match image_link(host, pattern, map, &link) {
        Some(Link::Edge(image)) => *image,
        _ => edge,
    }
}

/// The images of the pattern's edges, in their order.
pub(crate) fn images_of(
    alloc: Global,
    host: &Big,
    pattern: &Big,
    map: &[u32],
    edges: &[u32],
) -> Mem<Vec<u32>>
    requires listed { AreListed host.now pattern.now map.now }
    ensures { IfOk result (λ made. made.items ≡ mapped (part.image_edge host.now pattern.now map.now) edges.now) }
{
    let mut made = Vec::new(alloc);
    for edge in edges {
        made.push(image_edge(host, pattern, map, *edge))?;
    }
    Ok(made)
}

/// The edges that are none of these.
fn edges_left(alloc: Global, edges: &[u32], images: &[u32]) -> Mem<Rows<u32>>
    ensures { IfOk result (λ made. made ≡ part.edges_left edges.now images.now) }
{
    let sorted = in_order(alloc, images)?;
    let made = edges_without(alloc, edges, sorted.as_slice())?;
    Ok(made)
}

/// The edges that are none of these, which are in order.
fn edges_without(alloc: Global, edges: &[u32], images: &[u32]) -> Mem<Rows<u32>>
    requires sorted { IsSorted nat_cmp images.now }
    ensures { IfOk result (λ made. made ≡ part.edges_left edges.now images.now) }
{
    let mut made = Vec::new(alloc);
    for edge in edges {
        if !has(images, *edge) {
            made.push(*edge)?;
        }
    }
    Rows::try_from_vec(made)
}

/// The place of the node.
fn place_at(rows: &[NodeRow], node: u32) -> Option<Place>
    requires ascending { IsStrictlySortedBy node_cmp rows.now }
    ensures { result ≡ part.place_at rows.now node }
{
    match find_node(rows, node) {
        Some(row) => Some(row.parent),
        None => None,
    }
}

/// The place in which the image of the first of the pattern's nodes in the region lies.
fn found_place(host: &Big, pattern: &Big, map: &[u32], region: u32) -> Option<Place>
    requires listed { AreListed host.now pattern.now map.now }
    ensures { result ≡ unwrap_or (option_map (λ (row : RowOfNode). part.place_at host.now.nodes (local.image_of pattern.now map.now row.id))
        (image.first_child pattern.now (Region region))) None }
{
    match first_child(pattern, Place::Region(region)) {
        Some(row) => place_at(&host.nodes, image_of(pattern, map, row.id)),
        None => None,
    }
}

/// Where the site for the region lies.
fn site_place(host: &Big, pattern: &Big, map: &[u32], region: u32) -> Place
    requires listed { AreListed host.now pattern.now map.now }
    ensures { result ≡ part.site_place host.now pattern.now map.now region }
{
    match found_place(host, pattern, map, region) {
        Some(place) => place,
        None => Place::Region(region),
    }
}

/// A site for each region of the pattern.
fn sites_of(alloc: Global, host: &Big, pattern: &Big, map: &[u32], regions: u32) -> Mem<Rows<Place>>
    requires listed { AreListed host.now pattern.now map.now }
    ensures { IfOk result (λ made. made ≡ mapped (part.site_place host.now pattern.now map.now) (counted 0 regions)) }
{
    let mut made = Vec::new(alloc);
    for region in 0..regions {
        made.push(site_place(host, pattern, map, region))?;
    }
    Rows::try_from_vec(made)
}

/// The pattern's outer name, with the image of its link.
fn outer_row(alloc: Global, host: &Big, pattern: &Big, map: &[u32], name: &Name) -> Mem<InnerRow>
    requires listed { AreListed host.now pattern.now map.now }
    ensures { IfOk result (λ made. made ≡ part.outer_row host.now pattern.now map.now name.now) }
{
    let link = Link::Outer(name.copy(alloc)?);
    let link = match image_link(host, pattern, map, &link) {
        Some(found) => found.copy(alloc)?,
        None => link,
    };
    Ok(InnerRow {
        name: name.copy(alloc)?,
        link,
    })
}

/// The pattern's outer names, each with the image of its link.
fn outer_rows(
    alloc: Global,
    host: &Big,
    pattern: &Big,
    map: &[u32],
    names: &[Name],
) -> Mem<Vec<InnerRow>>
    requires listed { AreListed host.now pattern.now map.now }
    ensures { IfOk result (λ made. made.items ≡ mapped (part.outer_row host.now pattern.now map.now) names.now) }
{
    let mut made = Vec::new(alloc);
    for name in names {
        made.push(outer_row(alloc, host, pattern, map, name)?)?;
    }
    Ok(made)
}

/// Appends the names of the ports of a node, each with the link of the port.
fn push_ports(alloc: Global, node: u32, links: &[Link], rows: &mut Vec<InnerRow>) -> Mem<()>
    requires few { length links.now < 2 ^ 32 }
    ensures { OnOk result (rows.new.items ≡ rows.old.items ++ part.port_rows node 0 links.now) }
{
    for (port, link) in links.iter().enumerate() {
        rows.push(InnerRow {
            name: Name::Port(node, port as u32),
            link: link.copy(alloc)?,
        })?;
    }
    Ok(())
}

/// Appends the names of the ports of all nodes, each with the link of the port.
fn push_all_ports(alloc: Global, nodes: &[NodeRow], rows: &mut Vec<InnerRow>) -> Mem<()>
    ensures { OnOk result (rows.new.items ≡ rows.old.items ++ part.all_port_rows nodes.now) }
{
    for node in nodes {
        push_ports(alloc, node.id, node.links.as_slice(), rows)?;
    }
    Ok(())
}

/// The inner names of the context: the outer names of the pattern, and the names of the ports of the parameter's nodes.
fn inner_of(
    alloc: Global,
    host: &Big,
    pattern: &Big,
    map: &[u32],
    inside: &[NodeRow],
) -> Mem<Rows<InnerRow>>
    requires listed { AreListed host.now pattern.now map.now }
    ensures { IfOk result (λ rows. rows ≡ mapped (part.outer_row host.now pattern.now map.now) pattern.now.outer ++ part.all_port_rows inside.now) }
{
    let mut rows = outer_rows(alloc, host, pattern, map, &pattern.outer)?;
    push_all_ports(alloc, inside, &mut rows)?;
    Rows::try_from_vec(rows)
}

/// The context whose nodes are these of the host; the parameter has those inside.
pub(crate) fn context_of(
    alloc: Global,
    host: &Big,
    pattern: &Big,
    map: &[u32],
    images: &[u32],
    outside: Rows<NodeRow>,
    inside: &[NodeRow],
) -> Mem<Big>
    requires listed { AreListed host.now pattern.now map.now }
    ensures { IfOk result (λ made. made ≡ record {
      nodes = outside;
      edges = part.edges_left host.now.edges images.now;
      sites = mapped (part.site_place host.now pattern.now map.now) (counted 0 pattern.now.regions);
      inner = mapped (part.outer_row host.now pattern.now map.now) pattern.now.outer ++ part.all_port_rows inside.now;
      regions = host.now.regions;
      outer = host.now.outer;
    }) }
{
    Ok(Big {
        nodes: outside,
        edges: edges_left(alloc, &host.edges, images)?,
        sites: sites_of(alloc, host, pattern, map, pattern.regions)?,
        inner: inner_of(alloc, host, pattern, map, inside)?,
        regions: host.regions,
        outer: host.outer.copy(alloc)?,
    })
}
