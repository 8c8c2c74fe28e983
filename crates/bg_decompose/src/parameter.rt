//! The parameter of a decomposition: what is inside of the pattern.
ghost use Rattle.std.specs.Prelude.{◌≡◌, ◌++◌, ◌-◌, ◌<◌, ◌^◌, length, map as mapped, [], IfOk, OnOk};
ghost use Rattle.std.specs.List.Sorted.{IsStrictlySortedBy};
ghost use Rattle.bg_base.specs.declared.names.Link.TheVariants.{Outer};
ghost use Rattle.bg_base.specs.declared.names.Name.TheVariants.{Port};
ghost use Rattle.bg_base.specs.Bigraph.{node_cmp};
ghost use Rattle.bg_base.specs.Elementary.{counted};
ghost use Rattle.bg_base.specs.Translation as translation;
ghost use Rattle.bg_rules.specs.Decomposition.{port_names, names_of};
ghost use Rattle.bg_decompose.specs.Parts as part;
ghost use Rattle.bg_decompose.specs.Parts.{IsSiteTable};

use bg_base::{Big, Link, Name, NodeRow, Place, PortLinks};
use bg_lists::{Mem, Rows};
use bg_rules::images::image_of;
use smallvec::SmallVec;
use std::alloc::Global;
use std::collections::BTreeMap;

/// The image of each node of the pattern in which a site lies, with the number of the site.
pub(crate) fn site_table(
    alloc: Global,
    pattern: &Big,
    map: &[u32],
    sites: &[Place],
) -> Mem<BTreeMap<u32, u32>>
    requires ascending { IsStrictlySortedBy node_cmp pattern.now.nodes }
    requires as_many { length pattern.now.nodes ≡ length map.now }
    requires few { length sites.now < 2 ^ 32 }
    ensures { IfOk result (λ table. IsSiteTable (mapped (translation.place_renamed pattern.now map.now) sites.now) table) }
{
    let mut table = BTreeMap::new(alloc);
    for (at, place) in sites.iter().enumerate() {
        if let Place::Node(node) = place {
            table.insert(image_of(pattern, map, *node), at as u32)?;
        }
    }
    Ok(table)
}

/// The place in the parameter: a node with a site is cut.
fn cut_place(table: &BTreeMap<u32, u32>, place: Place) -> Place
    ensures { result ≡ part.cut_place table.now place }
{
    match place {
        Place::Node(node) => match table.get(&node) {
            Some(site) => Place::Region(*site),
            None => place,
        },
        Place::Region(_) => place,
    }
}

/// The ports of a node, each tied to its own name.
fn port_links(alloc: Global, node: u32, count: u32) -> Mem<PortLinks>
    requires few { count < 2 ^ 32 - 1 }
    ensures { IfOk result (λ links. links ≡ mapped (λ port. Outer (Port node port)) (counted 0 count)) }
{
    let mut links = SmallVec::new(alloc);
    for port in 0..count {
        links.push(Link::Outer(Name::Port(node, port)))?;
    }
    Ok(PortLinks::from_small_vec(links))
}

fn cut_row(alloc: Global, table: &BTreeMap<u32, u32>, row: &NodeRow) -> Mem<NodeRow>
    ensures { IfOk result (λ made. made ≡ part.cut_row table.now row.now) }
{
    Ok(NodeRow {
        id: row.id,
        control: row.control,
        parent: cut_place(table, row.parent),
        links: port_links(alloc, row.id, row.links.len())?,
    })
}

fn cut_rows(alloc: Global, table: &BTreeMap<u32, u32>, rows: &[NodeRow]) -> Mem<Vec<NodeRow>>
    ensures { IfOk result (λ made. made.items ≡ mapped (part.cut_row table.now) rows.now) }
{
    let mut made = Vec::new(alloc);
    for row in rows {
        made.push(cut_row(alloc, table, row)?)?;
    }
    Ok(made)
}

/// Appends the names of the ports of a node.
fn push_names(node: u32, count: u32, names: &mut Vec<Name>) -> Mem<()>
    ensures { OnOk result (names.new.items ≡ names.old.items ++ port_names node count) }
{
    for port in 0..count {
        names.push(Name::Port(node, port))?;
    }
    Ok(())
}

/// The names of the ports of all nodes.
fn all_names(alloc: Global, rows: &[NodeRow]) -> Mem<Vec<Name>>
    ensures { IfOk result (λ names. names.items ≡ names_of rows.now) }
{
    let mut names = Vec::new(alloc);
    for row in rows {
        push_names(row.id, row.links.len(), &mut names)?;
    }
    Ok(names)
}

/// The parameter whose nodes come from these of the host.
pub(crate) fn parameter_of(
    alloc: Global,
    table: &BTreeMap<u32, u32>,
    regions: u32,
    inside: &[NodeRow],
) -> Mem<Big>
    ensures { IfOk result (λ made. made ≡ record {
      nodes = mapped (part.cut_row table.now) inside.now;
      edges = [];
      sites = [];
      inner = [];
      regions = regions;
      outer = names_of (mapped (part.cut_row table.now) inside.now);
    }) }
{
    let rows = cut_rows(alloc, table, inside)?;
    let names = all_names(alloc, rows.as_slice())?;
    Ok(Big {
        nodes: Rows::try_from_vec(rows)?,
        edges: Rows::from_vec(Vec::new(alloc)),
        sites: Rows::from_vec(Vec::new(alloc)),
        inner: Rows::from_vec(Vec::new(alloc)),
        regions,
        outer: Rows::try_from_vec(names)?,
    })
}
