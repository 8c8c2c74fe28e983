//! What a rule finds round the images of its redex, read off the host before anything is changed.
ghost use Rattle.std.specs.Prelude.{◌≡◌, ◌↔◌, ℕ, ◌<◌, ◌^◌, IfOk, IsTrue, Some, length};
ghost use Rattle.std.specs.List.{All};
ghost use Rattle.std.specs.List.Sorted.{IsStrictlySortedBy};
ghost use Rattle.std.specs.Ordering.{nat_cmp};
ghost use Rattle.bg_lists.specs.Lists.{Mem as Member, At};
ghost use Rattle.bg_base.specs.declared.names.Place.{Place as PlaceValue};
ghost use Rattle.bg_base.specs.declared.names.Place.TheVariants.{Node};
ghost use Rattle.bg_base.specs.Order.{name_cmp};
ghost use Rattle.bg_base.specs.declared.big.Big.{Big as BigValue};
ghost use Rattle.bg_base.specs.declared.names.Link.{Link as LinkValue};
ghost use Rattle.bg_base.specs.declared.names.Link.TheVariants.{Outer};
ghost use Rattle.bg_base.specs.declared.names.Name.{Name as NameValue};
ghost use Rattle.bg_index.specs.declared.reading.Part.{Part as PartValue};
ghost use Rattle.bg_index.specs.declared.reading.Tie.{Tie as TieValue};
ghost use Rattle.bg_link.specs.Links as defined;
ghost use Rattle.bg_link.specs.Links.{has_port, link_of};
ghost use Rattle.bg_index.specs.Plans.{IsRead};
ghost use Rattle.bg_index.specs.Readings.{AreFound, AreNoted, IsNoted, IsReadingAt};
ghost use Rattle.bg_index.specs.Sites.{AreImages};
ghost use Rattle.bg_rewriting.specs.Boundaries.{IsLinkOf, IsPartOf, IsPlaceOf, times_asked};
ghost use Rattle.bg_rules.specs.Decomposition.{Occurs};
ghost use Rattle.bg_rules.specs.Hosts.{IsHost};
ghost use Rattle.bg_rules.specs.LocalConditions as local;
ghost use Rattle.bg_rules.specs.LocalConditions.{MeetsLocally};
ghost use Rattle.bg_rules.specs.Rules.{RuleParts, IsRule};
ghost use Rattle.bg_rules.specs.Solid.{IsPattern};

use crate::IndexedHost;
use crate::late::late_entries;
use crate::parts::part_of;
use crate::sets::number_set;
use bg_base::{Big, Link, Name, Place};
use bg_lists::{Duplicate, Mem};
use bg_rules::Rule;
use bg_rules::images::image_of;
use std::alloc::Global;

/// The nodes at a site, ascending.
#[derive(Drop)]
pub struct Part {
    pub nodes: Vec<u32>,
}

/// What a rule finds round its images: for each region of the redex the place in which it stands, for each outer name the
/// link that it stands for, for each site how many entries of the map ask for it and the nodes there. Where exactly one
/// entry asks for a site its nodes are left out, since they keep their numbers. The images ascend. Beside these, for each
/// entry of the map whether an earlier one asks for the same site.
#[derive(Drop)]
pub struct Reading {
    pub images: Vec<u32>,
    pub places: Vec<Place>,
    pub links: Vec<Link>,
    pub asked: Vec<u32>,
    pub late: Vec<bool>,
    pub parts: Vec<Part>,
}

/// What the rule finds round its images at the nodes of the map. Costs time n log n in the size of the rule, with a
/// search of each image among the nodes of the host, and in the number of the nodes that it lists at sites and of the
/// children of the images above these.
pub fn read(alloc: Global, host: &IndexedHost, rule: &Rule, map: &[u32]) -> Mem<Reading>
    requires host { IsHost host.now }
    requires rule { IsRule rule.now }
    requires occurs { Occurs host.now.big rule.now.redex map.now }
    ensures { IfOk result (λ reading. IsRead host.now rule.now map.now reading) }
{
    let reading = read_at(alloc, host, rule.redex().big(), rule.map().as_slice(), map)?;
    Ok(reading)
}

/// What a rule with this redex and these entries finds.
fn read_at(
    alloc: Global,
    host: &IndexedHost,
    redex: &Big,
    entries: &[u32],
    map: &[u32],
) -> Mem<Reading>
    requires host { IsHost host.now }
    requires pattern { IsPattern redex.now }
    requires meets { MeetsLocally host.now.big redex.now map.now }
    requires entries_there { All (λ entry. entry < length redex.now.sites) entries.now }
    requires few { length entries.now < 2 ^ 32 }
    ensures { IfOk result (λ reading. (rule : RuleParts) → rule.redex ≡ redex.now → rule.map ≡ entries.now
        → IsReadingAt host.now.big rule map.now reading) }
{
    let places = places_of(alloc, host, redex, map)?;
    let links = links_of(alloc, host, redex, map)?;
    let images = images_of(alloc, map)?;
    let asked = asked_of(alloc, redex.sites.len(), entries)?;
    let late = late_entries(alloc, entries)?;
    let parts = parts_of(alloc, host, redex, map, &images, &asked)?;
    Ok(Reading {
        images,
        places,
        links,
        asked,
        late,
        parts,
    })
}

/// The nodes of the map in order. Costs time n log n, and memory n.
fn images_of(alloc: Global, map: &[u32]) -> Mem<Vec<u32>>
    ensures ascending { IfOk result (λ images. IsStrictlySortedBy nat_cmp images.items) }
    ensures same { IfOk result (λ images. (node : ℕ) → (Member node images.items ↔ Member node map.now)) }
{
    let copied = Vec::from_slice(alloc, map)?;
    Ok(number_set(copied))
}

/// For each site how many of the entries ask for it.
fn asked_of(alloc: Global, sites: u32, entries: &[u32]) -> Mem<Vec<u32>>
    requires there { All (λ entry. entry < sites) entries.now }
    requires few { length entries.now < 2 ^ 32 }
    ensures many { IfOk result (λ asked. length asked.items ≡ sites) }
    ensures are { IfOk result (λ asked. (site count : ℕ) → At count site asked.items → count ≡ times_asked entries.now site) }
{
    let mut asked = vec![in alloc; 0; sites as usize]?;
    for entry in entries {
        asked[*entry as usize] += 1;
    }
    Ok(asked)
}

/// For each site of the redex the nodes at it, where not exactly one entry asks for it. Costs what `part_of` costs for each.
fn parts_of(
    alloc: Global,
    host: &IndexedHost,
    redex: &Big,
    map: &[u32],
    images: &[u32],
    asked: &[u32],
) -> Mem<Vec<Part>>
    requires images { AreImages host.now redex.now map.now images.now }
    requires asked_many { length asked.now ≡ length redex.now.sites }
    ensures many { IfOk result (λ parts. length parts.items ≡ length redex.now.sites) }
    ensures are { IfOk result (λ parts. (site node count : ℕ) (part : PartValue) → At (Node node) site redex.now.sites → At count site asked.now
        → At part site parts.items → (count ≡ 1 → ⊥)
        → IsPartOf host.now.big map.now (local.image_of redex.now map.now node) part.nodes.items) }
{
    let mut parts = Vec::new(alloc);
    for (site, place) in redex.sites.iter().enumerate() {
        let nodes = nodes_at(alloc, host, redex, map, images, *place, asked[site])?;
        parts.push(Part { nodes })?;
    }
    Ok(parts)
}

/// The nodes at the site that lies in the place; none where exactly one entry asks for it.
fn nodes_at(
    alloc: Global,
    host: &IndexedHost,
    redex: &Big,
    map: &[u32],
    images: &[u32],
    place: Place,
    asked: u32,
) -> Mem<Vec<u32>>
    requires images { AreImages host.now redex.now map.now images.now }
    requires there { Member place redex.now.sites }
    ensures { IfOk result (λ part. (node : ℕ) → place ≡ Node node → (asked ≡ 1 → ⊥)
        → IsPartOf host.now.big map.now (local.image_of redex.now map.now node) part.items) }
{
    if asked == 1 {
        return Ok(Vec::new(alloc));
    }
    match place {
        Place::Node(node) => {
            let part = part_of(alloc, host, images, image_of(redex, map, node))?;
            Ok(part)
        }
        Place::Region(_) => Ok(Vec::new(alloc)),
    }
}

/// For each region of the redex the place of the image of a node in it.
fn places_of(alloc: Global, host: &IndexedHost, redex: &Big, map: &[u32]) -> Mem<Vec<Place>>
    requires host { IsHost host.now }
    requires pattern { IsPattern redex.now }
    requires meets { MeetsLocally host.now.big redex.now map.now }
    ensures many { IfOk result (λ places. length places.items ≡ redex.now.regions) }
    ensures are { IfOk result (λ places. (region : ℕ) (place : PlaceValue) → At place region places.items
        → IsPlaceOf host.now.big redex.now map.now region place) }
{
    let mut places = vec![in alloc; Place::Region(0); redex.regions as usize]?;
    for (at, row) in redex.nodes.iter().enumerate() {
        match row.parent {
            Place::Region(region) => places[region as usize] = host.parent(map[at]),
            Place::Node(_) => {}
        }
    }
    Ok(places)
}

/// A port of a node.
#[derive(Clone, Copy)]
pub struct Tie {
    pub node: u32,
    pub port: u32,
}

/// For each outer name of the redex the link of the image of a port with the name.
fn links_of(alloc: Global, host: &IndexedHost, redex: &Big, map: &[u32]) -> Mem<Vec<Link>>
    requires host { IsHost host.now }
    requires pattern { IsPattern redex.now }
    requires meets { MeetsLocally host.now.big redex.now map.now }
    ensures many { IfOk result (λ links. length links.items ≡ length redex.now.outer) }
    ensures are { IfOk result (λ links. (i : ℕ) (name : NameValue) (link : LinkValue) → At name i redex.now.outer → At link i links.items
        → IsLinkOf host.now.big redex.now map.now name link) }
{
    let ties = ties_of(alloc, redex, map)?;
    let links = links_at(alloc, host, &ties)?;
    Ok(links)
}

/// Copies of the links of these ports, which are there.
fn links_at(alloc: Global, host: &IndexedHost, ties: &[Tie]) -> Mem<Vec<Link>>
    requires there { (tie : TieValue) → Member tie ties.now → IsTrue (has_port (defined.links_of host.now.big) tie.node tie.port) }
    ensures many { IfOk result (λ links. length links.items ≡ length ties.now) }
    ensures are { IfOk result (λ links. (i : ℕ) (tie : TieValue) (link : LinkValue) → At tie i ties.now → At link i links.items
        → link_of (defined.links_of host.now.big) tie.node tie.port ≡ Some link) }
{
    let mut made = Vec::new(alloc);
    for tie in ties {
        let link = host.link(tie.node, tie.port).copy(alloc)?;
        made.push(link)?;
    }
    Ok(made)
}

/// For each outer name of the redex a port of an image whose port in the redex has the name.
fn ties_of(alloc: Global, redex: &Big, map: &[u32]) -> Mem<Vec<Tie>>
    requires outer_ascends { IsStrictlySortedBy name_cmp redex.now.outer }
    requires as_many { length redex.now.nodes ≡ length map.now }
    ensures { IfOk result (λ ties. (host : BigValue) → IsPattern redex.now → MeetsLocally host redex.now map.now
        → AreFound host redex.now map.now (length redex.now.nodes) ties.items) }
{
    let mut ties = vec![in alloc; Tie { node: 0, port: 0 }; redex.outer.len() as usize]?;
    for (at, row) in redex.nodes.iter().enumerate() {
        note_ports(&redex.outer, row.links.as_slice(), map[at], &mut ties);
    }
    Ok(ties)
}

/// Notes for each outer name among the links the port that has it.
fn note_ports(outer: &[Name], links: &[Link], node: u32, ties: &mut Vec<Tie>)
    requires outer_ascends { IsStrictlySortedBy name_cmp outer.now }
    requires beside { length ties.old.items ≡ length outer.now }
    requires few { length links.now < 2 ^ 32 }
    ensures { AreNoted outer.now links.now node (length links.now) ties.old.items ties.new.items }
{
    for (port, link) in links.iter().enumerate() {
        note_port(outer, link, node, port as u32, ties);
    }
}

/// Notes the port for its outer name, where the link is one.
fn note_port(outer: &[Name], link: &Link, node: u32, port: u32, ties: &mut Vec<Tie>)
    requires outer_ascends { IsStrictlySortedBy name_cmp outer.now }
    requires beside { length ties.old.items ≡ length outer.now }
    ensures { IsNoted outer.now link.now node port ties.old.items ties.new.items }
{
    match link {
        Link::Outer(name) => note_name(outer, name, Tie { node, port }, ties),
        Link::Edge(_) => {}
    }
}

/// Notes the port for the outer name.
fn note_name(outer: &[Name], name: &Name, tie: Tie, ties: &mut Vec<Tie>)
    requires outer_ascends { IsStrictlySortedBy name_cmp outer.now }
    requires beside { length ties.old.items ≡ length outer.now }
    ensures { IsNoted outer.now (Outer name.now) tie.node tie.port ties.old.items ties.new.items }
{
    match outer.binary_search(name) {
        Ok(at) => ties[at] = tie,
        Err(_) => {}
    }
}
